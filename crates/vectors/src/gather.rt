// From the vectors of a value to its cells. A vector is what is left of it: its entries are taken off its front.
ghost use Rattle.std.specs.Prelude.{◌≡◌};
ghost use Rattle.types.specs.TypeRefs.{meant};
ghost use Rattle.vectors.specs.Gathering.{left, first, behind_first, Gathers, Found, Joins};

use crate::length::length_of;
use crate::span::{MAX_VECTORS, Span};
use crate::writer::Writer;
use arrayvec::ArrayVec;
use monoid::int::Int;
use types::type_ref::{Shape, TypeRef};

// Takes the next entry of the first vector.
fn next(vectors: &mut [&[Int]]) -> Option<Int>
    ensures entry { result ≡ first (left vectors.old) }
    ensures rest { left vectors.new ≡ behind_first (left vectors.old) }
{
    let [vector, ..] = vectors else {
        return None;
    };
    vector.split_off_first().copied()
}

// Takes the entries of the next value, whose vectors come first, and writes its cells.
fn gather_value(t: TypeRef<'_>, vectors: &mut [&[Int]], cells: &mut Writer<'_>) -> Option<()>
    ensures same_reference { cells.new.out.ghost_name ≡ cells.old.out.ghost_name }
    ensures gathers { Gathers (meant t.entry) (left vectors.old) cells.old result (left vectors.new) cells.new }
{
    match t.shape() {
        Shape::Int | Shape::Bool => cells.put(next(vectors)?),
        Shape::Pair(a, b) => {
            let count = a.parts();
            if vectors.len() < count {
                return None;
            }
            gather_value(a, vectors, cells)?;
            gather_value(b, &mut vectors[count..], cells)
        }
        Shape::List(element) => {
            let entry = next(vectors)?;
            let count = length_of(entry)?;
            cells.put(entry)?;
            let elements = &mut vectors[1..];
            for _ in 0..count {
                gather_value(element, elements, cells)?;
            }
            Some(())
        }
    }
}

// The vectors that stand there, unless they are more than 8 or ask for more entries than there is room for.
fn vectors_at<'a>(
    ints: &'a [Int],
    spans: &[Span],
    mut room: usize,
) -> Option<ArrayVec<&'a [Int], MAX_VECTORS>>
    ensures { Found ints.now spans.now room result }
{
    let mut vectors = ArrayVec::new();
    for span in spans {
        let vector = span.entries(ints);
        room = room.checked_sub(span.extent())?;
        vectors.try_push(vector).ok()?;
    }
    Some(vectors)
}

// Writes the cells of the value whose vectors stand there, and answers how many. Refused where there are more than 8 vectors or there is
// less room than entries; vectors that are no value's may be refused too.
pub fn to_cells(t: TypeRef<'_>, ints: &[Int], spans: &[Span], out: &mut [Int]) -> Option<usize>
    ensures { Joins (meant t.entry) ints.now spans.now out.old result out.new }
{
    let mut vectors = vectors_at(ints, spans, out.len())?;
    let mut cells = Writer { out, to: 0 };
    gather_value(t, vectors.as_mut_slice(), &mut cells)?;
    Some(cells.to)
}
