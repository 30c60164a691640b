// From the cells of a value to its vectors. Each vector is written by a walk of its own over the cells.
ghost use Rattle.std.specs.Prelude.{◌≡◌};
ghost use Rattle.types.specs.TypeRefs.{meant};
ghost use Rattle.vectors.specs.Placing.{Spreads};
ghost use Rattle.vectors.specs.Walking.{Steps, Walks, Past};

use crate::length::length_of;
use crate::span::{Layout, MAX_VECTORS, Span};
use crate::writer::Writer;
use monoid::int::Int;
use types::type_ref::{Shape, TypeRef};

// Which of the vectors behind the first `passed` is wanted, if it is none of the first.
fn past(wanted: Option<usize>, passed: usize) -> Option<usize>
    ensures { Past wanted passed result }
{
    wanted?.checked_sub(passed)
}

// Goes over the next cell, which is an entry of the vector 0, and answers it.
fn step(wanted: Option<usize>, cells: &mut &[Int], entries: &mut Writer<'_>) -> Option<Int>
    ensures same_reference { entries.new.out.ghost_name ≡ entries.old.out.ghost_name }
    ensures steps { Steps wanted cells.old.now entries.old result cells.new.now entries.new }
{
    let cell = *cells.split_off_first()?;
    if wanted == Some(0) {
        entries.put(cell)?;
    }
    Some(cell)
}

// Goes over the cells of the next value and writes the entries of its wanted vector.
fn walk_value(
    t: TypeRef<'_>,
    wanted: Option<usize>,
    cells: &mut &[Int],
    entries: &mut Writer<'_>,
) -> Option<()>
    ensures same_reference { entries.new.out.ghost_name ≡ entries.old.out.ghost_name }
    ensures walks { Walks (meant t.entry) wanted cells.old.now entries.old result cells.new.now entries.new }
{
    match t.shape() {
        Shape::Int | Shape::Bool => {
            step(wanted, cells, entries)?;
            Some(())
        }
        Shape::Pair(a, b) => {
            let behind = past(wanted, a.parts());
            walk_value(a, wanted, cells, entries)?;
            walk_value(b, behind, cells, entries)
        }
        Shape::List(element) => {
            let behind = past(wanted, 1);
            let count = length_of(*cells.first()?)?;
            step(wanted, cells, entries)?;
            for _ in 0..count {
                walk_value(element, behind, cells, entries)?;
            }
            Some(())
        }
    }
}

// Writes the vectors of the value whose cells these are, one after the other. Refused where the type has more than 8 parts or there is
// less room than cells; cells that are no value's may be refused too.
pub fn to_vectors(t: TypeRef<'_>, cells: &[Int], out: &mut [Int]) -> Option<Layout>
    ensures { Spreads (meant t.entry) cells.now out.old result out.new }
{
    let count = t.parts();
    if count > MAX_VECTORS {
        return None;
    }
    if out.len() < cells.len() {
        return None;
    }
    let mut layout = Layout::new();
    let mut entries = Writer { out, to: 0 };
    for k in 0..count {
        let start = entries.to;
        let mut rest = cells;
        walk_value(t, Some(k), &mut rest, &mut entries)?;
        layout.push(Span {
            start,
            end: entries.to,
        });
    }
    Some(layout)
}
