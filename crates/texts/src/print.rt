// Printing the text of a value.
ghost use Rattle.types.specs.TypeRefs.{meant};
ghost use Rattle.texts.specs.Printing.{Prints};

use crate::writer::Writer;
use monoid::int::Int;
use types::type_ref::TypeRef;
use values::print::TooShort;

// Prints the value of a type whose cells come first into the beginning of the output and answers the length of its text;
// further bytes stay as they are. The text is counted first, so that an output that is too short stays as it is.
pub fn print_value(t: TypeRef<'_>, cells: &[Int], out: &mut [u8]) -> Result<usize, TooShort>
    ensures { Prints (meant t.entry) cells.now out.old out.new result }
{
    let mut counter = Writer {
        cells,
        out: &mut [],
        place: 0,
    };
    counter.value(t);
    let needed = counter.place;
    if out.len() < needed {
        return Err(TooShort { needed });
    }
    let mut writer = Writer {
        cells,
        out,
        place: 0,
    };
    writer.value(t);
    Ok(needed)
}
