// Reading the text of a value.
ghost use Rattle.types.specs.TypeRefs.{meant};
ghost use Rattle.texts.specs.Outcome.{Reads};

use crate::fault::ReadFault;
use crate::reader::Reader;
use monoid::int::Int;
use types::type_ref::TypeRef;

// Reads the value of a type whose text this is into the first of the lent cells, which are all the room that it has, and answers
// its size; further cells stay as they are. What a refused text leaves in the cells is not said.
pub fn read_value(t: TypeRef<'_>, text: &[u8], cells: &mut [Int]) -> Result<usize, ReadFault>
    ensures { Reads (meant t.entry) text.now cells.old cells.new result }
{
    let mut reader = Reader {
        text,
        at: 0,
        cells,
        used: 0,
    };
    reader.value(t)?;
    if reader.at < text.len() {
        return Err(ReadFault::NoValue(reader.at));
    }
    if reader.used > reader.cells.len() {
        return Err(ReadFault::TooLarge);
    }
    Ok(reader.used)
}
