// Texts of values.
ghost use Rattle.std.specs.Prelude.{◌≡◌, ◌<◌, ◌≤◌, length, IfSome};
ghost use Rattle.types.specs.Table.{types_in};

use monoid::int::Int;
use refusal::Refusal;
use texts::print::print_value;
use texts::read::read_value;
use types::table::{CAPACITY, TypeTable};
use types::type_ref::TypeRef;

// How many cells a value may have.
const ROOM: usize = 1024;

// How deep types may nest.
const DEPTH: usize = 100;

// Reads a type into a table. A word is known by its first letter, and a sign after a type is taken to be the one that belongs there.
#[derive(Drop)]
struct TypeReader<'a> {
    types: &'a mut TypeTable,
    text: &'a [u8],
}

impl TypeReader<'_> {
    fn skip(&mut self, count: usize)
        ensures { self.new.types.now ≡ self.old.types.now }
    {
        self.text = self.text.get(count..).unwrap_or_default();
    }

    // The code of the type that comes next. There is none if types nest deeper than this, or the table is full.
    fn read(&mut self, depth: usize) -> Option<usize>
        ensures within { IfSome result (λ code. code < length (types_in self.new.types.now)) }
        ensures kept { length (types_in self.old.types.now) ≤ length (types_in self.new.types.now) }
    {
        let depth = depth.checked_sub(1)?;
        match self.text.first()? {
            b'i' => {
                self.skip("int".len());
                Some(self.types.int())
            }
            b'b' => {
                self.skip("bool".len());
                Some(self.types.bool())
            }
            b'[' => {
                self.skip("[".len());
                let element = self.read(depth)?;
                self.skip("]".len());
                if self.types.len() >= CAPACITY {
                    return None;
                }
                Some(self.types.list(element))
            }
            b'(' => {
                self.skip("(".len());
                let left = self.read(depth)?;
                self.skip(",".len());
                let right = self.read(depth)?;
                self.skip(")".len());
                if self.types.len() >= CAPACITY {
                    return None;
                }
                Some(self.types.pair(left, right))
            }
            _ => None,
        }
    }
}

// Whether the cells are printed as just this text, and refused by an output that is one byte shorter.
fn prints_back(
    rt: &HostRuntime,
    t: TypeRef<'_>,
    cells: &[Int],
    text: &[u8],
) -> anyhow::Result<bool> {
    let mut output = vec![in rt.alloc(); b'.'; text.len()]?;
    let printed = print_value(t, cells, output.as_mut_slice()).map_err(Refusal::from);
    let mut shorter = vec![in rt.alloc(); b'.'; text.len().saturating_sub(1)]?;
    let refused = print_value(t, cells, shorter.as_mut_slice()).map_err(Refusal::from);
    let too_short = Refusal {
        number: 21,
        place: text.len(),
    };
    Ok(printed == Ok(text.len()) && output.as_slice() == text && refused == Err(too_short))
}

fn try_value(rt: &HostRuntime, kind: &[u8], digits: &[u8]) -> anyhow::Result<()> {
    let mut types = TypeTable::new(rt.alloc())?;
    let mut reader = TypeReader {
        types: &mut types,
        text: kind,
    };
    let Some(code) = reader.read(DEPTH) else {
        println!(rt; "bad type")?;
        return Ok(());
    };
    let t = types.get(code);
    let text = hexadecimal::decode(rt.alloc(), digits)?;
    let mut cells = vec![in rt.alloc(); Int::zero(); ROOM]?;
    match read_value(t, text.as_slice(), cells.as_mut_slice()) {
        Ok(size) if prints_back(rt, t, cells.as_slice(), text.as_slice())? => println!(rt;
            "size {size}"
        )?,
        Ok(size) => println!(rt; "size {size}, and printed otherwise")?,
        Err(fault) => println!(rt; "{}", Refusal::from(fault))?,
    }
    Ok(())
}

pub fn try_line(rt: &HostRuntime, line: &str) -> anyhow::Result<()> {
    match line.split_once(' ') {
        Some((kind, digits)) => try_value(rt, kind.as_bytes(), digits.as_bytes()),
        None => {
            println!(rt; "bad line")?;
            Ok(())
        }
    }
}
