// The text of a list of rows, each a list of ints.
ghost use Rattle.std.specs.Prelude.{◌≡◌, ℕ, ◌^◌, ◌<◌, List, [], ◌∷◌, ◌++◌, length, sum, MatchResult};
ghost use Rattle.monoid.specs.declared.int.Int.{Int as TheInt};
ghost use Rattle.values.specs.Texts.{int_text, row_text, rows_text};
ghost use Rattle.values.specs.Reading.{NoText};
ghost use Rattle.values.specs.Rows.{Stopping, RowsRead};
ghost use Rattle.values.specs.declared.fault.ReadFault.TheVariants.{NoValue};

use crate::fault::ReadFault;
use crate::front::{Front, Stopped};
use crate::int_text::read_int;
use crate::list::{Elements, read_list};
use monoid::int::Int;
use monoid::segmented::Segments;
use std::alloc::{AllocError, Global};

// Rows side by side: all their ints, and the length of each.
#[derive(Drop)]
pub struct Rows {
    pub ints: Vec<Int>,
    pub lengths: Vec<usize>,
    ghost covered: { sum lengths.items ≡ length ints.items },
}

impl Rows {
    // There are few enough rows, as a length takes eight bytes.
    pub fn segments(&self) -> Segments<'_, Int>
        ensures elements { result.elements.now ≡ self.now.ints.items }
        ensures lengths { result.lengths.now ≡ self.now.lengths.items }
        ensures few { length result.lengths.now < 2 ^ 60 }
    {
        Segments {
            elements: self.ints.as_slice(),
            lengths: self.lengths.as_slice(),
        }
    }
}

impl From<Stopped> for ReadFault {
    ghost from_gives = { λ stop f. f ≡ NoValue stop.length };

    fn from(stop: Stopped) -> ReadFault {
        ReadFault::NoValue(stop.length)
    }
}

impl Elements for Vec<Int> {
    type Read = Int;

    ghost Element = { TheInt };

    ghost spelled = { int_text };

    ghost Finds = { λ read before x after. (read ≡ x) × (after.items ≡ before.items) };

    ghost Keeps = { λ before x after. after.items ≡ before.items ++ (x ∷ []) };

    fn read_element(&mut self, text: &[u8]) -> Result<Front<Int>, ReadFault> {
        Ok(read_int(text)?)
    }

    fn keep(&mut self, read: Int) -> Result<(), AllocError> {
        self.push(read)?;
        Ok(())
    }
}

// Rows while they are read: the last one's ints are there before its length.
#[derive(Drop)]
struct Gathered {
    ints: Vec<Int>,
    lengths: Vec<usize>,
}

impl Elements for Gathered {
    // How many ints the row has.
    type Read = usize;

    ghost Element = { List TheInt };

    ghost spelled = { row_text };

    ghost Finds = { λ count before row after. (count ≡ length row) × (after.ints.items ≡ before.ints.items ++ row) × (after.lengths.items ≡ before.lengths.items) };

    ghost Keeps = { λ before row after. (after.ints.items ≡ before.ints.items ++ row) × (after.lengths.items ≡ before.lengths.items ++ (length row ∷ [])) };

    fn read_element(&mut self, text: &[u8]) -> Result<Front<usize>, ReadFault> {
        let before = self.ints.len();
        let length = read_list(text, &mut self.ints)?;
        Ok(Front {
            value: self.ints.len() - before,
            length,
        })
    }

    fn keep(&mut self, count: usize) -> Result<(), AllocError> {
        self.lengths.push(count)?;
        Ok(())
    }
}

// The rows whose text this is.
pub fn read_rows(heap: Global, text: &[u8]) -> Result<Rows, ReadFault>
    ensures { MatchResult result (λ rows. RowsRead text.now rows.ints.items rows.lengths.items) (λ f. Stopping (NoText rows_text text.now) f) }
{
    let mut rows = Gathered {
        ints: Vec::new(heap),
        lengths: Vec::new(heap),
    };
    let length = read_list(text, &mut rows)?;
    if length < text.len() {
        return Err(ReadFault::NoValue(length));
    }
    let Gathered { ints, lengths } = rows;
    Ok(Rows { ints, lengths })
}
