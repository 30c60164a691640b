// What a writer does at its place.
ghost use Rattle.std.specs.Prelude.{[], ◌∷◌};
ghost use Rattle.texts.specs.Texts.{bool_text};
ghost use Rattle.texts.specs.Writing.{Puts, TakesCell, TakesCount};
ghost use Rattle.values.specs.Texts.{int_text};

use crate::cells::count_in;
use crate::room::store;
use crate::writer::Writer;
use itoa::Buffer;
use monoid::int::Int;

impl<'a> Writer<'a> {
    // Writes a byte.
    pub fn put(&mut self, b: u8)
        ensures { Puts (b ∷ []) self.old self.new }
    {
        store(self.out, self.place, b);
        self.place = self.place.saturating_add(1);
    }

    // Writes some bytes.
    pub fn put_all(&mut self, bytes: &[u8])
        ensures { Puts bytes.now self.old self.new }
    {
        for b in bytes {
            self.put(*b);
        }
    }

    // Writes an int.
    pub fn put_int(&mut self, x: Int)
        ensures { Puts (int_text x) self.old self.new }
    {
        self.put_all(Buffer::new().format(x.value).as_bytes());
    }

    // Writes a bool.
    pub fn put_bool(&mut self, x: bool)
        ensures { Puts (bool_text x) self.old self.new }
    {
        self.put_all(if x { b"true" } else { b"false" });
    }

    // Goes past the next cell and answers what it holds. Cells past the end count as 0, so that any cells can be printed.
    pub fn next_cell(&mut self) -> Int
        ensures { TakesCell result self.old self.new }
    {
        match self.cells {
            [cell, rest @ ..] => {
                self.cells = rest;
                *cell
            }
            [] => Int::zero(),
        }
    }

    // Goes past the next cell and answers the length that it holds.
    pub fn next_count(&mut self) -> usize
        ensures { TakesCount result self.old self.new }
    {
        let cell = self.next_cell();
        count_in(cell, self.cells.len())
    }
}
