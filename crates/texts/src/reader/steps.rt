// What a reader does at its place.
ghost use Rattle.std.specs.Prelude.{◌≡◌, [], ◌∷◌, drop, slice_get, MatchBool, MatchResult, ◌≢◌};
ghost use Rattle.texts.specs.Phrases.{Advanced, ByteRead, NoByte, NoSign, Stores, OpensList, ReadsPhrase};
ghost use Rattle.values.specs.Signs.{byte_of};

use crate::reader::Reader;
use crate::room::store;
use crate::scalar::Scalar;
use monoid::int::Int;
use values::front::Stopped;
use values::sign::Sign;

impl<'a> Reader<'a> {
    // The text from the place on.
    fn rest(&self) -> &'a [u8]
        ensures { result.now ≡ drop self.now.at self.now.text.now }
    {
        &self.text[self.at..]
    }

    // Whether this byte is next; then it is read.
    pub fn take(&mut self, byte: u8) -> bool
        ensures { MatchBool result (ByteRead byte self.old self.new) ((slice_get self.old.text.now self.old.at ≢ Some byte) × Advanced self.old self.new 0 []) }
    {
        let is_next = self.text.get(self.at) == Some(&byte);
        if is_next {
            self.at += 1;
        }
        is_next
    }

    // Reads this byte.
    pub fn expect(&mut self, byte: u8) -> Result<(), Stopped>
        ensures { MatchResult result (λ _. ByteRead byte self.old self.new) (λ stop. NoByte byte self.old stop.length) }
    {
        if self.take(byte) {
            Ok(())
        } else {
            Err(Stopped { length: self.at })
        }
    }

    // Reads the sign behind an element of a list.
    pub fn sign(&mut self) -> Result<Sign, Stopped>
        ensures { MatchResult result (λ sign. ByteRead (byte_of sign) self.old self.new) (λ stop. NoSign self.old stop.length) }
    {
        let Some(sign) = Sign::at(self.text, self.at) else {
            return Err(Stopped { length: self.at });
        };
        self.at += 1;
        Ok(sign)
    }

    // Stores a cell if there is room for it.
    pub fn store(&mut self, place: usize, cell: Int)
        ensures { Stores place cell self.old self.new }
    {
        store(self.cells, place, cell);
    }

    // Reads the bracket that opens a list, and answers the place of the cell for the list's length.
    pub fn open_list(&mut self) -> Result<usize, Stopped>
        ensures { MatchResult result (λ header. OpensList header self.old self.new) (λ stop. NoByte 91 self.old stop.length) }
    {
        self.expect(b'[')?;
        let header = self.used;
        self.used += 1;
        Ok(header)
    }

    // Reads an int or a bool.
    pub fn scalar<T: Scalar>(&mut self) -> Result<(), Stopped>
        ensures { ReadsPhrase T.text_of (λ x. T.cell_of x ∷ []) self.old self.new result }
    {
        let front = T::read(self.rest()).map_err(|stop| Stopped {
            length: self.at + stop.length,
        })?;
        self.store(self.used, front.value.cell());
        self.at += front.length;
        self.used += 1;
        Ok(())
    }
}
