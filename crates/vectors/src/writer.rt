// Ints that are written one after the other.
ghost use Rattle.std.specs.Prelude.{◌≡◌};
ghost use Rattle.vectors.specs.Writing.{Puts};

use monoid::int::Int;

// Writes into `out`, from the place `to` on.
#[derive(Drop)]
pub struct Writer<'a> {
    pub out: &'a mut [Int],
    pub to: usize,
}

impl Writer<'_> {
    // Writes an int, if there is room.
    pub fn put(&mut self, x: Int) -> Option<()>
        ensures same_reference { self.new.out.ghost_name ≡ self.old.out.ghost_name }
        ensures puts { Puts self.old x result self.new }
    {
        if self.to >= self.out.len() {
            return None;
        }
        self.out[self.to] = x;
        self.to += 1;
        Some(())
    }
}
