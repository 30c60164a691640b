// Reading a text from a place on. Cells are stored as far as there is room, and counted beyond.
ghost use Rattle.std.specs.Prelude.{◌≤◌, length};

mod phrases;
mod steps;

use monoid::int::Int;

// The text and the place of its next byte, and the cells and how many of them the values so far take.
#[derive(Drop)]
pub struct Reader<'a> {
    pub text: &'a [u8],
    pub at: usize,
    pub cells: &'a mut [Int],
    pub used: usize,
    ghost within: { at ≤ length text.now },
    ghost few: { used ≤ at },
}
