// Writing a text from a place on. Bytes are written as far as the output has room, and counted beyond.
mod parts;
mod steps;

use monoid::int::Int;

// The cells that are left to print, and the output with the place of its next byte.
#[derive(Drop)]
pub struct Writer<'a> {
    pub cells: &'a [Int],
    pub out: &'a mut [u8],
    pub place: usize,
}
