// The table of types.
mod interning;

ghost use Rattle.std.specs.Prelude.{◌≤◌, vec_capacity};
ghost use Rattle.types.specs.Entries.{Starts, Below, Counts, Once};

use super::node::Entry;

// The most types that the table has room for.
pub const CAPACITY: usize = 1100;

// Every type of a program, once each. The code of a type is its index: ints have 0 and bools 1.
#[derive(Drop)]
pub struct TypeTable {
    entries: Vec<Entry>,
    ghost starts: { Starts entries.items },
    ghost below: { Below entries.items },
    ghost counts: { Counts entries.items },
    ghost once: { Once entries.items },
    ghost room: { 1100 ≤ vec_capacity entries },
}
