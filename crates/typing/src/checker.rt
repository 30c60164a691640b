// The checker's memory.
mod brackets;
mod forks;
mod joins;
mod judge;
mod leaves;
mod making;
mod names;
mod nodes;
mod reading;
mod rules;
mod scope;
mod stack;
mod weight;
mod whole;

ghost use Rattle.std.specs.Prelude.{length, vec_len, vec_capacity};
ghost use Rattle.types.specs.Table.{types_in};
ghost use Rattle.typing.specs.Codes.{Coded, Logged, Few, Rooms};

use super::parts::{Binding, Fork, Note, Use};
use types::table::TypeTable;

// The most occurrences of a program.
pub const LIMIT: usize = 1025;

// The most parts of a type, and the most elements of a list in brackets.
pub const MAX_PARTS: usize = 8;

// The most that a program weighs.
const MAX_WEIGHT: usize = 2000;

// What stands in scope, on the stack of types and in the open forks, and what was noted of each occurrence. Types are
// held by their codes. All memory is taken when the checker is made.
#[derive(Drop)]
pub struct Checker {
    types: TypeTable,
    scope: Vec<Binding>,
    stack: Vec<usize>,
    forks: Vec<Fork>,
    uses: Vec<Use>,
    flags: Vec<bool>,
    notes: Vec<Note>,
    weight: usize,
    ghost codes: { Coded (length (types_in types)) scope.items stack.items notes.items },
    ghost logged: { Logged (vec_len uses) forks.items },
    ghost few: { Few (vec_len notes) (vec_len uses) (length (types_in types)) },
    ghost rooms: { Rooms (vec_capacity scope) (vec_capacity stack) (vec_capacity forks) },
    ghost others: { Rooms (vec_capacity uses) (vec_capacity flags) (vec_capacity notes) },
}
