// The plan of a program.
mod filling;
mod forks;
mod joins;
mod making;
mod parts;
mod steps;

ghost use Rattle.std.specs.Prelude.{◌≤◌, vec_capacity};
ghost use Rattle.plan.specs.Filling.{Rooms};

use super::fork::Fork;
use super::table::{Entry, Free};
use typing::parts::Use;

// The most occurrences of a program: as many entries, variables in scope, open forks and uses there are at most.
const LIMIT: usize = 1024;

// The most free variables of all forks.
const MAX_FREES: usize = 2000;

// The table of a program, and what it takes to fill it: which variables in scope are boxed, the open forks, and the uses of
// variables so far. All memory is taken when the plan is made.
#[derive(Drop)]
pub struct Plan {
    entries: Vec<Entry>,
    frees: Vec<Free>,
    scope: Vec<bool>,
    forks: Vec<Fork>,
    uses: Vec<Use>,
    flags: Vec<bool>,
    ghost rooms: { Rooms (vec_capacity entries) (vec_capacity scope) (vec_capacity forks) (vec_capacity uses) (vec_capacity flags) },
    ghost room: { 2000 ≤ vec_capacity frees },
}
