// The plan of a program: its occurrences with jumps and free variables worked out, for runs to follow.
#![tactic(auto)]

mod boxes;
mod fork;
mod gathering;
pub mod plan;
pub mod table;
