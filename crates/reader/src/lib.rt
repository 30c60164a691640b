// The reader: the text of a program in, its occurrences out.
#![tactic(auto)]

mod descent;
pub mod fault;
mod operators;
mod parser;
mod program;
pub mod table;
mod types;
