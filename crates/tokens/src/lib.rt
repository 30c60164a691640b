// The tokens of a program's text.
#![tactic(auto)]

mod byte;
pub mod cutter;
pub mod fault;
pub mod kind;
mod lexeme;
mod number;
mod sign;
pub mod word;
