// Values of every type as texts: read into cells, and printed from cells.
#![tactic(auto)]

pub mod bool_text;
pub mod cells;
pub mod fault;
pub mod law;
pub mod print;
pub mod read;
mod reader;
mod room;
mod scalar;
mod writer;
