// Values as texts: read and printed.
#![tactic(auto)]

pub mod fault;
pub mod front;
pub mod int_text;
mod list;
pub mod print;
pub mod rows;
pub mod sign;
