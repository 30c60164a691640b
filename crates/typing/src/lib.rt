// Checking programs.
#![tactic(auto)]

pub mod checker;
pub mod elements;
pub mod fault;
pub mod flags;
mod given;
mod misfit;
pub mod parts;
