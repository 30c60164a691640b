// The types of the language, each held once and named by its code.
#![tactic(auto)]

pub mod node;
pub mod table;
pub mod type_ref;
