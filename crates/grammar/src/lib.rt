// The grammar of programs: its trees, the order in which a tree is evaluated, and where a text leaves it.
#![tactic(auto)]

pub mod occurrence;
