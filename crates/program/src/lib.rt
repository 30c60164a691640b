// Programs in their stages: memory for one, a program that was read, a program that was checked. Each stage is a type of its own, taken by
// value, and no stage can be made but from the one before it.
#![tactic(auto)]

pub mod checked;
pub mod fault;
pub mod memory;
pub mod read;
pub mod spelling;

ghost use Rattle.program.specs.Loading.{OneLaw};

// A text comes to one thing only: one program, or one refusal.
pub fn loading_is_exact()
    ensures { OneLaw }
{}
