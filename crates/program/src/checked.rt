// A program that was checked.
mod facts;
mod replacing;

ghost use Rattle.program.specs.Stages.{IsChecked};

use super::memory::Memory;

#[derive(Drop)]
pub struct CheckedProgram {
    pub(super) memory: Memory,
    ghost sound: { IsChecked memory.table memory.checker },
}
