// A program that was read.
pub(crate) mod checking;

ghost use Rattle.program.specs.Stages.{IsRead, Few};

use super::memory::Memory;

#[derive(Drop)]
pub struct ReadProgram {
    pub(super) memory: Memory,
    ghost read: { IsRead memory.table },
    ghost few: { Few memory.table },
}
