// One program in the place of another.
ghost use Rattle.program.specs.Answers.{Replaced};

use super::super::fault::LoadFault;
use super::super::memory::Memory;
use super::CheckedProgram;
use std::mem::swap;

impl CheckedProgram {
    // The program that the text is takes this one's place, and leaves it its memory; or this one stays, and the first refusal is told.
    pub fn replace(&mut self, spare: &mut Memory, text: &[u8]) -> Result<(), LoadFault>
        ensures { Replaced text.now self.old self.new result }
    {
        spare.fill(text)?;
        spare.judge()?;
        swap(&mut self.memory, spare);
        Ok(())
    }
}
