// From a text to a program.
ghost use Rattle.std.specs.Prelude.{IfOk, MatchResult};
ghost use Rattle.reader.specs.Reading.{Rejects};
ghost use Rattle.program.specs.Answers.{IsFresh, ReadAs, LoadedAs};
ghost use Rattle.program.specs.Stages.{Tabled};

use super::super::checked::CheckedProgram;
use super::super::fault::LoadFault;
use super::super::read::ReadProgram;
use super::{Memory, Rejected};
use reader::fault::ReadFault;
use reader::table::Table;
use std::alloc::{AllocError, Global};
use typing::checker::Checker;

impl Memory {
    // Takes all the memory that a program needs.
    pub fn new(heap: Global) -> Result<Memory, AllocError>
        ensures { IfOk result (λ m. IsFresh m) }
    {
        let table = Table::new(heap)?;
        let checker = Checker::new(heap)?;
        Ok(Memory { table, checker })
    }

    // Reads the text into the table.
    pub(crate) fn fill(&mut self, text: &[u8]) -> Result<(), ReadFault>
        ensures { MatchResult result (λ _. Tabled text.now self.new.table) (λ f. Rejects text.now f) }
    {
        self.table.read(text)
    }

    // The program that the text is, read, or why it is none.
    pub fn read(mut self, text: &[u8]) -> Result<ReadProgram, Rejected>
        ensures { ReadAs text.now result }
    {
        match self.fill(text) {
            Ok(()) => Ok(ReadProgram { memory: self }),
            Err(fault) => Err(Rejected {
                fault: LoadFault::from(fault),
                memory: self,
            }),
        }
    }

    // The program that the text is, checked, or the first refusal.
    pub fn load(self, text: &[u8]) -> Result<CheckedProgram, Rejected>
        ensures { LoadedAs text.now result }
    {
        self.read(text)?.check()
    }
}
