// From a program that was read to one that was checked.
ghost use Rattle.std.specs.Prelude.{◌≡◌, MatchResult};
ghost use Rattle.reader.specs.Reading.{occurrences_of};
ghost use Rattle.typing.specs.Holding.{held};
ghost use Rattle.typing.specs.Faults.{of_check};
ghost use Rattle.program.specs.Answers.{read_in, CheckedAs};
ghost use Rattle.program.specs.Stages.{IsRead, Few, IsChecked, Accepts, Refuses};

use super::super::checked::CheckedProgram;
use super::super::fault::LoadFault;
use super::super::memory::{Memory, Rejected};
use super::ReadProgram;
use grammar::occurrence::Occurrence;
use typing::fault::CheckFault;

impl Memory {
    // Judges the program that the table has.
    pub(crate) fn judge(&mut self) -> Result<(), CheckFault>
        requires read { IsRead self.old.table }
        requires few { Few self.old.table }
        ensures table { self.new.table ≡ self.old.table }
        ensures judged { MatchResult result (λ _. IsChecked self.new.table self.new.checker × Accepts (occurrences_of self.old.table) (held self.new.checker)) (λ f. Refuses (occurrences_of self.old.table) (of_check f)) }
    {
        self.checker.judge_program(self.table.occurrences())
    }
}

impl ReadProgram {
    // What the program does, in the order of evaluation.
    pub fn occurrences(&self) -> &[Occurrence]
        ensures { result.now ≡ read_in self.now }
    {
        self.memory.table.occurrences()
    }

    // The same program, checked, or the first refusal.
    pub fn check(self) -> Result<CheckedProgram, Rejected>
        ensures { CheckedAs (read_in self) result }
    {
        let ReadProgram { mut memory } = self;
        match memory.judge() {
            Ok(()) => Ok(CheckedProgram { memory }),
            Err(fault) => Err(Rejected {
                fault: LoadFault::from(fault),
                memory,
            }),
        }
    }
}
