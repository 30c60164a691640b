// A whole program.
ghost use Rattle.std.specs.Prelude.{◌≡◌, ◌≤◌, length};
ghost use Rattle.lang.specs.Outcome.{then};
ghost use Rattle.judging.specs.Judging.{judge as judge_all, begin, finish as finished};
ghost use Rattle.typing.specs.Holding.{held, Judged};

use super::super::fault::CheckFault;
use super::{Checker, MAX_WEIGHT};
use grammar::occurrence::Occurrence;

impl Checker {
    // Forgets what was judged.
    fn clear(&mut self)
        ensures { held self.new ≡ begin }
    {
        self.notes.clear();
        self.forks.clear();
        self.uses.clear();
        self.stack.clear();
        self.scope.clear();
        self.types.clear();
        self.weight = 0;
    }

    fn judge_each(&mut self, occurrences: &[Occurrence]) -> Result<(), CheckFault>
        requires new { held self.old ≡ begin }
        requires few { length occurrences.now ≤ 1024 }
        ensures { Judged (judge_all occurrences.now begin) self.new result }
    {
        for o in occurrences {
            self.judge_one(*o)?;
        }
        Ok(())
    }

    // Whether the body has the declared type, and the program is not too heavy.
    fn finish(&self) -> Result<(), CheckFault>
        ensures { Judged (finished (held self.now)) self.now result }
    {
        if !self.types.same(self.top(0), self.top(1)) {
            return Err(CheckFault::WrongResult);
        }
        if self.weight > MAX_WEIGHT {
            return Err(CheckFault::TooHeavy);
        }
        Ok(())
    }

    // Judges a program by its occurrences: the state at its end, or the first refusal.
    pub fn judge_program(&mut self, occurrences: &[Occurrence]) -> Result<(), CheckFault>
        requires { length occurrences.now ≤ 1024 }
        ensures { Judged (then (judge_all occurrences.now begin) finished) self.new result }
    {
        self.clear();
        self.judge_each(occurrences)?;
        self.finish()
    }
}
