// Names that are bound and used.
ghost use Rattle.std.specs.Prelude.{◌≡◌};
ghost use Rattle.grammar.specs.declared.occurrence.What.{What};
ghost use Rattle.lang.specs.Outcome.{ok};
ghost use Rattle.judging.specs.Judging.{step, header as header_of};
ghost use Rattle.typing.specs.Holding.{held, Room, Placed, Stepped};

use super::super::misfit::{Misfit, ensure};
use super::{Checker, MAX_PARTS};
use tokens::kind::Name;

impl Checker {
    pub(super) fn variable(&mut self, name: Name) -> Result<(), Misfit>
        requires { Room (held self.old) }
        ensures { Stepped (What.Variable name) (held self.old) self.new result }
    {
        let note = self.find(name).ok_or(Misfit::UnknownName)?;
        self.note_use(note);
        self.weigh(1);
        Ok(())
    }

    pub(super) fn bind(&mut self, name: Name)
        requires { Room (held self.old) }
        ensures { step (What.Bind name) 0 (held self.old) ≡ ok (held self.new) }
    {
        self.enter(name, self.top(0));
        self.mark();
        self.pop();
    }

    // Whether the type that is written in the header is small enough.
    fn header(&self) -> Result<(), Misfit>
        ensures { Placed (λ p. header_of p (held self.now)) self.now result }
    {
        ensure(self.operand(0).parts() <= MAX_PARTS, Misfit::TooLarge)
    }

    pub(super) fn parameter(&mut self, name: Name) -> Result<(), Misfit>
        requires { Room (held self.old) }
        ensures { Stepped (What.Parameter name) (held self.old) self.new result }
    {
        self.header()?;
        self.bind(name);
        Ok(())
    }

    pub(super) fn result(&mut self) -> Result<(), Misfit>
        requires { Room (held self.old) }
        ensures { Stepped What.Result (held self.old) self.new result }
    {
        self.header()?;
        self.mark();
        Ok(())
    }
}
