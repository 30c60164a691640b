// Occurrences that push a type, or note the one that stands uppermost.
ghost use Rattle.std.specs.Prelude.{◌≡◌};
ghost use Rattle.lang.specs.Outcome.{ok};
ghost use Rattle.grammar.specs.declared.occurrence.What.{What};
ghost use Rattle.judging.specs.Judging.{leaf as leaf_of, step};
ghost use Rattle.typing.specs.Holding.{held, type_in, Room};

use super::super::parts::Note;
use super::Checker;

impl Checker {
    // A number or a truth value.
    pub(super) fn leaf(&mut self, code: usize)
        requires { Room (held self.old) }
        ensures { leaf_of (type_in self.old code) (held self.old) ≡ ok (held self.new) }
    {
        self.show(Note { code, index: 0 });
        self.weigh(1);
    }

    pub(super) fn group(&mut self)
        requires { Room (held self.old) }
        ensures { step What.Group 0 (held self.old) ≡ ok (held self.new) }
    {
        self.mark();
        self.weigh(1);
    }

    pub(super) fn let_end(&mut self)
        requires { Room (held self.old) }
        ensures { step What.LetEnd 0 (held self.old) ≡ ok (held self.new) }
    {
        self.mark();
        self.weigh(1);
        self.leave();
    }

    pub(super) fn each_filter(&mut self)
        requires { Room (held self.old) }
        ensures { step What.EachFilter 0 (held self.old) ≡ ok (held self.new) }
    {
        self.mark();
        self.filter();
    }
}
