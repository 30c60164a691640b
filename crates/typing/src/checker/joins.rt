// Forks, and joins.
ghost use Rattle.std.specs.Prelude.{◌≡◌, MatchResult, ℕ};
ghost use Rattle.grammar.specs.declared.occurrence.What.{What};
ghost use Rattle.lang.specs.Outcome.{ok, refused};
ghost use Rattle.judging.specs.Judging.{fork, popped};
ghost use Rattle.typing.specs.Faults.{misfit_at};
ghost use Rattle.typing.specs.Holding.{held, Room, Stepped, filter_of};

use super::super::given::Given;
use super::super::misfit::{Misfit, ensure};
use super::{Checker, MAX_PARTS};
use tokens::kind::Name;
use types::node::TypeNode;

impl Checker {
    pub(super) fn if_fork(&mut self) -> Result<(), Misfit>
        requires { Room (held self.old) }
        ensures { Stepped What.IfFork (held self.old) self.new result }
    {
        self.expect(self.top(0), TypeNode::Bool)?;
        self.mark();
        self.pop();
        self.open();
        self.weigh(1);
        Ok(())
    }

    pub(super) fn each_fork(&mut self, name: Name) -> Result<(), Misfit>
        requires { Room (held self.old) }
        ensures { Stepped (What.EachFork name) (held self.old) self.new result }
    {
        let list = self.top(0);
        let element = self.element(list)?;
        let size = self.operand(0).parts();
        self.open();
        self.enter(name, element);
        self.mark();
        self.pop();
        self.weigh(1 + size);
        Ok(())
    }

    pub(super) fn if_join(&mut self) -> Result<(), Misfit>
        requires { Room (held self.old) }
        ensures { Stepped What.IfJoin (held self.old) self.new result }
    {
        let used = self.parts_used(0);
        let a = self.top(1);
        let b = self.top(0);
        ensure(self.types.same(b, a), Misfit::Unfit)?;
        let size = self.operand(1).parts();
        self.pop();
        self.close();
        self.mark();
        self.weigh(used + (1 + size));
        Ok(())
    }

    // How many stand above what was there at the fork of a comprehension: its body, and a bool if it has a filter.
    fn body_and_filter(&self) -> Result<usize, Misfit>
        ensures { MatchResult result (λ k. (p : ℕ) → filter_of p (fork (held self.now)).filtered (popped 1 (held self.now)) ≡ ok (popped k (held self.now))) (λ m. (p : ℕ) → filter_of p (fork (held self.now)).filtered (popped 1 (held self.now)) ≡ refused (misfit_at p m)) }
    {
        if self.last_fork().filtered {
            self.expect(self.top(1), TypeNode::Bool)?;
            Ok(2)
        } else {
            Ok(1)
        }
    }

    pub(super) fn each_join(&mut self) -> Result<(), Misfit>
        requires { Room (held self.old) }
        ensures { Stepped What.EachJoin (held self.old) self.new result }
    {
        let used = self.parts_used(1);
        let count = self.body_and_filter()?;
        let list = TypeNode::List(self.top(0));
        ensure(self.types.count(list) <= MAX_PARTS, Misfit::TooLarge)?;
        self.node(count, used, Given::Node(list));
        self.leave();
        self.close();
        Ok(())
    }
}
