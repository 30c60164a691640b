// The open forks.
#![tactic(auto, unfolding(crate::specs::Holding::held))]

ghost use Rattle.std.specs.Prelude.{◌≡◌, ◌<◌, length};
ghost use Rattle.plan.specs.Filling.{fork, opened, halved, closed};
ghost use Rattle.plan.specs.Holding.{held};

use super::super::fork::Fork;
use super::Plan;

impl Plan {
    // The next entry is the first behind a fork.
    pub(super) fn open(&mut self)
        requires { length (held self.old).forks < 1024 }
        ensures { held self.new ≡ opened (held self.old) }
    {
        let first = self.entries.len();
        let start = self.uses.len();
        self.forks.push_reserved(Fork {
            first,
            second: None,
            start,
        });
    }

    // The innermost fork, or one of nothing, is no longer open.
    pub(super) fn close(&mut self) -> Fork
        ensures fork { result ≡ fork (held self.old) }
        ensures holds { held self.new ≡ closed (held self.old) }
    {
        self.forks.pop().unwrap_or_default()
    }

    // The next entry is the first of the second branch, or the first behind a filter.
    pub(super) fn halve(&mut self)
        requires { length (held self.old).forks < 1024 }
        ensures { held self.new ≡ halved (held self.old) }
    {
        let fork = self.close();
        let second = Some(self.entries.len());
        self.forks.push_reserved(Fork { second, ..fork });
    }
}
