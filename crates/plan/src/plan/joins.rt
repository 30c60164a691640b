// Joins: the free variables since the fork, and the jumps of its entries.
ghost use Rattle.std.specs.Prelude.{◌≡◌, ◌<◌, ◌≤◌, length};
ghost use Rattle.plan.specs.Filling.{collected, spanned, filtered, left, if_joined, each_joined};
ghost use Rattle.plan.specs.Holding.{held, Room};

use super::super::gathering::gather;
use super::super::table::{Mark, Span};
use super::Plan;
use typing::flags::{fill, replay};

impl Plan {
    // Adds the variables in scope that were used since, and says where they stand.
    #[tactic(auto, unfolding(crate::specs::Holding::held))]
    fn collect(&mut self, start: usize) -> Span
        requires scope { length (held self.old).scope < 1024 }
        requires frees { length (collected start (held self.old)).frees ≤ 2000 }
        ensures span { result ≡ spanned start (held self.old) }
        ensures holds { held self.new ≡ collected start (held self.old) }
    {
        let from = self.frees.len();
        let first = start.min(self.uses.len());
        fill(&mut self.flags, self.scope.len());
        replay(&mut self.flags, &self.uses[first..]);
        gather(&mut self.frees, &self.flags, &self.scope);
        let to = self.frees.len();
        Span { from, to }
    }

    pub(super) fn if_join(&mut self, boxed: bool, place: usize)
        requires room { Room (held self.old) }
        requires frees { length (if_joined boxed place (held self.old)).frees ≤ 2000 }
        ensures { held self.new ≡ if_joined boxed place (held self.old) }
    {
        let fork = self.close();
        let frees = self.collect(fork.start);
        let second = fork.behind();
        let join = self.next();
        self.put_before(fork.first, Mark::IfFork { second, frees }.at(place));
        self.put_before(second, Mark::IfElse { join }.at(place));
        self.add(Mark::IfJoin { boxed }.at(place));
    }

    // Where there is a filter, it jumps to the join.
    fn pass_filter(&mut self, second: Option<usize>, join: usize, place: usize)
        ensures holds { held self.new ≡ filtered second join place (held self.old) }
        ensures entries { length (held self.new).entries ≡ length (held self.old).entries }
    {
        if let Some(behind) = second {
            self.put_before(behind, Mark::EachFilter { join }.at(place));
        }
    }

    // The variable of a comprehension is left, and then come the free variables.
    pub(super) fn each_join(&mut self, boxed: bool, place: usize)
        requires room { Room (held self.old) }
        requires frees { length (each_joined boxed place (left (held self.old))).frees ≤ 2000 }
        ensures { held self.new ≡ each_joined boxed place (left (held self.old)) }
    {
        self.leave();
        let fork = self.close();
        let frees = self.collect(fork.start);
        let join = self.next();
        let first = fork.first;
        self.put_before(first, Mark::EachFork { join, frees }.at(place));
        self.pass_filter(fork.second, join, place);
        self.add(Mark::EachJoin { first, boxed }.at(place));
    }
}
