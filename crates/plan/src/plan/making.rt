// A new plan, and what a plan has.
#![tactic(auto, unfolding(crate::specs::Holding::held))]

ghost use Rattle.std.specs.Prelude.{◌≡◌, [], IfOk};
ghost use Rattle.plan.specs.Filling.{empty};
ghost use Rattle.plan.specs.Holding.{held, entries_of, frees_of};

use super::super::table::{Entry, Free};
use super::{LIMIT, MAX_FREES, Plan};
use std::alloc::{AllocError, Global};

impl Plan {
    // The plan of nothing, with all the memory that it needs.
    pub fn new(heap: Global) -> Result<Plan, AllocError>
        ensures { IfOk result (λ p. (entries_of p ≡ []) × (frees_of p ≡ [])) }
    {
        let entries = Vec::with_capacity(heap, LIMIT)?;
        let frees = Vec::with_capacity(heap, MAX_FREES)?;
        let scope = Vec::with_capacity(heap, LIMIT)?;
        let forks = Vec::with_capacity(heap, LIMIT)?;
        let uses = Vec::with_capacity(heap, LIMIT)?;
        let flags = Vec::with_capacity(heap, LIMIT)?;
        Ok(Plan {
            entries,
            frees,
            scope,
            forks,
            uses,
            flags,
        })
    }

    // Its entries, in the order of evaluation.
    pub fn entries(&self) -> &[Entry]
        ensures { result.now ≡ entries_of self.now }
    {
        self.entries.as_slice()
    }

    // The free variables of all forks.
    pub fn frees(&self) -> &[Free]
        ensures { result.now ≡ frees_of self.now }
    {
        self.frees.as_slice()
    }

    // Forgets the program.
    pub(super) fn clear(&mut self)
        ensures { held self.new ≡ empty }
    {
        self.entries.clear();
        self.frees.clear();
        self.scope.clear();
        self.forks.clear();
        self.uses.clear();
    }
}
