// A new checker.
ghost use Rattle.std.specs.Prelude.{◌≡◌, IfOk};
ghost use Rattle.judging.specs.Judging.{begin};
ghost use Rattle.typing.specs.Holding.{held};

use super::{Checker, LIMIT};
use std::alloc::{AllocError, Global};
use types::table::TypeTable;

impl Checker {
    // A checker that has judged nothing, with all the memory that it needs.
    pub fn new(heap: Global) -> Result<Checker, AllocError>
        ensures { IfOk result (λ c. held c ≡ begin) }
    {
        let types = TypeTable::new(heap)?;
        let scope = Vec::with_capacity(heap, LIMIT)?;
        let stack = Vec::with_capacity(heap, LIMIT)?;
        let forks = Vec::with_capacity(heap, LIMIT)?;
        let uses = Vec::with_capacity(heap, LIMIT)?;
        let flags = Vec::with_capacity(heap, LIMIT)?;
        let notes = Vec::with_capacity(heap, LIMIT)?;
        Ok(Checker {
            types,
            scope,
            stack,
            forks,
            uses,
            flags,
            notes,
            weight: 0,
        })
    }
}
