// What forks weigh.
ghost use Rattle.std.specs.Prelude.{◌≡◌, ◌*◌, ◌<◌, ◌≤◌, map, reverse, length, drop};
ghost use Rattle.types.specs.Table.{types_in};
ghost use Rattle.judging.specs.Judging.{parts_used, fork};
ghost use Rattle.typing.specs.Codes.{binding_of};
ghost use Rattle.typing.specs.Holding.{held};

use super::super::flags::{fill, replay};
use super::super::parts::{Binding, Fork};
use super::Checker;
use types::table::TypeTable;

// The parts of the variables that were used, but for the innermost ones that are to be skipped.
fn parts_flagged(types: &TypeTable, scope: &[Binding], skip: usize, flags: &[bool]) -> usize
    requires { length flags.now < 1025 }
    ensures is { result ≡ parts_used (drop skip (map (binding_of (types_in types.now)) (reverse scope.now))) flags.now }
    ensures small { result ≤ 1000000 * length flags.now }
{
    let outer = &scope[..scope.len().saturating_sub(skip)];
    outer
        .iter()
        .rev()
        .zip(flags)
        .filter(|(_, used)| **used)
        .map(|(binding, _)| types.parts(binding.code))
        .sum()
}

impl Checker {
    // The parts of the variables that were used since the innermost fork.
    pub(super) fn parts_used(&mut self, skip: usize) -> usize
        ensures is { result ≡ parts_used (drop skip (held self.old).scope) (fork (held self.old)).used }
        ensures small { result ≤ 1025000000 }
        ensures holds { held self.new ≡ held self.old }
    {
        let Fork { depth, start, .. } = self.last_fork();
        fill(&mut self.flags, depth);
        replay(&mut self.flags, &self.uses.as_slice()[start..]);
        parts_flagged(
            &self.types,
            self.scope.as_slice(),
            skip,
            self.flags.as_slice(),
        )
    }
}
