// One operation for each element, from the first to the last.
ghost use Rattle.std.specs.Prelude.{◌≡◌, ℕ, ◌%◌, ◌^◌, length};
ghost use Rattle.monoid.specs.Laws.{product};
ghost use Rattle.scan.specs.Scans.{Scanned};
ghost use Rattle.std.proofs.Common.{rules};

use crate::ScanEngine;
use monoid::Monoid;

#[derive(Drop)]
pub struct Sequential {
    kept: u64,
}

impl Sequential {
    pub fn new() -> Sequential
        ensures { result.kept ≡ 0 }
    {
        Sequential { kept: 0 }
    }
}

// Scans from the first element to the last; answers the product of all and the operations made.
fn left_to_right<M: Monoid>(xs: &mut [M::Element]) -> (M::Element, u64)
    ensures places { Scanned M.Monoid.unit M.Monoid.op xs.old xs.new }
    ensures total { result.0 ≡ product M.Monoid.unit M.Monoid.op xs.old }
    ensures made { result.1 ≡ length xs.old % 2 ^ 64 }
{
    let mut sum = M::identity();
    let mut made: u64 = 0;
    for x in xs.iter_mut() {
        let next = M::combine(sum, *x);
        made = made.wrapping_add(1);
        *x = sum;
        sum = next;
    }
    (sum, made)
}

impl ScanEngine for Sequential {
    ghost kept = { λ e. e.kept };

    ghost price = { λ n. n };

    ghost cheap = { Prim.search rules };

    fn count(&self) -> u64 {
        self.kept
    }

    fn scan<M: Monoid>(&mut self, xs: &mut [M::Element]) -> (M::Element, u64) {
        let (all, made) = left_to_right::<M>(xs);
        self.kept = self.kept.wrapping_add(made);
        (all, made)
    }
}
