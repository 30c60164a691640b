// Scan engines over any monoid, and segmented scans and reductions over any engine.
#![tactic(auto)]

ghost use Rattle.std.specs.Prelude.{◌≡◌, ℕ, ◌+◌, ◌*◌, ◌%◌, ◌^◌, ◌≤◌, length};
ghost use Rattle.monoid.specs.Laws.{product};
ghost use Rattle.scan.specs.Scans.{Scanned};

pub mod segments;
pub mod sequential;

use monoid::Monoid;

pub trait ScanEngine {
    // The operations made so far, modulo 2^64.
    ghost kept: { Self → ℕ };

    // The operations that a scan of n elements takes.
    ghost price: { ℕ → ℕ };

    fn count(&self) -> u64
        ensures { result ≡ kept self.now };

    // Leaves at each place the product, in order, of the elements before it. It answers the product of all and the
    // operations made, counted by one beside each call of `combine`.
    fn scan<M: Monoid>(&mut self, xs: &mut [M::Element]) -> (M::Element, u64)
        ensures places { Scanned M.Monoid.unit M.Monoid.op xs.old xs.new }
        ensures total { result.0 ≡ product M.Monoid.unit M.Monoid.op xs.old }
        ensures made { result.1 ≡ price (length xs.old) % 2 ^ 64 }
        ensures rises { kept self.new ≡ (kept self.old + price (length xs.old)) % 2 ^ 64 };

    ghost cheap: { (n : ℕ) → price n ≤ 4 * n };
}
