// The arithmetic of ints that the monoids are made of: sums and products wrap.
ghost use Rattle.std.specs.Prelude.{◌≡◌};
ghost use Rattle.monoid.specs.Ints.{int_zero, int_one, int_least, int_sum, int_product, int_or, is_zero, flag};

use crate::int::Int;
use std::ops::BitOr;

impl Int {
    pub fn zero() -> Int
        ensures { result ≡ int_zero }
    {
        Int::new(0)
    }

    pub fn one() -> Int
        ensures { result ≡ int_one }
    {
        Int::new(1)
    }

    pub fn lowest() -> Int
        ensures { result ≡ int_least }
    {
        Int::new(Int::LOWEST)
    }

    pub fn wrapping_add(self, other: Int) -> Int
        ensures { result ≡ int_sum self other }
    {
        Int::new(self.value.wrapping_add(other.value))
    }

    pub fn wrapping_mul(self, other: Int) -> Int
        ensures { result ≡ int_product self other }
    {
        Int::new(self.value.wrapping_mul(other.value))
    }

    pub fn is_zero(self) -> bool
        ensures { result ≡ is_zero self }
    {
        self.value == 0
    }
}

impl BitOr for Int {
    type Output = Int;

    ghost bitor_gives = { λ a b x. x ≡ int_or a b };

    fn bitor(self, other: Int) -> Int {
        Int::new(self.value | other.value)
    }
}

// 1 for true, 0 for false.
impl From<bool> for Int {
    ghost from_gives = { λ b x. x ≡ flag b };

    fn from(b: bool) -> Int {
        if b { Int::one() } else { Int::zero() }
    }
}
