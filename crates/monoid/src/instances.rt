// The monoids of the language, and two that an arbiter's house may choose: the latest result and the union of bits.
ghost use Rattle.std.specs.Prelude.{false, ◌||◌};
ghost use Rattle.monoid.specs.Ints.{int_zero, int_one, int_least, int_sum, int_product, int_or, larger, later};
ghost use Rattle.monoid.specs.Affine.{affine_identity, affine_then};
ghost use Rattle.monoid.specs.IntsLemmas.{sum_laws, max_laws, int_laws, latest_laws, bit_or_laws};
ghost use Rattle.std.proofs.Common.{rules};
ghost use Rattle.monoid.specs.Semirings.{affine_laws};

use crate::Monoid;
use crate::int::Int;

// Sums that wrap.
pub struct Sum;

impl Monoid for Sum {
    type Element = Int;

    ghost unit = { int_zero };

    ghost op = { int_sum };

    ghost laws = { sum_laws };

    fn identity() -> Int {
        Int::zero()
    }

    fn combine(a: Int, b: Int) -> Int {
        a.wrapping_add(b)
    }
}

// The larger of two.
pub struct Max;

impl Monoid for Max {
    type Element = Int;

    ghost unit = { int_least };

    ghost op = { larger };

    ghost laws = { max_laws };

    fn identity() -> Int {
        Int::lowest()
    }

    fn combine(a: Int, b: Int) -> Int {
        a.max(b)
    }
}

pub struct Or;

impl Monoid for Or {
    type Element = bool;

    ghost unit = { false };

    ghost op = { ◌||◌ };

    ghost laws = { Prim.search rules };

    fn identity() -> bool {
        false
    }

    fn combine(a: bool, b: bool) -> bool {
        a | b
    }
}

// Affine maps: (a, b) takes x to a * x + b, and the left map is done first.
pub struct Affine;

impl Monoid for Affine {
    type Element = (Int, Int);

    ghost unit = { affine_identity int_zero int_one };

    ghost op = { affine_then int_sum int_product };

    ghost laws = { affine_laws int_laws };

    fn identity() -> (Int, Int) {
        (Int::one(), Int::zero())
    }

    fn combine(a: (Int, Int), b: (Int, Int)) -> (Int, Int) {
        (
            a.0.wrapping_mul(b.0),
            b.0.wrapping_mul(a.1).wrapping_add(b.1),
        )
    }
}

// The right operand unless it is 0.
pub struct Latest;

impl Monoid for Latest {
    type Element = Int;

    ghost unit = { int_zero };

    ghost op = { later };

    ghost laws = { latest_laws };

    fn identity() -> Int {
        Int::zero()
    }

    fn combine(a: Int, b: Int) -> Int {
        if b.is_zero() { a } else { b }
    }
}

pub struct BitOr;

impl Monoid for BitOr {
    type Element = Int;

    ghost unit = { int_zero };

    ghost op = { int_or };

    ghost laws = { bit_or_laws };

    fn identity() -> Int {
        Int::zero()
    }

    fn combine(a: Int, b: Int) -> Int {
        a | b
    }
}
