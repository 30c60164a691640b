// Segments side by side, and the segmented lift of a monoid.
ghost use Rattle.std.specs.Prelude.{◌≡◌, false, length, sum};
ghost use Rattle.monoid.specs.Lifted.{lifted};
ghost use Rattle.std.proofs.Common.{rules};

use crate::Monoid;
use std::marker::PhantomData;

// The elements of all segments, and how many each has.
#[derive(Drop)]
pub struct Segments<'a, T> {
    pub elements: &'a [T],
    pub lengths: &'a [usize],
    ghost covered: { sum lengths.now ≡ length elements.now },
}

// A raised flag begins a segment, and what stood before it is left out.
pub struct Segmented<M> {
    monoid: PhantomData<M>,
}

impl<M: Monoid> Monoid for Segmented<M> {
    type Element = (bool, M::Element);

    ghost unit = { (false, M.Monoid.unit) };

    ghost op = { lifted M.Monoid.op };

    ghost laws = { Prim.search rules };

    fn identity() -> (bool, M::Element) {
        (false, M::identity())
    }

    fn combine(a: (bool, M::Element), b: (bool, M::Element)) -> (bool, M::Element) {
        (a.0 | b.0, if b.0 { b.1 } else { M::combine(a.1, b.1) })
    }
}
