// Monoids: a type of elements with an identity and an associative operation.
#![tactic(auto)]

ghost use Rattle.std.specs.Prelude.{◌≡◌};
ghost use Rattle.monoid.specs.Laws.{Laws};

pub mod arithmetic;
pub mod instances;
pub mod int;
pub mod segmented;

// A type that implements it only names the monoid, and holds nothing. `unit` is the product of no element, `op` that of two.
pub trait Monoid {
    type Element: Copy;

    ghost unit: { Self.Element };

    ghost op: { Self.Element → Self.Element → Self.Element };

    fn identity() -> Self::Element
        ensures { result ≡ unit };

    fn combine(a: Self::Element, b: Self::Element) -> Self::Element
        ensures { result ≡ op a b };

    // The identity on both sides, and associativity: each `impl` has to prove them.
    ghost laws: { Laws unit op };
}
