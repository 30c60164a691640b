// Ints and bools: each has a text of its own, and takes one cell.
ghost use Rattle.std.specs.Prelude.{◌≡◌, ℕ, List, [], ◌≢◌};
ghost use Rattle.monoid.specs.declared.int.Int.{Int};
ghost use Rattle.values.specs.Fronts.{ReadsValue};

use crate::bool_text::read_bool;
use monoid::int::Int;
use values::front::{Front, Stopped};
use values::int_text::read_int;

pub trait Scalar: Copy {
    ghost text_of: { Self → List ℕ };

    ghost cell_of: { Self → Int };

    // The value whose text is at the beginning of `text`.
    fn read(text: &[u8]) -> Result<Front<Self>, Stopped>
        ensures { ReadsValue text_of text.now result };

    fn cell(self) -> Int
        ensures { result ≡ cell_of self };

    ghost some: { (x : Self) → text_of x ≢ [] };
}

impl Scalar for Int {
    ghost use Rattle.values.specs.Texts.{int_text};
    ghost use Rattle.texts.specs.ScalarLemmas.{int_some};

    ghost text_of = { int_text };

    ghost cell_of = { λ x. x };

    fn read(text: &[u8]) -> Result<Front<Int>, Stopped> {
        read_int(text)
    }

    fn cell(self) -> Int {
        self
    }

    ghost some = { int_some };
}

impl Scalar for bool {
    ghost use Rattle.monoid.specs.Ints.{flag};
    ghost use Rattle.texts.specs.Texts.{bool_text};
    ghost use Rattle.texts.specs.ScalarLemmas.{bool_some};

    ghost text_of = { bool_text };

    ghost cell_of = { flag };

    fn read(text: &[u8]) -> Result<Front<bool>, Stopped> {
        read_bool(text)
    }

    fn cell(self) -> Int {
        Int::from(self)
    }

    ghost some = { bool_some };
}
