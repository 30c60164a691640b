// What the infix signs do to ints: with the sums and products of `Int`, all that both kinds of run compute on ints.
ghost use Rattle.std.specs.Prelude.{◌≡◌, not};
ghost use Rattle.grammar.specs.declared.occurrence.Infix.TheVariants.{Divide, Remainder};
ghost use Rattle.monoid.specs.Ints.{is_zero};
ghost use Rattle.rules.specs.Arithmetic.{int_difference, int_same, int_less, infix_of, told};
ghost use Rattle.rules.specs.Lists.{given};

use monoid::int::Int;

pub fn difference(a: Int, b: Int) -> Int
    ensures { result ≡ int_difference a b }
{
    Int::new(a.value.wrapping_sub(b.value))
}

// Rounded towards zero; there is none by 0. The lowest int divided by -1 wraps to itself.
pub fn quotient(a: Int, b: Int) -> Option<Int>
    ensures { result ≡ told (infix_of Divide a b) }
{
    let by = divisor(b)?;
    Some(Int::new(a.value.wrapping_div(by.value)))
}

// With the dividend's sign; there is none by 0.
pub fn remainder(a: Int, b: Int) -> Option<Int>
    ensures { result ≡ told (infix_of Remainder a b) }
{
    let by = divisor(b)?;
    Some(Int::new(a.value.wrapping_rem(by.value)))
}

pub fn same(a: Int, b: Int) -> bool
    ensures { result ≡ int_same a b }
{
    a == b
}

pub fn less(a: Int, b: Int) -> bool
    ensures { result ≡ int_less a b }
{
    a < b
}

// What one may divide by: anything but 0.
fn divisor(b: Int) -> Option<Int>
    ensures { result ≡ told (given (not (is_zero b)) b) }
{
    (!b.is_zero()).then_some(b)
}
