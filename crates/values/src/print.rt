// Values as texts in a lent output. Each `write_` fills just the slice that it is given.
ghost use Rattle.std.specs.Prelude.{◌≡◌, ℕ, ◌+◌, ◌^◌, ◌<◌, ◌≤◌, [], ◌∷◌, ◌++◌, length, take, decimal, MatchResult};
ghost use Rattle.values.specs.Texts.{int_text, list_text};
ghost use Rattle.values.specs.Printing.{Printed, Short, of_print};
ghost use Rattle.values.specs.Signs.{byte_of};

use crate::sign::Sign;
use itoa::write_digits;
use monoid::int::Int;
use refusal::Refusal;

// How many digits a number has.
fn digit_count(number: u32) -> usize
    ensures count { result ≡ length (decimal number) }
    ensures few { result ≤ 10 }
{
    number.checked_ilog10().unwrap_or(0) as usize + 1
}

// The length of the text of an int.
pub fn int_length(x: Int) -> usize
    ensures length { result ≡ length (int_text x) }
    ensures few { result ≤ 11 }
{
    let digits = digit_count(x.value.unsigned_abs());
    if x.value < 0 { digits + 1 } else { digits }
}

// Writes the text of an int.
pub fn write_int(x: Int, out: &mut [u8])
    requires { length out.old ≡ length (int_text x) }
    ensures { out.new ≡ int_text x }
{
    let end = out.len();
    write_digits(u64::from(x.value.unsigned_abs()), out, end);
    if x.value < 0 {
        out[0] = b'-';
    }
}

// Writes an element of a list and the sign behind it from a place on, and answers the place behind them.
fn write_element(x: Int, sign: Sign, out: &mut [u8], at: usize) -> usize
    requires { at + length (int_text x) + 1 ≤ length out.old }
    ensures end { result ≡ at + length (int_text x) + 1 }
    ensures text { take result out.new ≡ take at out.old ++ (int_text x ++ (byte_of sign ∷ [])) }
{
    let end = at + int_length(x);
    write_int(x, &mut out[at..end]);
    out[end] = sign.byte();
    end + 1
}

// Writes a list of ints.
fn write_ints(xs: &[Int], out: &mut [u8])
    requires { length out.old ≡ length (list_text int_text xs.now) }
    ensures { out.new ≡ list_text int_text xs.now }
{
    let Some((last, others)) = xs.split_last() else {
        out.copy_from_slice(b"[]");
        return;
    };
    out[0] = b'[';
    let mut at = 1;
    for x in others {
        at = write_element(*x, Sign::Comma, out, at);
    }
    write_element(*last, Sign::Bracket, out, at);
}

// The length of the text of a list of ints.
fn ints_length(xs: &[Int]) -> usize
    requires { length xs.now < 2 ^ 60 }
    ensures { result ≡ length (list_text int_text xs.now) }
{
    if xs.is_empty() {
        return 2;
    }
    1 + xs.iter().map(|x| int_length(*x) + 1).sum::<usize>()
}

// The output is too short for the text, which has this length.
#[derive(Clone, Copy)]
pub struct TooShort {
    pub needed: usize,
}

impl From<TooShort> for Refusal {
    ghost from_gives = { λ f r. r ≡ of_print f };

    fn from(f: TooShort) -> Refusal {
        Refusal {
            number: 21,
            place: f.needed,
        }
    }
}

// Prints a list of ints into the beginning of the output and answers the length of its text; further bytes stay as they are.
pub fn print_ints(xs: &[Int], out: &mut [u8]) -> Result<usize, TooShort>
    requires { length xs.now < 2 ^ 60 }
    ensures { MatchResult result (λ n. Printed (list_text int_text xs.now) n out.old out.new) (λ f. Short (list_text int_text xs.now) f.needed out.old out.new) }
{
    let needed = ints_length(xs);
    if out.len() < needed {
        return Err(TooShort { needed });
    }
    write_ints(xs, &mut out[..needed]);
    Ok(needed)
}
