// The text of an int: decimal digits with no leading zero, after a minus sign if it is negative.
ghost use Rattle.std.specs.Prelude.{◌≡◌, ℕ, ◌^◌, ◌<◌, ◌≤◌, ◌∷◌, MatchOption, ◌≢◌, slice_index};
ghost use Rattle.values.specs.Texts.{int_text};
ghost use Rattle.values.specs.Fronts.{ReadsValue};
ghost use Rattle.values.specs.Magnitudes.{ReadsMagnitude, OneDigitMore, NoDigitMore};

use crate::front::{Front, Stopped};
use monoid::int::Int;

// The number with one digit more, if there is one, if it follows no leading zero, and up to the limit.
fn next_digit(text: &[u8], number: Front<u64>, limit: u64) -> Option<u64>
    requires { (limit < 2 ^ 32) × (number.value ≤ limit) }
    ensures { MatchOption result (NoDigitMore limit text.now number.value number.length) (λ next. OneDigitMore limit text.now number.value number.length next) }
{
    let digit = char::from(*text.get(number.length)?).to_digit(10)?;
    if number.length > 0 && number.value == 0 {
        return None;
    }
    let next = 10 * number.value + u64::from(digit);
    (next <= limit).then_some(next)
}

// The longest text of a number up to the limit: 0 and no length where there is none.
fn read_magnitude(text: &[u8], limit: u64) -> Front<u64>
    requires { limit < 2 ^ 32 }
    ensures { ReadsMagnitude limit text.now result.value result.length }
{
    let mut number = Front {
        value: 0,
        length: 0,
    };
    while let Some(value) = next_digit(text, number, limit) {
        number = Front {
            value,
            length: number.length + 1,
        };
    }
    number
}

// An int with no minus sign.
fn read_natural(text: &[u8]) -> Result<Front<Int>, Stopped>
    requires { slice_index text.now 0 ≢ 45 }
    ensures { ReadsValue int_text text.now result }
{
    let number = read_magnitude(text, Int::MAGNITUDE - 1);
    if number.length == 0 {
        return Err(Stopped { length: 0 });
    }
    Ok(Front {
        value: Int::new(number.value as i32),
        length: number.length,
    })
}

// An int, from the digits after its minus sign.
fn read_negative(digits: &[u8]) -> Result<Front<Int>, Stopped>
    ensures { ReadsValue int_text (45 ∷ digits.now) result }
{
    let number = read_magnitude(digits, Int::MAGNITUDE);
    if number.value == 0 {
        return Err(Stopped { length: 1 });
    }
    Ok(Front {
        value: Int::new((-(number.value as i64)) as i32),
        length: number.length + 1,
    })
}

// The int whose text is the longest beginning of `text` that begins the text of one.
pub fn read_int(text: &[u8]) -> Result<Front<Int>, Stopped>
    ensures { ReadsValue int_text text.now result }
{
    match text {
        [b'-', digits @ ..] => read_negative(digits),
        _ => read_natural(text),
    }
}
