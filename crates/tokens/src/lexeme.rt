// The longest token at a place.
ghost use Rattle.std.specs.Prelude.{◌≡◌, ◌<◌, true, false, length, slice_index};
ghost use Rattle.std.specs.Char.{is_ascii_digit, is_ascii_lowercase};
ghost use Rattle.tokens.specs.Lexemes.{Read};

use super::byte::{Class, run_end};
use super::fault::TokenFault;
use super::kind::{Kind, Token};
use super::number::number;
use super::sign::sign;
use super::word::{find_name, find_word};

// From a letter: a word or a name.
fn letters(text: &[u8], i: usize) -> Result<Token, TokenFault>
    requires { (i < length text.now) × (is_ascii_lowercase (slice_index text.now i) ≡ true) }
    ensures { Read text.now i result }
{
    let end = run_end(text, i, Class::InName);
    let bytes = &text[i..end];
    let Some(name) = find_name(bytes) else {
        return Err(TokenFault::TooLong(i));
    };
    let kind = find_word(bytes).unwrap_or(Kind::Name(name));
    Ok(Token { kind, at: i, end })
}

// From a digit: a number.
fn digits(text: &[u8], i: usize) -> Result<Token, TokenFault>
    requires { (i < length text.now) × (is_ascii_digit (slice_index text.now i) ≡ true) }
    ensures { Read text.now i result }
{
    let end = run_end(text, i, Class::Digit);
    match number(&text[i..end]) {
        Some(n) => Ok(Token {
            kind: Kind::Number(n),
            at: i,
            end,
        }),
        None => Err(TokenFault::TooLarge(i)),
    }
}

// From any other byte: a sign.
fn other(text: &[u8], i: usize) -> Result<Token, TokenFault>
    requires place { i < length text.now }
    requires class { (is_ascii_lowercase (slice_index text.now i) ≡ false) × (is_ascii_digit (slice_index text.now i) ≡ false) }
    ensures { Read text.now i result }
{
    match sign(&text[i..]) {
        Some((kind, len)) => Ok(Token {
            kind,
            at: i,
            end: i + len,
        }),
        None => Err(TokenFault::NoToken(i)),
    }
}

pub fn lexeme(text: &[u8], i: usize) -> Result<Token, TokenFault>
    requires { i < length text.now }
    ensures { Read text.now i result }
{
    let b = text[i];
    if b.is_ascii_lowercase() {
        letters(text, i)
    } else if b.is_ascii_digit() {
        digits(text, i)
    } else {
        other(text, i)
    }
}
