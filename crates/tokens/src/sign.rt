// The signs.
ghost use Rattle.std.specs.Prelude.{◌≡◌, None, Some, MatchOption, slice_index};
ghost use Rattle.tokens.specs.Signs.{sign_of, sign_length};

use super::kind::Kind;

// The sign that a text begins with, and how many bytes it has.
pub fn sign(text: &[u8]) -> Option<(Kind, usize)>
    ensures { MatchOption result (sign_of (slice_index text.now 0) (slice_index text.now 1) ≡ None) (λ s. (sign_of (slice_index text.now 0) (slice_index text.now 1) ≡ Some s.0) × (s.1 ≡ sign_length s.0)) }
{
    if text.starts_with(b"==") {
        return Some((Kind::Same, 2));
    }
    let kind = match *text.first()? as char {
        '(' => Kind::Open,
        ')' => Kind::Close,
        '[' => Kind::SquareOpen,
        ']' => Kind::SquareClose,
        '{' => Kind::CurlyOpen,
        '}' => Kind::CurlyClose,
        ',' => Kind::Comma,
        ':' => Kind::Colon,
        '|' => Kind::Bar,
        '=' => Kind::Equal,
        '<' => Kind::Less,
        '+' => Kind::Plus,
        '-' => Kind::Minus,
        '*' => Kind::Times,
        '/' => Kind::Divide,
        '%' => Kind::Remainder,
        _ => return None,
    };
    Some((kind, 1))
}
