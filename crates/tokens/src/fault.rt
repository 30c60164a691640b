// Why a text is not all tokens.
ghost use Rattle.std.specs.Prelude.{◌≡◌};
ghost use Rattle.tokens.specs.Faults.{of_token, stop_of};

use super::kind::Kind;
use refusal::Refusal;

// Each with the place of the first byte: of what begins no token, of a number too large, of a name too long.
#[derive(Clone, Copy)]
pub enum TokenFault {
    NoToken(usize),
    TooLarge(usize),
    TooLong(usize),
}

impl From<TokenFault> for Refusal {
    ghost from_gives = { λ f r. r ≡ of_token f };

    fn from(f: TokenFault) -> Refusal {
        match f {
            TokenFault::NoToken(place) | TokenFault::TooLarge(place) | TokenFault::TooLong(place) =>
                Refusal { number: 2, place },
        }
    }
}

// The kind that stands in the list of tokens for it.
impl From<TokenFault> for Kind {
    ghost from_gives = { λ f r. r ≡ stop_of f };

    fn from(f: TokenFault) -> Kind {
        match f {
            TokenFault::NoToken(_) => Kind::NoToken,
            TokenFault::TooLarge(_) => Kind::TooLarge,
            TokenFault::TooLong(_) => Kind::TooLong,
        }
    }
}
