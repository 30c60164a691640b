// Why a text is refused, a type for each layer.
ghost use Rattle.std.specs.Prelude.{◌≡◌};
ghost use Rattle.reader.specs.declared.fault.ParseFault.TheVariants.{Token};
ghost use Rattle.reader.specs.declared.fault.ReadFault.TheVariants.{Parse};
ghost use Rattle.reader.specs.Faults.{of_parse, of_read};

use refusal::Refusal;
use tokens::fault::TokenFault;

// What stands in place of a token, the token past the last that may be, or a token or an end that the grammar forbids there.
#[derive(Clone, Copy)]
pub enum ParseFault {
    Token(TokenFault),
    OverLimit(usize),
    Forbidden(usize),
}

impl From<TokenFault> for ParseFault {
    ghost from_gives = { λ e r. r ≡ Token e };

    fn from(f: TokenFault) -> ParseFault {
        ParseFault::Token(f)
    }
}

impl From<ParseFault> for Refusal {
    ghost from_gives = { λ f r. r ≡ of_parse f };

    fn from(f: ParseFault) -> Refusal {
        match f {
            ParseFault::Token(f) => Refusal::from(f),
            ParseFault::OverLimit(place) => Refusal { number: 4, place },
            ParseFault::Forbidden(place) => Refusal { number: 3, place },
        }
    }
}

// A text that is too long is not looked at.
#[derive(Clone, Copy)]
pub enum ReadFault {
    TooLong,
    Parse(ParseFault),
}

impl From<ParseFault> for ReadFault {
    ghost from_gives = { λ e r. r ≡ Parse e };

    fn from(f: ParseFault) -> ReadFault {
        ReadFault::Parse(f)
    }
}

impl From<ReadFault> for Refusal {
    ghost from_gives = { λ f r. r ≡ of_read f };

    fn from(f: ReadFault) -> Refusal {
        match f {
            ReadFault::TooLong => Refusal {
                number: 1,
                place: 4096,
            },
            ReadFault::Parse(f) => Refusal::from(f),
        }
    }
}
