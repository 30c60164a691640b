// Why a program is refused.
ghost use Rattle.std.specs.Prelude.{◌≡◌};
ghost use Rattle.typing.specs.Faults.{of_check};

use refusal::Refusal;

// Each with the place of the occurrence: a name that nothing binds, operands that do not fit, a type or a list that is
// too large. The other two are of the program as a whole.
#[derive(Clone, Copy)]
pub enum CheckFault {
    UnknownName(usize),
    Unfit(usize),
    TooLarge(usize),
    WrongResult,
    TooHeavy,
}

impl From<CheckFault> for Refusal {
    ghost from_gives = { λ f r. r ≡ of_check f };

    fn from(f: CheckFault) -> Refusal {
        match f {
            CheckFault::UnknownName(place) => Refusal { number: 5, place },
            CheckFault::Unfit(place) => Refusal { number: 6, place },
            CheckFault::TooLarge(place) => Refusal { number: 7, place },
            CheckFault::WrongResult => Refusal {
                number: 8,
                place: 0,
            },
            CheckFault::TooHeavy => Refusal {
                number: 9,
                place: 0,
            },
        }
    }
}
