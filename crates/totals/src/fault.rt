// Where refusals of the layers below become refusals of `totals`.
ghost use Rattle.std.specs.Prelude.{◌≡◌};
ghost use Rattle.totals.specs.declared.report.TotalsFault.TheVariants.{Memory, TooShort};
ghost use Rattle.totals.specs.Totals.{of_read, refusal_of};

use crate::report::TotalsFault;
use refusal::Refusal;
use std::alloc::AllocError;
use values::fault::ReadFault;
use values::print::TooShort;

impl From<ReadFault> for TotalsFault {
    ghost from_gives = { λ f r. r ≡ of_read f };

    fn from(f: ReadFault) -> TotalsFault {
        match f {
            ReadFault::NoValue(place) => TotalsFault::NoValue(place),
            ReadFault::Memory => TotalsFault::Memory,
        }
    }
}

impl From<TooShort> for TotalsFault {
    ghost from_gives = { λ f r. r ≡ TooShort f.needed };

    fn from(f: TooShort) -> TotalsFault {
        TotalsFault::TooShort(f.needed)
    }
}

impl From<AllocError> for TotalsFault {
    ghost from_gives = { λ _ r. r ≡ Memory };

    fn from(_e: AllocError) -> TotalsFault {
        TotalsFault::Memory
    }
}

impl TotalsFault {
    // Its number and place; want of memory has none.
    pub fn refusal(self) -> Option<Refusal>
        ensures { result ≡ refusal_of self }
    {
        match self {
            TotalsFault::NoValue(place) => Some(Refusal { number: 11, place }),
            TotalsFault::TooShort(place) => Some(Refusal { number: 21, place }),
            TotalsFault::Memory => None,
        }
    }
}
