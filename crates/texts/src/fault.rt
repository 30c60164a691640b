// Why a text is not read.
ghost use Rattle.std.specs.Prelude.{◌≡◌};
ghost use Rattle.texts.specs.Outcome.{of_read};
ghost use Rattle.texts.specs.declared.fault.ReadFault.TheVariants.{NoValue};

use refusal::Refusal;
use values::front::Stopped;

#[derive(Clone, Copy)]
pub enum ReadFault {
    // The text is no value of the type: the length of its longest beginning that also begins the text of one.
    NoValue(usize),
    // The text is that of a value, which has more cells than there is room for.
    TooLarge,
}

impl From<Stopped> for ReadFault {
    ghost from_gives = { λ stop r. r ≡ NoValue stop.length };

    fn from(stop: Stopped) -> ReadFault {
        ReadFault::NoValue(stop.length)
    }
}

impl From<ReadFault> for Refusal {
    ghost from_gives = { λ f r. r ≡ of_read f };

    fn from(f: ReadFault) -> Refusal {
        match f {
            ReadFault::NoValue(place) => Refusal { number: 11, place },
            ReadFault::TooLarge => Refusal {
                number: 12,
                place: 0,
            },
        }
    }
}
