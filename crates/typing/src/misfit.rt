// Why an occurrence is refused, wherever it stands.
ghost use Rattle.std.specs.Prelude.{◌≡◌, true, false, MatchResult};
ghost use Rattle.typing.specs.Faults.{of_check, misfit_at};

use super::fault::CheckFault;

// Nothing binds its name, its operands do not fit, or a type or a list is too large.
#[derive(Clone, Copy)]
pub enum Misfit {
    UnknownName,
    Unfit,
    TooLarge,
}

impl Misfit {
    // The refusal of the occurrence at this place.
    pub fn at(self, place: usize) -> CheckFault
        ensures { of_check result ≡ misfit_at place self }
    {
        match self {
            Misfit::UnknownName => CheckFault::UnknownName(place),
            Misfit::Unfit => CheckFault::Unfit(place),
            Misfit::TooLarge => CheckFault::TooLarge(place),
        }
    }
}

pub fn ensure(holds: bool, misfit: Misfit) -> Result<(), Misfit>
    ensures { MatchResult result (λ _. holds ≡ true) (λ m. (holds ≡ false) × (m ≡ misfit)) }
{
    if holds { Ok(()) } else { Err(misfit) }
}
