// Why a program is not loaded.
ghost use Rattle.std.specs.Prelude.{◌≡◌};
ghost use Rattle.program.specs.declared.fault.LoadFault.TheVariants.{Read, Check};
ghost use Rattle.program.specs.Faults.{of_load};

use reader::fault::ReadFault;
use refusal::Refusal;
use typing::fault::CheckFault;

// The text was refused by the reader, or what was read by the checker.
#[derive(Clone, Copy)]
pub enum LoadFault {
    Read(ReadFault),
    Check(CheckFault),
}

impl From<ReadFault> for LoadFault {
    ghost from_gives = { λ e r. r ≡ Read e };

    fn from(f: ReadFault) -> LoadFault {
        LoadFault::Read(f)
    }
}

impl From<CheckFault> for LoadFault {
    ghost from_gives = { λ e r. r ≡ Check e };

    fn from(f: CheckFault) -> LoadFault {
        LoadFault::Check(f)
    }
}

impl From<LoadFault> for Refusal {
    ghost from_gives = { λ f r. r ≡ of_load f };

    fn from(f: LoadFault) -> Refusal {
        match f {
            LoadFault::Read(f) => Refusal::from(f),
            LoadFault::Check(f) => Refusal::from(f),
        }
    }
}
