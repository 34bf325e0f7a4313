// Why a machine could not be opened.
ghost use Rattle.std.specs.Prelude.{◌≡◌};
ghost use Rattle.machine.specs.declared.trouble.Trouble.TheVariants.{Memory, Refused};

use requests::answer::Refusal;
use std::alloc::AllocError;

#[derive(Clone, Copy)]
pub enum Trouble {
    // the sizes are refused
    Refused(Refusal),
    // there is no memory for a machine of these sizes
    Memory,
}

impl From<AllocError> for Trouble {
    ghost from_gives = { λ _ r. r ≡ Memory };

    fn from(_e: AllocError) -> Trouble {
        Trouble::Memory
    }
}

impl From<Refusal> for Trouble {
    ghost from_gives = { λ e r. r ≡ Refused e };

    fn from(e: Refusal) -> Trouble {
        Trouble::Refused(e)
    }
}
