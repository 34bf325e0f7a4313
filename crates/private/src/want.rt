// Why a call could not be answered at all. The machine is then as it was.
ghost use Rattle.std.specs.Prelude.{◌≡◌};
ghost use Rattle.private.specs.declared.want.Want.TheVariants.{Memory};

use std::alloc::{AllocError, AllocFailed};

#[derive(Clone, Copy, PartialEq, Eq, Debug)]
pub enum Want {
    // the allocator had no more
    Memory,
    // all 2^64 labels have been given out
    Labels,
}

impl From<AllocError> for Want {
    ghost from_gives = { λ _ r. r ≡ Memory };

    fn from(_e: AllocError) -> Want {
        Want::Memory
    }
}

impl<T: Drop> From<AllocFailed<T>> for Want {
    ghost from_gives = { λ _ r. r ≡ Memory };

    fn from(_e: AllocFailed<T>) -> Want {
        Want::Memory
    }
}
