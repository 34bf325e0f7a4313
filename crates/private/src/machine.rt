// The machine: its sizes and its memory.
ghost use Rattle.private.specs.See.{see, Rows, Labels, Room};

use super::memory::Memory;
use requests::sizes::Sizes;

#[derive(Drop)]
pub struct Machine {
    pub(crate) sizes: Sizes,
    pub(crate) memory: Memory,
    ghost rows: { Rows sizes (see memory) },
    ghost labels: { Labels (see memory) },
    ghost room: { Room sizes (see memory) },
}
