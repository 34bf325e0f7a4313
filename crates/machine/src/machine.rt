// The manager and the memory that it works on, long enough for its sizes: a vector for each slice that it is lent.
ghost use Rattle.std.specs.Prelude.{◌≡◌, false, is_some};
ghost use Rattle.disk.specs.Moves.{lent};
ghost use Rattle.calls.specs.Entry.{entry_refusal};

use calls::manager::Manager;

#[derive(Drop)]
pub struct Machine {
    pub manager: Manager,
    pub table: Vec<u16>,
    pub segments: Vec<u16>,
    pub lookers: Vec<u16>,
    pub frame_counts: Vec<u16>,
    pub used: Vec<u16>,
    pub place_counts: Vec<u16>,
    pub frames: Vec<u8>,
    pub disk: Vec<u8>,
    ghost roomy: { is_some (entry_refusal manager.sizes (lent table.items segments.items lookers.items frame_counts.items used.items place_counts.items frames.items disk.items)) ≡ false },
}
