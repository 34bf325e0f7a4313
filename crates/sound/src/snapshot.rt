// A manager's state to look at: its record, and exactly the memory that its sizes say.
ghost use Rattle.requests.specs.Ranges.{InRange, ranged};
ghost use Rattle.disk.specs.Moves.{lent};
ghost use Rattle.calls.specs.Entry.{ExactLent};

use calls::manager::Manager;

// What a walk reads is not kept apart, as `tables::lent::Tables`: that would hold the sizes a second time.
#[derive(Clone, Copy)]
pub struct Snapshot<'a> {
    pub manager: Manager,
    pub table: &'a [u16],
    pub segments: &'a [u16],
    pub lookers: &'a [u16],
    pub frame_counts: &'a [u16],
    pub used: &'a [u16],
    pub place_counts: &'a [u16],
    pub frames: &'a [u8],
    pub disk: &'a [u8],
    ghost range: { InRange (ranged manager.sizes) },
    ghost exact: { ExactLent manager.sizes (lent table.now segments.now lookers.now frame_counts.now used.now place_counts.now frames.now disk.now) },
}
