// Opening: from sizes and lent memory to a manager.
ghost use Rattle.std.specs.Prelude.{◌≡◌, ◌-◌, true, false, ◌∷◌, take, replicate, None};
ghost use Rattle.requests.specs.Ranges.{InRange, ranged};
ghost use Rattle.tables.specs.Lent.{lists, shape};
ghost use Rattle.disk.specs.Moves as moves;
ghost use Rattle.calls.specs.Entry.{entry_refusal, Opened};

use crate::lent::admit;
use crate::manager::Manager;
use disk::registers::{Registers, Transfers};
use frames::hand::Hand;
use lookaside::slots::Lookaside;
use requests::answer::Refusal;
use requests::sizes::Sizes;
use tables::lent::Lent;

// The record at the start: process 0 is there, the hand rests at frame 0, nothing was read or written, no slot is taken.
fn start(sizes: Sizes) -> Manager
    requires { InRange (ranged sizes) }
    ensures sizes { result.sizes ≡ sizes }
    ensures alive { take sizes.processes result.alive ≡ true ∷ replicate (sizes.processes - 1) false }
    ensures hand { result.registers.hand.at ≡ 0 }
    ensures reads { result.registers.transfers.reads ≡ 0 }
    ensures writes { result.registers.transfers.writes ≡ 0 }
    ensures slots { result.registers.lookaside.slots ≡ replicate 16 None }
{
    let mut alive = [false; 16];
    alive[0] = true;
    let registers = Registers {
        hand: Hand::new(),
        transfers: Transfers::new(),
        lookaside: Lookaside::new(),
    };
    Manager {
        sizes,
        alive,
        registers,
    }
}

// Opens a manager over lent memory, which may be longer than the machine needs. All pages are absent and all memory is zeros then: 0 is the number of an absent
// entry, of a count of nobody, and of a frame that was not used. The rest of lent memory is not touched.
pub fn open_lent(sizes: Sizes, lent: &mut Lent<'_>) -> Result<Manager, Refusal>
    ensures opened { Opened (entry_refusal sizes (lists lent.old)) sizes (lists lent.old) result (lists lent.new) }
    ensures kept { shape lent.new ≡ shape lent.old }
    ensures same_table { lent.new.table.ghost_name ≡ lent.old.table.ghost_name }
    ensures same_segments { lent.new.segments.ghost_name ≡ lent.old.segments.ghost_name }
    ensures same_lookers { lent.new.lookers.ghost_name ≡ lent.old.lookers.ghost_name }
    ensures same_frame_counts { lent.new.frame_counts.ghost_name ≡ lent.old.frame_counts.ghost_name }
    ensures same_used { lent.new.used.ghost_name ≡ lent.old.used.ghost_name }
    ensures same_place_counts { lent.new.place_counts.ghost_name ≡ lent.old.place_counts.ghost_name }
    ensures same_frames { lent.new.frames.ghost_name ≡ lent.old.frames.ghost_name }
    ensures same_disk { lent.new.disk.ghost_name ≡ lent.old.disk.ghost_name }
{
    admit(sizes, lent)?;
    lent.table[0..sizes.processes * sizes.pages].fill(0);
    lent.segments[0..sizes.segments].fill(0);
    lent.lookers[0..sizes.segments].fill(0);
    lent.frame_counts[0..sizes.frames].fill(0);
    lent.used[0..sizes.frames].fill(0);
    lent.place_counts[0..sizes.places].fill(0);
    lent.frames[0..sizes.frames * 256].fill(0);
    lent.disk[0..sizes.places * 256].fill(0);
    Ok(start(sizes))
}

// Opens a manager over slices that are lent one by one, as `open_lent` does over all memory as one value. Slices of vectors, and parts of longer slices, are
// lent so: the check does not follow them into a struct that writes them.
pub fn open(
    sizes: Sizes,
    table: &mut [u16],
    segments: &mut [u16],
    lookers: &mut [u16],
    frame_counts: &mut [u16],
    used: &mut [u16],
    place_counts: &mut [u16],
    frames: &mut [u8],
    disk: &mut [u8],
) -> Result<Manager, Refusal>
    ensures { Opened (entry_refusal sizes (moves.lent table.old segments.old lookers.old frame_counts.old used.old place_counts.old frames.old disk.old)) sizes (moves.lent table.old segments.old lookers.old frame_counts.old used.old place_counts.old frames.old disk.old) result (moves.lent table.new segments.new lookers.new frame_counts.new used.new place_counts.new frames.new disk.new) }
{
    let mut lent = Lent {
        table,
        segments,
        lookers,
        frame_counts,
        used,
        place_counts,
        frames,
        disk,
    };
    open_lent(sizes, &mut lent)
}
