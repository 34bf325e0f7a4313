// The thin entry: it is lent the record and all memory, and hands exactly the machine's part of it to the core.
ghost use Rattle.std.specs.Prelude.{◌≡◌, []};
ghost use Rattle.requests.specs.Meaning.{asked};
ghost use Rattle.requests.specs.Ranges.{InRange, ranged};
ghost use Rattle.requests.specs.Row.{call_of_numbers};
ghost use Rattle.tables.specs.Lent.{lists, shape};
ghost use Rattle.disk.specs.Moves as moves;
ghost use Rattle.calls.specs.Entry.{Called, entry_refusal, ExactLent, Numbered};
ghost use Rattle.calls.specs.Memory.{Served};

use crate::lent::admit;
use crate::manager::Manager;
use crate::serve::serve;
use disk::memory::Memory;
use requests::answer::{Answer, Refusal};
use requests::request::Call;
use std::mem;
use tables::lent::Lent;

// Slices of no length.
fn nothing<'a>() -> Lent<'a>
    ensures { lists result ≡ moves.lent [] [] [] [] [] [] [] [] }
{
    Lent {
        table: &mut [],
        segments: &mut [],
        lookers: &mut [],
        frame_counts: &mut [],
        used: &mut [],
        place_counts: &mut [],
        frames: &mut [],
        disk: &mut [],
    }
}

// Answers a call on lent memory that is exactly as long as the sizes say. The slices are taken out of what was lent and put back, since memory owns
// its slices. The record goes by value from here on, and is copied once on the way in and once on the way out.
fn serve_lent(manager: &mut Manager, lent: &mut Lent<'_>, call: Call) -> Answer
    requires range { InRange (ranged manager.old.sizes) }
    requires exact { ExactLent manager.old.sizes (lists lent.old) }
    ensures served { Served manager.old (lists lent.old) (asked call) (manager.new, result) (lists lent.new) }
    ensures kept { shape lent.new ≡ shape lent.old }
    ensures same_table { lent.new.table.ghost_name ≡ lent.old.table.ghost_name }
    ensures same_segments { lent.new.segments.ghost_name ≡ lent.old.segments.ghost_name }
    ensures same_lookers { lent.new.lookers.ghost_name ≡ lent.old.lookers.ghost_name }
    ensures same_frame_counts { lent.new.frame_counts.ghost_name ≡ lent.old.frame_counts.ghost_name }
    ensures same_used { lent.new.used.ghost_name ≡ lent.old.used.ghost_name }
    ensures same_place_counts { lent.new.place_counts.ghost_name ≡ lent.old.place_counts.ghost_name }
    ensures same_frames { lent.new.frames.ghost_name ≡ lent.old.frames.ghost_name }
    ensures same_disk { lent.new.disk.ghost_name ≡ lent.old.disk.ghost_name }
{
    let sizes = manager.sizes;
    let mut memory = Memory {
        limits: manager.limits(),
        processes: sizes.processes,
        pages: sizes.pages,
        lent: mem::replace(lent, nothing()),
    };
    let (record, answer) = serve(*manager, &mut memory, call);
    let Memory { lent: back, .. } = memory;
    *lent = back;
    *manager = record;
    answer
}

// Answers a call on slices that the entry cuts off longer ones. Each is a parameter of its own: the check does not follow a part of a slice that is
// lent to be written into a struct.
fn serve_cut(
    manager: &mut Manager,
    table: &mut [u16],
    segments: &mut [u16],
    lookers: &mut [u16],
    frame_counts: &mut [u16],
    used: &mut [u16],
    place_counts: &mut [u16],
    frames: &mut [u8],
    disk: &mut [u8],
    call: Call,
) -> Answer
    requires range { InRange (ranged manager.old.sizes) }
    requires exact { ExactLent manager.old.sizes (moves.lent table.old segments.old lookers.old frame_counts.old used.old place_counts.old frames.old disk.old) }
    ensures { Served manager.old (moves.lent table.old segments.old lookers.old frame_counts.old used.old place_counts.old frames.old disk.old) (asked call) (manager.new, result) (moves.lent table.new segments.new lookers.new frame_counts.new used.new place_counts.new frames.new disk.new) }
{
    let mut lent = Lent {
        table,
        segments,
        lookers,
        frame_counts,
        used,
        place_counts,
        frames,
        disk,
    };
    serve_lent(manager, &mut lent, call)
}

// Answers a call. Lent memory may be longer than the machine needs, and may hold anything: the call is answered, and nothing outside is touched. Which slice
// each field is stands in a clause of its own: by `shape` alone the proof of a caller that lends vectors didn't close.
pub fn call_lent(manager: &mut Manager, lent: &mut Lent<'_>, call: Call) -> Result<Answer, Refusal>
    ensures called { Called (entry_refusal manager.old.sizes (lists lent.old)) manager.old (lists lent.old) (asked call) result manager.new (lists lent.new) }
    ensures kept { shape lent.new ≡ shape lent.old }
    ensures same_table { lent.new.table.ghost_name ≡ lent.old.table.ghost_name }
    ensures same_segments { lent.new.segments.ghost_name ≡ lent.old.segments.ghost_name }
    ensures same_lookers { lent.new.lookers.ghost_name ≡ lent.old.lookers.ghost_name }
    ensures same_frame_counts { lent.new.frame_counts.ghost_name ≡ lent.old.frame_counts.ghost_name }
    ensures same_used { lent.new.used.ghost_name ≡ lent.old.used.ghost_name }
    ensures same_place_counts { lent.new.place_counts.ghost_name ≡ lent.old.place_counts.ghost_name }
    ensures same_frames { lent.new.frames.ghost_name ≡ lent.old.frames.ghost_name }
    ensures same_disk { lent.new.disk.ghost_name ≡ lent.old.disk.ghost_name }
{
    let sizes = manager.sizes;
    admit(sizes, lent)?;
    let answer = serve_cut(
        manager,
        &mut lent.table[0..sizes.processes * sizes.pages],
        &mut lent.segments[0..sizes.segments],
        &mut lent.lookers[0..sizes.segments],
        &mut lent.frame_counts[0..sizes.frames],
        &mut lent.used[0..sizes.frames],
        &mut lent.place_counts[0..sizes.places],
        &mut lent.frames[0..sizes.frames * 256],
        &mut lent.disk[0..sizes.places * 256],
        call,
    );
    Ok(answer)
}

// Answers a call that numbers of any size say. A kind that is none is refused; whatever else is out of range is a fault.
pub fn call_lent_by_numbers(
    manager: &mut Manager,
    lent: &mut Lent<'_>,
    kind: usize,
    process: usize,
    page: usize,
    third: usize,
    fourth: usize,
) -> Result<Answer, Refusal>
    ensures numbered { Numbered (call_of_numbers kind process page third fourth) manager.old (lists lent.old) result manager.new (lists lent.new) }
    ensures kept { shape lent.new ≡ shape lent.old }
    ensures same_table { lent.new.table.ghost_name ≡ lent.old.table.ghost_name }
    ensures same_segments { lent.new.segments.ghost_name ≡ lent.old.segments.ghost_name }
    ensures same_lookers { lent.new.lookers.ghost_name ≡ lent.old.lookers.ghost_name }
    ensures same_frame_counts { lent.new.frame_counts.ghost_name ≡ lent.old.frame_counts.ghost_name }
    ensures same_used { lent.new.used.ghost_name ≡ lent.old.used.ghost_name }
    ensures same_place_counts { lent.new.place_counts.ghost_name ≡ lent.old.place_counts.ghost_name }
    ensures same_frames { lent.new.frames.ghost_name ≡ lent.old.frames.ghost_name }
    ensures same_disk { lent.new.disk.ghost_name ≡ lent.old.disk.ghost_name }
{
    let request = Call::from_numbers(kind, process, page, third, fourth).ok_or(Refusal::Kind(0))?;
    call_lent(manager, lent, request)
}

// `call_lent` on slices that are lent one by one, as `open` takes them.
pub fn call(
    manager: &mut Manager,
    table: &mut [u16],
    segments: &mut [u16],
    lookers: &mut [u16],
    frame_counts: &mut [u16],
    used: &mut [u16],
    place_counts: &mut [u16],
    frames: &mut [u8],
    disk: &mut [u8],
    call: Call,
) -> Result<Answer, Refusal>
    ensures { Called (entry_refusal manager.old.sizes (moves.lent table.old segments.old lookers.old frame_counts.old used.old place_counts.old frames.old disk.old)) manager.old (moves.lent table.old segments.old lookers.old frame_counts.old used.old place_counts.old frames.old disk.old) (asked call) result manager.new (moves.lent table.new segments.new lookers.new frame_counts.new used.new place_counts.new frames.new disk.new) }
{
    let mut lent = Lent {
        table,
        segments,
        lookers,
        frame_counts,
        used,
        place_counts,
        frames,
        disk,
    };
    call_lent(manager, &mut lent, call)
}

// `call_lent_by_numbers` on slices that are lent one by one.
pub fn call_by_numbers(
    manager: &mut Manager,
    table: &mut [u16],
    segments: &mut [u16],
    lookers: &mut [u16],
    frame_counts: &mut [u16],
    used: &mut [u16],
    place_counts: &mut [u16],
    frames: &mut [u8],
    disk: &mut [u8],
    kind: usize,
    process: usize,
    page: usize,
    third: usize,
    fourth: usize,
) -> Result<Answer, Refusal>
    ensures { Numbered (call_of_numbers kind process page third fourth) manager.old (moves.lent table.old segments.old lookers.old frame_counts.old used.old place_counts.old frames.old disk.old) result manager.new (moves.lent table.new segments.new lookers.new frame_counts.new used.new place_counts.new frames.new disk.new) }
{
    let mut lent = Lent {
        table,
        segments,
        lookers,
        frame_counts,
        used,
        place_counts,
        frames,
        disk,
    };
    call_lent_by_numbers(manager, &mut lent, kind, process, page, third, fourth)
}
