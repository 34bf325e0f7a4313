// Two locations change their names, with the bytes, counts and tables that go with them. Each function is lent the lists that it uses and no more, so that
// nobody is asked for others, or to be written for what is read; those that end in `_lent` are the same on all memory as one value.
ghost use Rattle.std.specs.Prelude.{◌≡◌, ℕ, ◌+◌, ◌*◌, ◌<◌, List, ◌++◌, map, length};
ghost use Rattle.tables.specs.Cells.{Few, renamed};
ghost use Rattle.tables.specs.Lent.{lists, shape};
ghost use Rattle.tables.specs.Rows.{cells};
ghost use Rattle.tables.specs.State.{view};
ghost use Rattle.disk.specs.Follows.{CountsFollow, ExchangeKeepsBytes, FreeIsNobodys, InKeepsBytes, OutKeepsBytes, SegmentFollows, WalkFollows};
ghost use Rattle.disk.specs.Memory.{Located};
ghost use Rattle.disk.specs.Moves.{come_in, exchanged, gone_out, lent, swap_at};

use frames::memory;
use std::mem;
use tables::entry::Limits;
use tables::lent::Lent;
use tables::table;

// Exchanges the counts of a frame and a place.
fn swap_counts(frame_counts: &mut [u16], place_counts: &mut [u16], frame: usize, place: usize)
    requires frame_within { frame < length frame_counts.old }
    requires place_within { place < length place_counts.old }
    ensures { frame_counts.new ++ place_counts.new ≡ swap_at frame (length frame_counts.old + place) 0 (frame_counts.old ++ place_counts.old) }
{
    mem::swap(&mut frame_counts[frame], &mut place_counts[place]);
}

// Every entry and segment that names the frame names the place and the other way round, and the counts go with them.
fn relocate(
    table: &mut [u16],
    segments: &mut [u16],
    frame_counts: &mut [u16],
    place_counts: &mut [u16],
    limits: Limits,
    frame: usize,
    place: usize,
)
    requires frame_within { frame < limits.frames }
    requires place_within { place < limits.places }
    requires few { Few limits }
    requires frame_counts { length frame_counts.old ≡ limits.frames }
    requires place_counts { length place_counts.old ≡ limits.places }
    ensures table { cells limits table.new ≡ map (renamed frame (limits.frames + place)) (cells limits table.old) }
    ensures segments { cells limits segments.new ≡ map (renamed frame (limits.frames + place)) (cells limits segments.old) }
    ensures counts { frame_counts.new ++ place_counts.new ≡ swap_at frame (limits.frames + place) 0 (frame_counts.old ++ place_counts.old) }
{
    table::rename(table, limits, frame, place);
    table::rename(segments, limits, frame, place);
    swap_counts(frame_counts, place_counts, frame, place);
}

// A page goes out, from its frame to a place that is free. The three moves are three functions: one with the step as a parameter would need the step's
// law as a clause, which is longer than they are.
pub fn move_out(
    table: &mut [u16],
    segments: &mut [u16],
    frame_counts: &mut [u16],
    place_counts: &mut [u16],
    frames: &[u8],
    disk: &mut [u8],
    limits: Limits,
    frame: usize,
    place: usize,
)
    requires frame_within { frame < limits.frames }
    requires place_within { place < limits.places }
    requires few { Few limits }
    requires frame_counts { length frame_counts.old ≡ limits.frames }
    requires place_counts { length place_counts.old ≡ limits.places }
    requires frames { length frames.now ≡ limits.frames * 256 }
    requires disk { length disk.old ≡ limits.places * 256 }
    ensures { (pages processes : ℕ) (lookers used : List ℕ) → view limits pages processes (lent table.new segments.new lookers frame_counts.new used place_counts.new frames.now disk.new) ≡ gone_out frame (limits.frames + place) (view limits pages processes (lent table.old segments.old lookers frame_counts.old used place_counts.old frames.now disk.old)) }
{
    memory::copy_across(frames, frame, disk, place);
    relocate(
        table,
        segments,
        frame_counts,
        place_counts,
        limits,
        frame,
        place,
    );
}

// `move_out` on all memory as one value.
pub fn move_out_lent(lent: &mut Lent<'_>, limits: Limits, frame: usize, place: usize)
    requires frame_within { frame < limits.frames }
    requires place_within { place < limits.places }
    requires few { Few limits }
    requires located { Located limits lent.old }
    ensures kept { shape lent.new ≡ shape lent.old }
    ensures moved { (pages processes : ℕ) → view limits pages processes (lists lent.new) ≡ gone_out frame (limits.frames + place) (view limits pages processes (lists lent.old)) }
    ensures frames { lent.new.frames.now ≡ lent.old.frames.now }
{
    let frames = &mut *lent.frames;
    move_out(
        lent.table,
        lent.segments,
        lent.frame_counts,
        lent.place_counts,
        frames,
        lent.disk,
        limits,
        frame,
        place,
    );
}

// A page comes in, from its place to a frame that is free.
pub fn move_in(
    table: &mut [u16],
    segments: &mut [u16],
    frame_counts: &mut [u16],
    place_counts: &mut [u16],
    frames: &mut [u8],
    disk: &[u8],
    limits: Limits,
    frame: usize,
    place: usize,
)
    requires frame_within { frame < limits.frames }
    requires place_within { place < limits.places }
    requires few { Few limits }
    requires frame_counts { length frame_counts.old ≡ limits.frames }
    requires place_counts { length place_counts.old ≡ limits.places }
    requires frames { length frames.old ≡ limits.frames * 256 }
    requires disk { length disk.now ≡ limits.places * 256 }
    ensures { (pages processes : ℕ) (lookers used : List ℕ) → view limits pages processes (lent table.new segments.new lookers frame_counts.new used place_counts.new frames.new disk.now) ≡ come_in frame (limits.frames + place) (view limits pages processes (lent table.old segments.old lookers frame_counts.old used place_counts.old frames.old disk.now)) }
{
    memory::copy_across(disk, place, frames, frame);
    relocate(
        table,
        segments,
        frame_counts,
        place_counts,
        limits,
        frame,
        place,
    );
}

// `move_in` on all memory as one value.
pub fn move_in_lent(lent: &mut Lent<'_>, limits: Limits, frame: usize, place: usize)
    requires frame_within { frame < limits.frames }
    requires place_within { place < limits.places }
    requires few { Few limits }
    requires located { Located limits lent.old }
    ensures kept { shape lent.new ≡ shape lent.old }
    ensures moved { (pages processes : ℕ) → view limits pages processes (lists lent.new) ≡ come_in frame (limits.frames + place) (view limits pages processes (lists lent.old)) }
    ensures disk { lent.new.disk.now ≡ lent.old.disk.now }
{
    let disk = &mut *lent.disk;
    move_in(
        lent.table,
        lent.segments,
        lent.frame_counts,
        lent.place_counts,
        lent.frames,
        disk,
        limits,
        frame,
        place,
    );
}

// The page in a frame and the page in a place change places.
pub fn swap_pages(
    table: &mut [u16],
    segments: &mut [u16],
    frame_counts: &mut [u16],
    place_counts: &mut [u16],
    frames: &mut [u8],
    disk: &mut [u8],
    limits: Limits,
    frame: usize,
    place: usize,
)
    requires frame_within { frame < limits.frames }
    requires place_within { place < limits.places }
    requires few { Few limits }
    requires frame_counts { length frame_counts.old ≡ limits.frames }
    requires place_counts { length place_counts.old ≡ limits.places }
    requires frames { length frames.old ≡ limits.frames * 256 }
    requires disk { length disk.old ≡ limits.places * 256 }
    ensures { (pages processes : ℕ) (lookers used : List ℕ) → view limits pages processes (lent table.new segments.new lookers frame_counts.new used place_counts.new frames.new disk.new) ≡ exchanged frame (limits.frames + place) (view limits pages processes (lent table.old segments.old lookers frame_counts.old used place_counts.old frames.old disk.old)) }
{
    memory::exchange(frames, frame, disk, place);
    relocate(
        table,
        segments,
        frame_counts,
        place_counts,
        limits,
        frame,
        place,
    );
}

// `swap_pages` on all memory as one value.
pub fn swap_pages_lent(lent: &mut Lent<'_>, limits: Limits, frame: usize, place: usize)
    requires frame_within { frame < limits.frames }
    requires place_within { place < limits.places }
    requires few { Few limits }
    requires located { Located limits lent.old }
    ensures kept { shape lent.new ≡ shape lent.old }
    ensures moved { (pages processes : ℕ) → view limits pages processes (lists lent.new) ≡ exchanged frame (limits.frames + place) (view limits pages processes (lists lent.old)) }
{
    swap_pages(
        lent.table,
        lent.segments,
        lent.frame_counts,
        lent.place_counts,
        lent.frames,
        lent.disk,
        limits,
        frame,
        place,
    );
}

// What moving pages keeps, whichever frame was chosen: no byte of any page or segment changes, a walk's answer follows its page, and counts stay
// the number of entries and segments that name the location.
pub fn moves_keep()
    ensures walk { WalkFollows }
    ensures segment { SegmentFollows }
    ensures out { OutKeepsBytes }
    ensures inward { InKeepsBytes }
    ensures exchange { ExchangeKeepsBytes }
    ensures counts { CountsFollow }
    ensures free { FreeIsNobodys }
{}
