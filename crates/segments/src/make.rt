// A segment is made.
ghost use Rattle.std.specs.Prelude.{◌≡◌, ℕ, ◌<◌, length, IfSome, Some, Option};
ghost use Rattle.frames.specs.Counts.{lowest_free};
ghost use Rattle.frames.specs.Turn.{turn};
ghost use Rattle.tables.specs.Lent.{lists, shape};
ghost use Rattle.tables.specs.State.{view};
ghost use Rattle.disk.specs.Memory.{fixed, Located, state_of, whole_of};
ghost use Rattle.disk.specs.Whole.{Whole};
ghost use Rattle.segments.specs.declared.make.Made.{Made};
ghost use Rattle.segments.specs.Full.{MakeFullExactly};
ghost use Rattle.segments.specs.Make.{laid_in, made_in, make_of, make_segment};

use crate::release::{look_lent, put_segment};
use disk::memory::Memory;
use disk::registers::Registers;
use frames::counts::{count_up, lowest_free};
use frames::memory;
use tables::entry::{Entry, Limits, Target};
use tables::lent::Lent;

// The segment that was made, and how many frames the hand looked at for it.
#[derive(Clone, Copy)]
pub struct Made {
    pub segment: usize,
    pub looks: usize,
}

// Lays a segment into a frame that was free, all zeros.
fn lay(lent: &mut Lent<'_>, limits: Limits, segment: usize, frame: usize)
    requires segment_within { segment < length lent.old.segments.now }
    requires frame_within { frame < limits.frames }
    requires small { frame < 1024 }
    requires located { Located limits lent.old }
    ensures kept { shape lent.new ≡ shape lent.old }
    ensures lookers { lent.new.lookers.now ≡ lent.old.lookers.now }
    ensures laid { (pages processes : ℕ) → view limits pages processes (lists lent.new) ≡ laid_in (view limits pages processes (lists lent.old)) segment frame }
{
    memory::clear(lent.frames, frame);
    count_up(lent.frame_counts, frame);
    let entry = Entry {
        target: Target::Frame(frame),
        copy: false,
    };
    put_segment(lent.segments, segment, entry);
}

// Makes a segment in a frame that was free.
fn make_in(memory: &mut Memory<'_>, process: usize, page: usize, segment: usize, frame: usize)
    requires process_within { process < memory.old.processes }
    requires page_within { page < memory.old.pages }
    requires segment_within { segment < memory.old.limits.segments }
    requires frame_within { frame < memory.old.limits.frames }
    requires lookers { length memory.old.lent.lookers.now ≡ memory.old.limits.segments }
    ensures fixed { fixed memory.new ≡ fixed memory.old }
    ensures made { state_of memory.new ≡ made_in (state_of memory.old) process page segment frame }
{
    let limits = memory.limits;
    let pages = memory.pages;
    lay(&mut memory.lent, limits, segment, frame);
    look_lent(&mut memory.lent, limits, pages, process, page, segment);
}

// Makes this segment, which nobody looks at.
fn make_this(
    memory: &mut Memory<'_>,
    registers: Registers,
    process: usize,
    page: usize,
    segment: usize,
) -> (Registers, Option<Made>)
    requires process_within { process < memory.old.processes }
    requires page_within { page < memory.old.pages }
    requires segment_within { segment < memory.old.limits.segments }
    requires lookers { length memory.old.lent.lookers.now ≡ memory.old.limits.segments }
    ensures fixed { fixed memory.new ≡ fixed memory.old }
    ensures value { ◌≡◌ {A = Whole × Option Made} (whole_of result.0 memory.new, result.1) (make_of turn memory.old.limits.frames (whole_of registers memory.old) process page (Some segment)) }
{
    let (registers, taken) = memory.take_frame(registers);
    let Some(taken) = taken else {
        return (registers, None);
    };
    make_in(memory, process, page, segment, taken.frame);
    let registers = Registers {
        lookaside: memory.purged(registers.lookaside),
        ..registers
    };
    let made = Made {
        segment,
        looks: taken.looks,
    };
    (registers, Some(made))
}

// The lowest segment that nobody looks at.
fn free_segment(memory: &Memory<'_>) -> Option<usize>
    ensures value { result ≡ lowest_free memory.now.lent.lookers.now }
    ensures bound { IfSome result (λ s. s < length memory.now.lent.lookers.now) }
{
    lowest_free(memory.lent.lookers)
}

// Makes the lowest segment that nobody looks at, all zeros, for a page that is absent. None where every segment is looked at or no frame can be had; then
// nothing has changed.
pub fn make(
    memory: &mut Memory<'_>,
    registers: Registers,
    process: usize,
    page: usize,
) -> (Registers, Option<Made>)
    requires process_within { process < memory.old.processes }
    requires page_within { page < memory.old.pages }
    requires lookers { length memory.old.lent.lookers.now ≡ memory.old.limits.segments }
    ensures fixed { fixed memory.new ≡ fixed memory.old }
    ensures value { ◌≡◌ {A = Whole × Option Made} (whole_of result.0 memory.new, result.1) (make_segment turn memory.old.limits.frames (whole_of registers memory.old) process page) }
{
    let Some(segment) = free_segment(memory) else {
        return (registers, None);
    };
    make_this(memory, registers, process, page, segment)
}

// Of every make, whatever the choice of the frame: it is full exactly where every segment is looked at or no frame and no place is free, and then nothing has
// changed.
pub fn make_laws()
    ensures { MakeFullExactly }
{}
