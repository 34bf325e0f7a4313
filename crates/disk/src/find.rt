// A frame for whoever needs one, and pages that come in.
ghost use Rattle.std.specs.Prelude.{◌≡◌, ℕ, ◌*◌, ◌<◌, List, length, IfSome, Option};
ghost use Rattle.frames.specs.Counts.{lowest_free};
ghost use Rattle.frames.specs.Turn.{turn};
ghost use Rattle.tables.specs.Cells.{Few};
ghost use Rattle.tables.specs.Lent.{lists, shape};
ghost use Rattle.lookaside.specs.Purge.{purged};
ghost use Rattle.disk.specs.declared.registers.Taken.{Taken};
ghost use Rattle.disk.specs.Frames.{BringKeepsBytes, BringKeepsCounts, NoneOnlyIfFull, TakeKeepsBytes, TakeKeepsCounts, TakenIsFree};
ghost use Rattle.disk.specs.Memory.{fixed, marks, state_of, whole_of};
ghost use Rattle.disk.specs.Moves.{lent};
ghost use Rattle.disk.specs.Whole.{bring_in, Exact, fetched, sent_out, take_frame, traded, Whole, whole};

use crate::memory::Memory;
use crate::moves::{move_in_lent, move_out, move_out_lent, swap_pages_lent};
use crate::registers::{Registers, Taken, Transfers};
use frames::counts::lowest_free;
use frames::hand::{Hand, Turn};
use tables::entry::Limits;
use tables::lent::{Lent, Tables};

// The hand goes round over the frames, and the marks that it passes are cleared.
fn turn_hand(lent: &mut Lent<'_>, hand: Hand) -> Turn
    requires { 0 < length lent.old.used.now }
    ensures kept { shape lent.new ≡ shape lent.old }
    ensures marks { lists lent.new ≡ marks (lists lent.old) lent.new.used.now }
    ensures value { turn (length lent.old.used.now) hand.at lent.old.used.now ≡ record { frame = result.frame; rest = result.hand.at; looks = result.looks; used = lent.new.used.now } }
    ensures bound { result.frame < length lent.old.used.now }
{
    hand.turn(lent.used)
}

impl Memory<'_> {
    // The lowest frame that nobody has. This and the next are `lowest_free` of a table each, and tell by which limit what it finds is bounded.
    fn free_frame(&self) -> Option<usize>
        ensures value { result ≡ lowest_free self.now.lent.frame_counts.now }
        ensures within { IfSome result (λ f. f < self.now.limits.frames) }
    {
        lowest_free(self.lent.frame_counts)
    }

    // The lowest place that nobody has.
    fn free_place(&self) -> Option<usize>
        ensures value { result ≡ lowest_free self.now.lent.place_counts.now }
        ensures within { IfSome result (λ d. d < self.now.limits.places) }
    {
        lowest_free(self.lent.place_counts)
    }

    // The registers once the hand has turned and pages have moved.
    fn turned(&self, registers: Registers, turn: Turn, transfers: Transfers) -> (Registers, Taken)
        ensures hand { result.0.hand ≡ turn.hand }
        ensures transfers { result.0.transfers ≡ transfers }
        ensures slots { result.0.lookaside.slots ≡ purged (state_of self.now).rows (state_of self.now).segments (state_of self.now).counts self.now.limits.frames registers.lookaside.slots }
        ensures taken { result.1 ≡ record { frame = turn.frame; looks = turn.looks } }
    {
        let Turn { frame, hand, looks } = turn;
        let registers = Registers {
            hand,
            transfers,
            lookaside: self.purged(registers.lookaside),
        };
        (registers, Taken { frame, looks })
    }

    // The page of the frame that the hand chooses goes out to a place that is free.
    fn send_out(&mut self, registers: Registers, place: usize) -> (Registers, Taken)
        requires { place < self.old.limits.places }
        ensures fixed { fixed self.new ≡ fixed self.old }
        ensures frames { self.new.lent.frames.now ≡ self.old.lent.frames.now }
        ensures value { ◌≡◌ {A = Whole × Taken} (whole_of result.0 self.new, result.1) (sent_out turn self.old.limits.frames place (whole_of registers self.old)) }
        ensures within { result.1.frame < self.old.limits.frames }
    {
        let limits = self.limits;
        let turn = turn_hand(&mut self.lent, registers.hand);
        move_out_lent(&mut self.lent, limits, turn.frame, place);
        self.turned(registers, turn, registers.transfers.wrote())
    }

    // The page of the frame that the hand chooses and the page in a place change places. One function for this and the one above, with the move as a
    // parameter, would need the move's law as a clause, which is longer than the body.
    fn trade(&mut self, registers: Registers, place: usize) -> (Registers, Taken)
        requires { place < self.old.limits.places }
        ensures fixed { fixed self.new ≡ fixed self.old }
        ensures value { ◌≡◌ {A = Whole × Taken} (whole_of result.0 self.new, result.1) (traded turn self.old.limits.frames place (whole_of registers self.old)) }
        ensures within { result.1.frame < self.old.limits.frames }
    {
        let limits = self.limits;
        let turn = turn_hand(&mut self.lent, registers.hand);
        swap_pages_lent(&mut self.lent, limits, turn.frame, place);
        self.turned(registers, turn, registers.transfers.read().wrote())
    }

    // The page in a place comes to a frame that is free.
    fn fetch(&mut self, registers: Registers, frame: usize, place: usize) -> Registers
        requires frame_within { frame < self.old.limits.frames }
        requires place_within { place < self.old.limits.places }
        ensures fixed { fixed self.new ≡ fixed self.old }
        ensures value { whole_of result self.new ≡ fetched self.old.limits.frames frame place (whole_of registers self.old) }
    {
        let limits = self.limits;
        move_in_lent(&mut self.lent, limits, frame, place);
        Registers {
            transfers: registers.transfers.read(),
            lookaside: self.purged(registers.lookaside),
            ..registers
        }
    }

    // A frame for whoever needs one: the lowest that is free; else, if a place is free, the one that the hand chooses, once its page is out.
    pub fn take_frame(&mut self, registers: Registers) -> (Registers, Option<Taken>)
        ensures fixed { fixed self.new ≡ fixed self.old }
        ensures frames { self.new.lent.frames.now ≡ self.old.lent.frames.now }
        ensures value { ◌≡◌ {A = Whole × Option Taken} (whole_of result.0 self.new, result.1) (take_frame turn self.old.limits.frames (whole_of registers self.old)) }
        ensures within { IfSome result.1 (λ t. t.frame < self.old.limits.frames) }
    {
        if let Some(frame) = self.free_frame() {
            return (registers, Some(Taken { frame, looks: 0 }));
        }
        let Some(place) = self.free_place() else {
            return (registers, None);
        };
        let (registers, taken) = self.send_out(registers, place);
        (registers, Some(taken))
    }

    // The page in a place comes in. It never fails: where no frame and no place is free, it changes places with the page that the hand chooses.
    pub fn bring_in(&mut self, registers: Registers, place: usize) -> (Registers, Taken)
        requires { place < self.old.limits.places }
        ensures fixed { fixed self.new ≡ fixed self.old }
        ensures value { ◌≡◌ {A = Whole × Taken} (whole_of result.0 self.new, result.1) (bring_in turn self.old.limits.frames place (whole_of registers self.old)) }
        ensures within { result.1.frame < self.old.limits.frames }
    {
        if let Some(frame) = self.free_frame() {
            return (
                self.fetch(registers, frame, place),
                Taken { frame, looks: 0 },
            );
        }
        let Some(free) = self.free_place() else {
            return self.trade(registers, place);
        };
        let (registers, taken) = self.send_out(registers, free);
        (self.fetch(registers, taken.frame, place), taken)
    }
}

// `Memory::take_frame` for whoever has the frames only to read, and the counts of segments not at all.
pub fn take_frame(
    table: &mut [u16],
    segments: &mut [u16],
    frame_counts: &mut [u16],
    used: &mut [u16],
    place_counts: &mut [u16],
    frames: &[u8],
    disk: &mut [u8],
    limits: Limits,
    processes: usize,
    pages: usize,
    registers: Registers,
) -> (Registers, Option<Taken>)
    requires exact { Exact limits pages processes table.old segments.old frame_counts.old used.old place_counts.old frames.now disk.old }
    requires few { Few limits }
    requires some { 0 < limits.frames }
    ensures value { (lookers : List ℕ) → ◌≡◌ {A = Whole × Option Taken} ((whole limits pages processes result.0 (lent table.new segments.new lookers frame_counts.new used.new place_counts.new frames.now disk.new)), result.1) (take_frame turn limits.frames (whole limits pages processes registers (lent table.old segments.old lookers frame_counts.old used.old place_counts.old frames.now disk.old))) }
    ensures within { IfSome result.1 (λ t. t.frame < limits.frames) }
{
    if let Some(frame) = lowest_free(frame_counts) {
        return (registers, Some(Taken { frame, looks: 0 }));
    }
    let Some(place) = lowest_free(place_counts) else {
        return (registers, None);
    };
    let Turn { frame, hand, looks } = registers.hand.turn(used);
    move_out(
        table,
        segments,
        frame_counts,
        place_counts,
        frames,
        disk,
        limits,
        frame,
        place,
    );
    let tables = Tables {
        limits,
        processes,
        pages,
        table,
        segments,
        frame_counts,
        place_counts,
    };
    let registers = Registers {
        hand,
        transfers: registers.transfers.wrote(),
        lookaside: registers.lookaside.purge(&tables),
    };
    (registers, Some(Taken { frame, looks }))
}

// Of a frame that was taken, whatever the choice: nobody names it any more. None is given only where nothing is free, and then nothing has
// changed. Whether a frame is taken or a page comes in, no byte changes that anybody sees, and counts stay right.
pub fn taken_frames()
    ensures free { TakenIsFree }
    ensures none { NoneOnlyIfFull }
    ensures take_bytes { TakeKeepsBytes }
    ensures take_counts { TakeKeepsCounts }
    ensures bring_bytes { BringKeepsBytes }
    ensures bring_counts { BringKeepsCounts }
{}
