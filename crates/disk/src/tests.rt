// Each path on a small machine: one page of each process, one or two frames, one place.
use crate::find::take_frame;
use crate::memory::Memory;
use crate::registers::*;
use frames::hand::Hand;
use frames::memory::load;
use lookaside::slots::Lookaside;
use std::test::Fail;
use tables::entry::*;
use tables::lent::Lent;

// All memory, list by list.
macro_rules! lent {
    ($table:expr, $segments:expr, $lookers:expr, $counts:expr, $used:expr, $places:expr, $frames:expr, $disk:expr) => {
        Lent {
            table: $table,
            segments: $segments,
            lookers: $lookers,
            frame_counts: $counts,
            used: $used,
            place_counts: $places,
            frames: $frames,
            disk: $disk,
        }
    };
}

// Memory of so many processes of one page each.
macro_rules! memory {
    ($limits:expr, $processes:expr, $lent:expr) => {
        Memory {
            limits: $limits,
            processes: $processes,
            pages: 1,
            lent: $lent,
        }
    };
}

macro_rules! registers {
    () => {
        Registers { hand: Hand { at: 0 }, transfers: Transfers { reads: 0, writes: 0 }, lookaside: Lookaside { slots: [None; 16] } }
    };
}

macro_rules! code {
    ($target:expr) => {
        Entry { target: $target, copy: false }.encode()
    };
}

// One frame and one place, everything used: nothing is given. With the place free, the page goes out to it.
#[test]
fn a_frame_is_found_or_not(rt: HostRuntime) -> Result<(), Fail> {
    let limits = Limits {
        frames: 1,
        places: 1,
        segments: 0,
    };
    let mut table = [code!(Target::Frame(0)), code!(Target::Place(0))];
    let mut counts = [1u16];
    let mut used = [1u16];
    let mut places = [1u16];
    let mut frames = [7u8; 256];
    let mut disk = [9u8; 256];
    let (full, none) = memory!(
        limits,
        2,
        lent!(
            &mut table,
            &mut [],
            &mut [],
            &mut counts,
            &mut used,
            &mut places,
            &mut frames,
            &mut disk
        )
    )
    .take_frame(registers!());
    assert!(rt; none.is_none() && full.hand.at == 0 && used[0] == 1);
    let mut one = [code!(Target::Frame(0)), 0];
    let mut free = [0u16];
    let (after, some) = memory!(
        limits,
        2,
        lent!(
            &mut one,
            &mut [],
            &mut [],
            &mut counts,
            &mut used,
            &mut free,
            &mut frames,
            &mut disk
        )
    )
    .take_frame(registers!());
    let Some(taken) = some else {
        return Err(Fail::new("no frame"));
    };
    assert!(rt;
        taken.frame == 0
            && taken.looks == 2
            && after.transfers.writes == 1
            && after.transfers.reads == 0
    );
    assert!(rt;
        one[0] == code!(Target::Place(0)) && counts[0] == 0 && free[0] == 1 && used[0] == 0
    );
    assert_eq!(rt; load(&disk, 0, 255), 7);
    Ok(())
}

// No frame and no place is free: the page that comes in changes places with the page that the hand chooses, a shared one for all who have it.
#[test]
fn a_page_comes_in_though_all_is_used(rt: HostRuntime) -> Result<(), Fail> {
    let limits = Limits {
        frames: 1,
        places: 1,
        segments: 1,
    };
    let mut table = [
        code!(Target::Frame(0)),
        code!(Target::Frame(0)),
        code!(Target::Segment(0)),
    ];
    let mut segments = [code!(Target::Place(0))];
    let mut counts = [2u16];
    let mut used = [0u16];
    let mut places = [1u16];
    let mut frames = [7u8; 256];
    let mut disk = [9u8; 256];
    let (after, taken) = memory!(
        limits,
        3,
        lent!(
            &mut table,
            &mut segments,
            &mut [],
            &mut counts,
            &mut used,
            &mut places,
            &mut frames,
            &mut disk
        )
    )
    .bring_in(registers!(), 0);
    assert!(rt;
        taken.frame == 0
            && taken.looks == 1
            && after.transfers.reads == 1
            && after.transfers.writes == 1
    );
    assert!(rt;
        table[0] == code!(Target::Place(0))
            && table[1] == code!(Target::Place(0))
            && segments[0] == code!(Target::Frame(0))
    );
    assert!(rt; counts[0] == 1 && places[0] == 2);
    assert_eq!(rt; load(&frames, 0, 0), 9);
    assert_eq!(rt; load(&disk, 0, 255), 7);
    Ok(())
}

// Whoever has the frames only to read gets a frame too: the page goes out to the place that is free.
#[test]
fn a_frame_is_taken_from_frames_that_are_read(rt: HostRuntime) -> Result<(), Fail> {
    let limits = Limits {
        frames: 1,
        places: 1,
        segments: 0,
    };
    let mut table = [code!(Target::Frame(0))];
    let mut counts = [1u16];
    let mut used = [0u16];
    let mut places = [0u16];
    let frames = [7u8; 256];
    let mut disk = [9u8; 256];
    let (after, some) = take_frame(
        &mut table,
        &mut [],
        &mut counts,
        &mut used,
        &mut places,
        &frames,
        &mut disk,
        limits,
        1,
        1,
        registers!(),
    );
    let Some(taken) = some else {
        return Err(Fail::new("no frame"));
    };
    assert!(rt; taken.frame == 0 && taken.looks == 1 && after.transfers.writes == 1);
    assert!(rt; table[0] == code!(Target::Place(0)) && counts[0] == 0 && places[0] == 1);
    assert_eq!(rt; load(&disk, 0, 0), 7);
    Ok(())
}
