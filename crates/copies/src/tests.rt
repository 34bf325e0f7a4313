// Each path on a small machine: two processes of one page, one or two frames, one place.
use crate::own::store;
use crate::stores::Store;
use disk::memory::Memory;
use disk::registers::*;
use frames::hand::Hand;
use frames::memory::load;
use lookaside::slots::Lookaside;
use std::test::Fail;
use tables::entry::*;
use tables::lent::Lent;

// All memory, list by list.
macro_rules! lent {
    ($table:expr, $segments:expr, $lookers:expr, $counts:expr, $used:expr, $places:expr, $frames:expr, $disk:expr) => {
        Lent {
            table: $table,
            segments: $segments,
            lookers: $lookers,
            frame_counts: $counts,
            used: $used,
            place_counts: $places,
            frames: $frames,
            disk: $disk,
        }
    };
}

// Memory of so many processes of one page each.
macro_rules! memory {
    ($limits:expr, $processes:expr, $lent:expr) => {
        Memory {
            limits: $limits,
            processes: $processes,
            pages: 1,
            lent: $lent,
        }
    };
}

macro_rules! registers {
    () => {
        Registers { hand: Hand { at: 0 }, transfers: Transfers { reads: 0, writes: 0 }, lookaside: Lookaside { slots: [None; 16] } }
    };
}

macro_rules! code {
    ($target:expr, $copy:expr) => {
        Entry { target: $target, copy: $copy }.encode()
    };
}

// One frame, shared, and a free place: the hand chooses the very page that is copied. It goes out, and is read straight into the copy's frame.
#[test]
fn the_page_that_is_copied_goes_out(rt: HostRuntime) -> Result<(), Fail> {
    let limits = Limits {
        frames: 1,
        places: 1,
        segments: 0,
    };
    let mut table = [code!(Target::Frame(0), true), code!(Target::Frame(0), true)];
    let mut counts = [2u16];
    let mut used = [0u16];
    let mut places = [0u16];
    let mut frames = [7u8; 256];
    let mut disk = [0u8; 256];
    let (after, written) = store(
        &mut memory!(
            limits,
            2,
            lent!(
                &mut table,
                &mut [],
                &mut [],
                &mut counts,
                &mut used,
                &mut places,
                &mut frames,
                &mut disk
            )
        ),
        registers!(),
        Store {
            process: 1,
            page: 0,
            offset: 5,
            byte: 9,
        },
    );
    assert!(rt; written.is_some() && after.transfers.reads == 1 && after.transfers.writes == 1);
    assert!(rt;
        table[0] == code!(Target::Place(0), true) && table[1] == code!(Target::Frame(0), false)
    );
    assert!(rt; counts[0] == 1 && places[0] == 1);
    assert!(rt; load(&frames, 0, 5) == 9 && load(&frames, 0, 6) == 7 && load(&disk, 0, 5) == 7);
    Ok(())
}

// A first store gives the page of zeros a frame. The mark of a page that nobody else has does not make a store copy. Nothing free: full.
#[test]
fn zeros_alone_and_full(rt: HostRuntime) -> Result<(), Fail> {
    let limits = Limits {
        frames: 1,
        places: 0,
        segments: 0,
    };
    let mut table = [code!(Target::Zero, true), code!(Target::Zero, true)];
    let mut counts = [0u16];
    let mut used = [0u16];
    let mut frames = [7u8; 256];
    let (after, first) = store(
        &mut memory!(
            limits,
            2,
            lent!(
                &mut table,
                &mut [],
                &mut [],
                &mut counts,
                &mut used,
                &mut [],
                &mut frames,
                &mut []
            )
        ),
        registers!(),
        Store {
            process: 0,
            page: 0,
            offset: 5,
            byte: 9,
        },
    );
    assert!(rt; first.is_some() && table[0] == code!(Target::Frame(0), false) && counts[0] == 1);
    assert!(rt; load(&frames, 0, 5) == 9 && load(&frames, 0, 0) == 0);
    let (after, full) = store(
        &mut memory!(
            limits,
            2,
            lent!(
                &mut table,
                &mut [],
                &mut [],
                &mut counts,
                &mut used,
                &mut [],
                &mut frames,
                &mut []
            )
        ),
        after,
        Store {
            process: 1,
            page: 0,
            offset: 5,
            byte: 9,
        },
    );
    assert!(rt; full.is_none() && table[1] == code!(Target::Zero, true) && counts[0] == 1);
    table[0] = code!(Target::Frame(0), true);
    let (_after, alone) = store(
        &mut memory!(
            limits,
            2,
            lent!(
                &mut table,
                &mut [],
                &mut [],
                &mut counts,
                &mut used,
                &mut [],
                &mut frames,
                &mut []
            )
        ),
        after,
        Store {
            process: 0,
            page: 0,
            offset: 6,
            byte: 8,
        },
    );
    assert!(rt;
        alone.is_some() && table[0] == code!(Target::Frame(0), false) && load(&frames, 0, 6) == 8
    );
    Ok(())
}
