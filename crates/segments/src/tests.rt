// Each path on a small machine: two processes of one page, one frame, one place, one segment.
use crate::make::*;
use crate::reach::*;
use crate::release::*;
use copies::stores::Store;
use disk::memory::Memory;
use disk::registers::*;
use frames::hand::Hand;
use frames::memory::load;
use lookaside::slots::Lookaside;
use std::test::Fail;
use tables::entry::*;
use tables::lent::Lent;

// All memory, list by list.
macro_rules! lent {
    ($table:expr, $segments:expr, $lookers:expr, $counts:expr, $used:expr, $places:expr, $frames:expr, $disk:expr) => {
        Lent {
            table: $table,
            segments: $segments,
            lookers: $lookers,
            frame_counts: $counts,
            used: $used,
            place_counts: $places,
            frames: $frames,
            disk: $disk,
        }
    };
}

// Memory of so many processes of one page each.
macro_rules! memory {
    ($limits:expr, $processes:expr, $lent:expr) => {
        Memory {
            limits: $limits,
            processes: $processes,
            pages: 1,
            lent: $lent,
        }
    };
}

macro_rules! registers {
    () => {
        Registers { hand: Hand { at: 0 }, transfers: Transfers { reads: 0, writes: 0 }, lookaside: Lookaside { slots: [None; 16] } }
    };
}

macro_rules! code {
    ($target:expr) => {
        Entry { target: $target, copy: false }.encode()
    };
}

// A segment is made, looked at twice, and gives its frame back when the last page that looks at it is dropped.
#[test]
fn a_segment_comes_and_goes(rt: HostRuntime) -> Result<(), Fail> {
    let limits = Limits {
        frames: 1,
        places: 0,
        segments: 1,
    };
    let mut table = [0u16; 2];
    let mut segments = [0u16];
    let mut lookers = [0u16];
    let mut counts = [0u16];
    let mut used = [0u16];
    let mut frames = [7u8; 256];
    let (after, made) = make(
        &mut memory!(
            limits,
            2,
            lent!(
                &mut table,
                &mut segments,
                &mut lookers,
                &mut counts,
                &mut used,
                &mut [],
                &mut frames,
                &mut []
            )
        ),
        registers!(),
        0,
        0,
    );
    assert!(rt;
        made.is_some()
            && lookers[0] == 1
            && counts[0] == 1
            && segments[0] == code!(Target::Frame(0))
            && load(&frames, 0, 255) == 0
    );
    look(&mut table, &mut lookers, limits, 1, 1, 0, 0);
    assert!(rt; table[1] == code!(Target::Segment(0)) && lookers[0] == 2);
    drop_page(
        &mut table,
        &mut segments,
        &mut lookers,
        &mut counts,
        &mut [],
        limits,
        1,
        0,
        0,
    );
    assert!(rt; table[0] == 0 && lookers[0] == 1 && counts[0] == 1);
    let (_after, full) = make(
        &mut memory!(
            limits,
            2,
            lent!(
                &mut table,
                &mut segments,
                &mut lookers,
                &mut counts,
                &mut used,
                &mut [],
                &mut frames,
                &mut []
            )
        ),
        after,
        0,
        0,
    );
    assert!(rt; full.is_none() && table[0] == 0);
    drop_page(
        &mut table,
        &mut segments,
        &mut lookers,
        &mut counts,
        &mut [],
        limits,
        1,
        1,
        0,
    );
    assert!(rt; table[1] == 0 && lookers[0] == 0 && counts[0] == 0 && segments[0] == 0);
    Ok(())
}

// A segment on the disk is stored to: it comes in first, and the page in the only frame goes out in its place.
#[test]
fn a_segment_on_the_disk_is_stored_to(rt: HostRuntime) -> Result<(), Fail> {
    let limits = Limits {
        frames: 1,
        places: 1,
        segments: 1,
    };
    let mut table = [code!(Target::Segment(0)), code!(Target::Frame(0))];
    let mut segments = [code!(Target::Place(0))];
    let mut counts = [1u16];
    let mut used = [0u16];
    let mut places = [1u16];
    let mut frames = [7u8; 256];
    let mut disk = [9u8; 256];
    let (after, reached) = store_to_segment(
        &mut memory!(
            limits,
            2,
            lent!(
                &mut table,
                &mut segments,
                &mut [],
                &mut counts,
                &mut used,
                &mut places,
                &mut frames,
                &mut disk
            )
        ),
        registers!(),
        Store {
            process: 0,
            page: 0,
            offset: 5,
            byte: 1,
        },
    );
    assert!(rt; reached.is_some() && after.transfers.reads == 1 && after.transfers.writes == 1);
    assert!(rt; segments[0] == code!(Target::Frame(0)) && table[1] == code!(Target::Place(0)));
    assert!(rt; load(&frames, 0, 5) == 1 && load(&frames, 0, 6) == 9 && load(&disk, 0, 5) == 7);
    Ok(())
}
