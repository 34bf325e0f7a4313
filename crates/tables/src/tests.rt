// Each rule on a small example, edges included.
use crate::entry::*;
use crate::lent::Tables;
use crate::table::*;
use crate::walk::*;
use std::test::Fail;

const LIMITS: Limits = Limits {
    frames: 2,
    places: 1,
    segments: 1,
};

macro_rules! marked {
    ($target:expr) => {
        Entry { target: $target, copy: true }
    };
}

macro_rules! plain {
    ($target:expr) => {
        Entry { target: $target, copy: false }
    };
}

// What a walk reads, of a machine of one process.
macro_rules! seen {
    ($table:expr, $segments:expr, $frames:expr, $places:expr, $pages:expr) => {
        Tables {
            limits: LIMITS,
            processes: 1,
            pages: $pages,
            table: $table,
            segments: $segments,
            frame_counts: $frames,
            place_counts: $places,
        }
    };
}

// Of all numbers of 16 bits, the codes are those of the two kinds without an index and of what is there, each with and without mark.
#[test]
fn every_number_is_read(rt: HostRuntime) -> Result<(), Fail> {
    let mut codes = 0u32;
    for code in 0..=u16::MAX {
        let entry = Entry::decode(code, LIMITS);
        if entry != Entry::absent() {
            codes = codes.wrapping_add(1);
        }
    }
    assert_eq!(rt; codes, 11);
    assert!(rt; Entry::decode(25, LIMITS) == plain!(Target::Absent));
    assert!(rt; Entry::decode(1, LIMITS) == marked!(Target::Absent));
    assert!(rt; Entry::decode(14, LIMITS) == plain!(Target::Frame(1)));
    assert!(rt; Entry::decode(24, LIMITS) == plain!(Target::Absent));
    assert!(rt; Entry::decode(16, LIMITS) == plain!(Target::Absent));
    assert!(rt; Entry::decode(9, LIMITS) == marked!(Target::Segment(0)));
    Ok(())
}

#[test]
fn a_row_is_copied_with_marks(rt: HostRuntime) -> Result<(), Fail> {
    let mut table = [0u16; 6];
    write(&mut table, 3, 0, 0, plain!(Target::Frame(1)));
    write(&mut table, 3, 0, 1, plain!(Target::Segment(0)));
    write(&mut table, 3, 0, 2, marked!(Target::Zero));
    copy_row(&mut table, LIMITS, 3, 0, 1);
    assert!(rt; read(&table, LIMITS, 3, 0, 0) == marked!(Target::Frame(1)));
    assert!(rt; read(&table, LIMITS, 3, 1, 0) == marked!(Target::Frame(1)));
    assert!(rt; read(&table, LIMITS, 3, 1, 1) == plain!(Target::Segment(0)));
    assert!(rt; read(&table, LIMITS, 3, 1, 2) == marked!(Target::Zero));
    rename(&mut table, LIMITS, 1, 0);
    assert!(rt; read(&table, LIMITS, 3, 1, 0) == marked!(Target::Place(0)));
    clear_row(&mut table, 3, 0);
    assert!(rt; read(&table, LIMITS, 3, 0, 1) == Entry::absent());
    assert!(rt; read(&table, LIMITS, 3, 1, 0) == marked!(Target::Place(0)));
    Ok(())
}

#[test]
fn a_walk_finds_pages(rt: HostRuntime) -> Result<(), Fail> {
    let mut table = [0u16; 3];
    let mut segments = [0u16];
    let mut frames = [1u16, 2];
    let places = [0u16];
    let absent = seen!(&table, &segments, &frames, &places, 3).walk(0, 0);
    assert!(rt; absent.lies == Lies::Nowhere && !absent.free);
    write(&mut table, 3, 0, 0, marked!(Target::Frame(1)));
    write(&mut table, 3, 0, 1, plain!(Target::Segment(0)));
    let shared = seen!(&table, &segments, &frames, &places, 3).walk(0, 0);
    assert!(rt; shared.lies == Lies::Frame(1) && !shared.free);
    frames[1] = 1;
    let alone = seen!(&table, &segments, &frames, &places, 3).walk(0, 0);
    assert!(rt; alone.lies == Lies::Frame(1) && alone.free);
    let lost = seen!(&table, &segments, &frames, &places, 3).walk(0, 1);
    assert!(rt; lost.lies == Lies::Nowhere && !lost.free);
    segments[0] = plain!(Target::Place(0)).encode();
    let segment = seen!(&table, &segments, &frames, &places, 3).walk(0, 1);
    assert!(rt; segment.lies == Lies::Place(0) && segment.free);
    Ok(())
}

// The least table: one process of one page. A fork onto itself only sets the mark.
#[test]
fn one_entry(rt: HostRuntime) -> Result<(), Fail> {
    let mut table = [0u16];
    assert!(rt; read(&table, LIMITS, 1, 0, 0) == Entry::absent());
    write(&mut table, 1, 0, 0, plain!(Target::Frame(1)));
    copy_row(&mut table, LIMITS, 1, 0, 0);
    assert!(rt; read(&table, LIMITS, 1, 0, 0) == marked!(Target::Frame(1)));
    let found = seen!(&table, &[0], &[0, 1], &[0], 1).walk(0, 0);
    assert!(rt; found.lies == Lies::Frame(1) && found.free);
    clear_row(&mut table, 1, 0);
    assert!(rt; table[0] == 0);
    Ok(())
}
