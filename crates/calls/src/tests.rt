// The entries on small machines: memory that is too short, longer than needed, or damaged.
use crate::entry::{call, call_by_numbers};
use crate::open::open;
use requests::answer::*;
use requests::request::*;
use requests::sizes::Sizes;
use std::test::Fail;

const SIZES: Sizes = Sizes {
    processes: 2,
    pages: 1,
    segments: 1,
    frames: 1,
    places: 1,
};

// One place of the disk is too short by a byte: nothing is opened, and nothing is touched. With a byte more than needed, that byte stays.
#[test]
fn memory_is_measured_first(rt: HostRuntime) {
    let (mut table, mut segments, mut lookers) = ([7u16; 3], [7u16; 1], [7u16; 1]);
    let (mut counts, mut used, mut places) = ([7u16; 1], [7u16; 1], [7u16; 1]);
    let (mut frames, mut short, mut long) = ([7u8; 256], [7u8; 255], [7u8; 257]);
    let refused = open(
        SIZES,
        &mut table,
        &mut segments,
        &mut lookers,
        &mut counts,
        &mut used,
        &mut places,
        &mut frames,
        &mut short,
    );
    assert!(rt;
        matches!(refused, Err(Refusal::Lent(Part::Disk))) && table[0] == 7 && frames[0] == 7
    );
    let opened = open(
        SIZES,
        &mut table,
        &mut segments,
        &mut lookers,
        &mut counts,
        &mut used,
        &mut places,
        &mut frames,
        &mut long,
    );
    assert!(rt; opened.is_ok() && table[0] == 0 && table[1] == 0 && table[2] == 7);
    assert!(rt; long[255] == 0 && long[256] == 7);
}

// Numbers in lent tables that are no entries, or name what is not there, read as absent, and counts that are wrong stop at 0.
#[test]
fn damaged_memory_is_answered(rt: HostRuntime) -> Result<(), Fail> {
    let (mut table, mut segments, mut lookers) = ([0u16; 2], [0u16; 1], [0u16; 1]);
    let (mut counts, mut used, mut places) = ([0u16; 1], [0u16; 1], [0u16; 1]);
    let (mut frames, mut disk) = ([0u8; 256], [0u8; 256]);
    let opened = open(
        SIZES,
        &mut table,
        &mut segments,
        &mut lookers,
        &mut counts,
        &mut used,
        &mut places,
        &mut frames,
        &mut disk,
    );
    let Ok(mut manager) = opened else {
        return Err(Fail::new("not opened"));
    };
    // no code, and a frame that the machine has not
    table = [65535, 14];
    segments = [65535];
    let absent = call(
        &mut manager,
        &mut table,
        &mut segments,
        &mut lookers,
        &mut counts,
        &mut used,
        &mut places,
        &mut frames,
        &mut disk,
        Call::Drop {
            process: 0,
            page: 0,
        },
    );
    assert!(rt; absent == Ok(Answer::Fault));
    // a frame whose count is 0 though an entry names it
    table = [4, 14];
    let dropped = call_by_numbers(
        &mut manager,
        &mut table,
        &mut segments,
        &mut lookers,
        &mut counts,
        &mut used,
        &mut places,
        &mut frames,
        &mut disk,
        4,
        0,
        0,
        0,
        0,
    );
    assert!(rt; dropped == Ok(Answer::Done(0)) && counts[0] == 0 && table[0] == 0);
    Ok(())
}
