// Each rule on a small example, edges included.
use crate::slots::*;
use tables::entry::*;
use tables::lent::Tables;

const LIMITS: Limits = Limits {
    frames: 2,
    places: 1,
    segments: 0,
};

// What a walk reads, of two processes with two pages each and no segment.
macro_rules! seen {
    ($table:expr, $frames:expr, $places:expr) => {
        Tables {
            limits: LIMITS,
            processes: 2,
            pages: 2,
            table: $table,
            segments: &[],
            frame_counts: $frames,
            place_counts: $places,
        }
    };
}

#[test]
fn what_is_put_is_found(rt: HostRuntime) {
    let slot = Slot {
        process: 1,
        page: 2,
        frame: 1,
        free: true,
    };
    let slots = Lookaside::new().put(slot);
    assert!(rt; slots.find(2, 1, 2) == Some(slot));
    assert!(rt; slots.find(1, 1, 2) == None);
    assert!(rt; slots.find(2, 0, 7) == None);
    let over = slots.put(Slot {
        process: 0,
        page: 7,
        frame: 0,
        free: false,
    });
    assert!(rt; over.find(2, 1, 2) == None);
    assert!(rt; over.find(2, usize::MAX, usize::MAX) == None);
}

// Two processes share frame 1; frame 0 is alone. The page in frame 1 goes to the disk: both slots of it go, the other stays.
#[test]
fn a_purge_takes_untrue_slots(rt: HostRuntime) {
    let frame_0 = Entry {
        target: Target::Frame(0),
        copy: false,
    }
    .encode();
    let frame_1 = Entry {
        target: Target::Frame(1),
        copy: true,
    }
    .encode();
    let place_0 = Entry {
        target: Target::Place(0),
        copy: true,
    }
    .encode();
    let slots = Lookaside::new()
        .put(Slot {
            process: 0,
            page: 0,
            frame: 1,
            free: false,
        })
        .put(Slot {
            process: 1,
            page: 0,
            frame: 1,
            free: false,
        })
        .put(Slot {
            process: 0,
            page: 1,
            frame: 0,
            free: true,
        });
    let before = slots.purge(&seen!(&[frame_1, frame_0, frame_1, 0], &[1, 2], &[0]));
    assert!(rt;
        before.find(2, 1, 0).is_some()
            && before.find(2, 0, 0).is_some()
            && before.find(2, 0, 1).is_some()
    );
    let after = slots.purge(&seen!(&[place_0, frame_0, place_0, 0], &[1, 0], &[2]));
    assert!(rt; after.find(2, 1, 0) == None);
    assert!(rt; after.find(2, 0, 0) == None);
    assert!(rt; after.find(2, 0, 1).is_some());
    let counted = slots.purge(&seen!(&[frame_1, frame_0, 0, 0], &[1, 1], &[0]));
    assert!(rt; counted.find(2, 0, 0) == None);
}
