// Each rule on a small example, edges included.
use crate::counts::*;
use crate::hand::*;
use crate::memory::*;

#[test]
fn pages_are_apart(rt: HostRuntime) {
    let mut memory = [7u8; 768];
    store(&mut memory, 1, 0, 1);
    store(&mut memory, 1, 255, 2);
    assert_eq!(rt; load(&memory, 1, 0), 1);
    assert_eq!(rt; load(&memory, 1, 255), 2);
    assert_eq!(rt; load(&memory, 0, 255), 7);
    assert_eq!(rt; load(&memory, 2, 0), 7);
    copy(&mut memory, 1, 2);
    assert_eq!(rt; load(&memory, 2, 255), 2);
    clear(&mut memory, 1);
    assert_eq!(rt; load(&memory, 1, 255), 0);
    assert_eq!(rt; load(&memory, 2, 0), 1);
}

#[test]
fn pages_change_places(rt: HostRuntime) {
    let mut frames = [1u8; 256];
    let mut disk = [2u8; 512];
    exchange(&mut frames, 0, &mut disk, 1);
    assert_eq!(rt; load(&frames, 0, 255), 2);
    assert_eq!(rt; load(&disk, 1, 0), 1);
    assert_eq!(rt; load(&disk, 0, 255), 2);
    copy_across(&disk, 1, &mut frames, 0);
    assert_eq!(rt; load(&frames, 0, 0), 1);
}

#[test]
fn counts_stop_at_both_ends(rt: HostRuntime) {
    let mut counts = [65535u16, 0, 1];
    assert_eq!(rt; lowest_free(&counts), Some(1));
    count_up(&mut counts, 0);
    assert_eq!(rt; counts[0], 65535);
    count_down(&mut counts, 1);
    assert_eq!(rt; counts[1], 0);
    count_down(&mut counts, 2);
    assert_eq!(rt; counts[2], 0);
    count_up(&mut counts, 1);
    assert_eq!(rt; lowest_free(&counts), Some(2));
    count_up(&mut counts, 2);
    assert_eq!(rt; lowest_free(&counts), None);
    assert_eq!(rt; lowest_free(&[]), None);
}

#[test]
fn the_hand_passes_used_frames(rt: HostRuntime) {
    let mut used = [0u16, 1, 0];
    mark(&mut used, 0);
    let first = Hand::new().turn(&mut used);
    assert_eq!(rt;
        first,
        Turn {
            frame: 2,
            hand: Hand { at: 0 },
            looks: 3,
        }
    );
    assert!(rt; used[0] == 0 && used[1] == 0);
    let second = first.hand.turn(&mut used);
    assert_eq!(rt;
        second,
        Turn {
            frame: 0,
            hand: Hand { at: 1 },
            looks: 1,
        }
    );
}

#[test]
fn the_hand_comes_round(rt: HostRuntime) {
    let mut one = [1u16];
    assert_eq!(rt;
        Hand::new().turn(&mut one),
        Turn {
            frame: 0,
            hand: Hand { at: 0 },
            looks: 2,
        }
    );
    assert_eq!(rt; one[0], 0);
    let mut all = [1u16, 1, 1];
    assert_eq!(rt;
        Hand { at: 1 }.turn(&mut all),
        Turn {
            frame: 1,
            hand: Hand { at: 2 },
            looks: 4,
        }
    );
    let mut none = [0u16, 0];
    assert_eq!(rt;
        Hand { at: 9 }.turn(&mut none),
        Turn {
            frame: 0,
            hand: Hand { at: 1 },
            looks: 1,
        }
    );
}
