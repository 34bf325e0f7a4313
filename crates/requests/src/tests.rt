use crate::answer::*;
use crate::request::*;
use crate::row;
use crate::sizes::*;
use std::test::Fail;

#[test]
fn sizes_are_held_to_their_ranges(rt: HostRuntime) {
    let answers = [
        ([1, 1, 0, 1, 0], Ok(())),
        ([16, 64, 16, 512, 512], Ok(())),
        ([0, 1, 0, 1, 0], Err(Refusal::Size(Size::Processes))),
        ([17, 64, 16, 512, 512], Err(Refusal::Size(Size::Processes))),
        ([1, 0, 0, 1, 0], Err(Refusal::Size(Size::Pages))),
        ([16, 65, 16, 512, 512], Err(Refusal::Size(Size::Pages))),
        ([16, 64, 17, 512, 512], Err(Refusal::Size(Size::Segments))),
        ([1, 1, 0, 0, 0], Err(Refusal::Size(Size::Frames))),
        ([16, 64, 16, 513, 512], Err(Refusal::Size(Size::Frames))),
        ([16, 64, 16, 512, 513], Err(Refusal::Size(Size::Places))),
        // the first of two
        ([16, 65, 16, 512, 513], Err(Refusal::Size(Size::Pages))),
    ];
    for ([processes, pages, segments, frames, places], answer) in answers {
        let sizes = Sizes {
            processes,
            pages,
            segments,
            frames,
            places,
        };
        assert_eq!(rt; sizes.check(), answer);
    }
}

#[test]
fn sizes_are_read_low_byte_first(rt: HostRuntime) {
    // a byte past the tenth is not read
    let long = Sizes::from_bytes(&[16, 0, 64, 0, 17, 0, 0, 2, 1, 2, 255]);
    assert_eq!(rt;
        long,
        Sizes {
            processes: 16,
            pages: 64,
            segments: 17,
            frames: 512,
            places: 513,
        }
    );
    let short = Sizes::from_bytes(&[1, 0, 1]);
    assert_eq!(rt;
        short,
        Sizes {
            processes: 1,
            pages: 1,
            segments: 0,
            frames: 0,
            places: 0,
        }
    );
}

#[test]
fn rows_are_refused_as_a_whole(rt: HostRuntime) -> Result<(), Fail> {
    let row = [9, 0, 0, 0, 0, 0, 0, 0, 10, 0, 0, 0, 0, 0, 0, 0];
    let answers = [
        (0, 0, Ok(0)),
        (0, 7, Err(Refusal::Length(7))),
        (0, 8, Ok(1)),
        (0, 9, Err(Refusal::Length(9))),
        (1, 9, Err(Refusal::Kind(0))),
        (0, 16, Err(Refusal::Kind(1))),
        // the length is looked at before the kinds
        (1, 10, Err(Refusal::Length(9))),
    ];
    for (start, end, answer) in answers {
        assert_eq!(rt;
            row::count(row.get(start..end).ok_or("no such part")?),
            answer
        );
    }
    Ok(())
}

#[test]
fn calls_are_read_of_eight_bytes(rt: HostRuntime) {
    let (process, page) = (10, 20);
    let (from_process, from_page) = (30, 40);
    let (offset, byte) = (30, 40);
    let calls = [
        None,
        Some(Call::Fork { process }),
        Some(Call::Leave { process }),
        Some(Call::Map { process, page }),
        Some(Call::Drop { process, page }),
        Some(Call::Make { process, page }),
        Some(Call::Look {
            process,
            page,
            from_process,
            from_page,
        }),
        Some(Call::Load {
            process,
            page,
            offset,
        }),
        Some(Call::Store {
            process,
            page,
            offset,
            byte,
        }),
        Some(Call::Counts),
        None,
    ];
    for (kind, call) in (0u8..11).zip(calls) {
        // the last three bytes are not read
        let row = [1, 0, 0, 0, 0, 0, 0, 0, kind, 10, 20, 30, 40, 0, 255, kind];
        assert_eq!(rt; row::call_at(&row, 1), call);
    }
    assert!(rt; row::call_at(&[1, 0, 0, 0, 0, 0, 0], 0).is_none());
}

#[test]
fn calls_are_written(rt: HostRuntime) -> Result<(), Fail> {
    let look = Call::Look {
        process: 1,
        page: 2,
        from_process: 3,
        from_page: 40,
    };
    let store = Call::Store {
        process: 1,
        page: 2,
        offset: 255,
        byte: 7,
    };
    let text = format!(in rt.alloc(); "{look}, {store}, {}", Call::Counts)?;
    assert_eq!(rt; text.as_str(), "look 1 2 3 40, store 1 2 255 7, counts");
    Ok(())
}

#[test]
fn answers_and_refusals_are_written(rt: HostRuntime) -> Result<(), Fail> {
    let (done, full, fault) = (Answer::Done(512), Answer::Full, Answer::Fault);
    let refusal = Refusal::Length(9);
    let text = format!(in rt.alloc(); "{done}, {full}, {fault}, {refusal}")?;
    assert_eq!(rt; text.as_str(), "done 512, full, fault, refused 3 9");
    Ok(())
}
