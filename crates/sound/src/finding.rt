// What is wrong with a state, by where it is. What is there instead can be read in the state.
#[derive(Clone, Copy, PartialEq, Eq, Debug)]
pub enum Finding {
    // the count of a frame or place is not the number of entries and segments that name it; places come after the frames
    Count { location: usize },
    // the count of a segment is not the number of entries that look at it
    Lookers { segment: usize },
    // the number in the segment table is no frame or place without mark
    SegmentEntry { segment: usize },
    // somebody looks at the segment, and it lies nowhere
    SegmentNowhere { segment: usize },
    // somebody looks at the segment, and it shares its frame or place
    SegmentShares { segment: usize },
    // nobody looks at the segment, and it lies somewhere
    SegmentIdle { segment: usize },
    // the number in the page table is no entry that a call writes
    PageEntry { process: usize, page: usize },
    // the process is not there, and has a page
    PageOfNobody { process: usize, page: usize },
    // an own page without mark that others have too
    PageUnmarked { process: usize, page: usize },
    // a slot of the look-aside table that is in the wrong place, or says what a walk does not answer
    SlotLies { slot: usize },
    // a used mark that is neither 0 nor 1
    UsedMark { frame: usize },
    // the hand rests at no frame
    HandAstray,
}

// What will be looked at, one thing after the other.
#[derive(Clone, Copy)]
pub(crate) enum Check {
    Counts,
    Lookers,
    SegmentEntries,
    SegmentPlaces,
    PageEntries,
    PagesOfNobody,
    UnmarkedPages,
    Slots,
    UsedMarks,
    Hand,
}

pub(crate) const CHECKS: [Check; 10] = [
    Check::Counts,
    Check::Lookers,
    Check::SegmentEntries,
    Check::SegmentPlaces,
    Check::PageEntries,
    Check::PagesOfNobody,
    Check::UnmarkedPages,
    Check::Slots,
    Check::UsedMarks,
    Check::Hand,
];
