// What a call asks before it changes anything.
ghost use Rattle.std.specs.Prelude.{◌≡◌, slice_index};
ghost use Rattle.fold.specs.Fold.{there};
ghost use Rattle.requests.specs.Meaning.{answered};
ghost use Rattle.private.specs.Called.{world};
ghost use Rattle.private.specs.See.{see, page_at, inside_at, reached_at, free_at, used_at, shared_at, load_at, segment_at};

use super::machine::Machine;
use super::memory::Memory;
use super::page::{Address, BYTES, Page, Sought};
use requests::answer::Answer;
use requests::sizes::byte_at;

impl Memory {
    pub(crate) fn has_page(&self, place: Address) -> bool
        ensures { result ≡ there (page_at (see self.now) place.process place.page) }
    {
        self.page(place).is_some_and(Page::is_there)
    }

    // Whether a page of that label is not the only one, or is a page of zeros that nobody has stored to.
    pub(crate) fn shares(&self, label: u64) -> bool
        ensures { result ≡ shared_at (see self.now) label }
    {
        label == 0 || self.has(2, Sought::Labelled(label))
    }

    // A byte of a segment, or 0 past its end.
    pub(crate) fn segment_byte(&self, segment: usize, offset: usize) -> u8
        ensures { result ≡ slice_index (segment_at (see self.now) segment) offset }
    {
        self.segments
            .get(segment)
            .map_or(0, |bytes| byte_at(bytes.as_slice(), offset))
    }
}

impl Machine {
    // Whether a process is there and may have a page of that number.
    pub(crate) fn is_inside(&self, place: Address) -> bool
        ensures { result ≡ inside_at self.now.sizes (world self.now) place.process place.page }
    {
        self.memory.is_alive(place.process) && place.page < self.sizes.pages
    }

    // Whether it may have that page, and a page has that byte.
    pub(crate) fn reaches(&self, place: Address, offset: usize) -> bool
        ensures { result ≡ reached_at self.now.sizes (world self.now) place.process place.page offset }
    {
        self.is_inside(place) && offset < BYTES
    }

    pub(crate) fn is_free(&self, place: Address) -> bool
        ensures { result ≡ free_at self.now.sizes (world self.now) place.process place.page }
    {
        self.is_inside(place) && !self.memory.has_page(place)
    }

    pub(crate) fn is_used(&self, place: Address) -> bool
        ensures { result ≡ used_at self.now.sizes (world self.now) place.process place.page }
    {
        self.is_inside(place) && self.memory.has_page(place)
    }

    pub(crate) fn load(&self, place: Address, offset: usize) -> Answer
        ensures { answered result ≡ load_at self.now.sizes place.process place.page offset (world self.now) }
    {
        if !self.reaches(place, offset) {
            return Answer::Fault;
        }
        let Some(page) = self.memory.page(place) else {
            return Answer::Fault;
        };
        match page {
            Page::Own { bytes, .. } => Answer::Done(u64::from(byte_at(bytes.as_slice(), offset))),
            Page::Segment(number) => {
                Answer::Done(u64::from(self.memory.segment_byte(*number, offset)))
            }
            Page::Absent => Answer::Fault,
        }
    }
}
