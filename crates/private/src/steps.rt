// The calls, one by one. What can fail for want of memory is done before anything changes.
ghost use Rattle.std.specs.Prelude.{Ok};
ghost use Rattle.requests.specs.declared.request.Call.TheVariants.{Fork, Leave, Map, Drop, Make, Look, Store};
ghost use Rattle.private.specs.Called.{Called};

use super::machine::Machine;
use super::page::{Address, Page, zeros};
use super::want::Want;
use requests::answer::Answer;

impl Machine {
    pub(crate) fn fork(&mut self, process: usize) -> Result<Answer, Want>
        ensures { Called self.old (Fork process) result self.new }
    {
        let Some(parent) = self.memory.living(process) else {
            return Ok(Answer::Fault);
        };
        let Some(child) = self.memory.free_process() else {
            return Ok(Answer::Full);
        };
        let copy = parent.clone()?;
        self.memory.put_process(child, copy);
        Ok(Answer::Done(child as u64))
    }

    pub(crate) fn go(&mut self, process: usize) -> Answer
        ensures { Called self.old (Leave process) (Ok result) self.new }
    {
        if !self.memory.is_alive(process) {
            return Answer::Fault;
        }
        self.memory.leave(process);
        Answer::Done(0)
    }

    pub(crate) fn map(&mut self, place: Address) -> Result<Answer, Want>
        ensures { Called self.old (Map place.process place.page) result self.new }
    {
        if !self.is_free(place) {
            return Ok(Answer::Fault);
        }
        let bytes = zeros(self.memory.heap)?;
        self.memory.put_page(place, Page::Own { label: 0, bytes });
        Ok(Answer::Done(0))
    }

    pub(crate) fn drop_page(&mut self, place: Address) -> Answer
        ensures { Called self.old (Drop place.process place.page) (Ok result) self.new }
    {
        if !self.is_used(place) {
            return Answer::Fault;
        }
        self.memory.put_page(place, Page::Absent);
        Answer::Done(0)
    }

    pub(crate) fn make(&mut self, place: Address) -> Result<Answer, Want>
        ensures { Called self.old (Make place.process place.page) result self.new }
    {
        if !self.is_free(place) {
            return Ok(Answer::Fault);
        }
        let Some(segment) = self.memory.free_segment() else {
            return Ok(Answer::Full);
        };
        if self.is_full()? {
            return Ok(Answer::Full);
        }
        let bytes = zeros(self.memory.heap)?;
        self.memory.put_segment(segment, bytes);
        self.memory.put_page(place, Page::Segment(segment));
        Ok(Answer::Done(segment as u64))
    }

    // The page at `place` becomes the segment that is at `from`.
    pub(crate) fn look(&mut self, place: Address, from: Address) -> Answer
        ensures { Called self.old (Look place.process place.page from.process from.page) (Ok result) self.new }
    {
        if !self.is_free(place) {
            return Answer::Fault;
        }
        if !self.is_inside(from) {
            return Answer::Fault;
        }
        let Some(shown) = self.memory.page(from) else {
            return Answer::Fault;
        };
        match shown {
            Page::Segment(number) => {
                let number = *number;
                self.memory.put_page(place, Page::Segment(number));
                Answer::Done(number as u64)
            }
            Page::Own { .. } | Page::Absent => Answer::Fault,
        }
    }

    // An own page that shares its label gets one of its own first, which has to be held anew.
    pub(crate) fn store(&mut self, place: Address, offset: usize, byte: u8) -> Result<Answer, Want>
        ensures { Called self.old (Store place.process place.page offset byte) result self.new }
    {
        if !self.reaches(place, offset) {
            return Ok(Answer::Fault);
        }
        let Some(target) = self.memory.page(place) else {
            return Ok(Answer::Fault);
        };
        let label = match target {
            Page::Own { label, .. } => *label,
            Page::Segment(number) => {
                let number = *number;
                self.memory.put_segment_byte(number, offset, byte);
                return Ok(Answer::Done(0));
            }
            Page::Absent => return Ok(Answer::Fault),
        };
        if !self.memory.shares(label) {
            self.memory.put_byte(place, label, offset, byte);
            return Ok(Answer::Done(0));
        }
        if self.is_full()? {
            return Ok(Answer::Full);
        }
        let fresh = self.memory.next;
        if fresh == u64::MAX {
            return Err(Want::Labels);
        }
        self.memory.put_byte(place, fresh, offset, byte);
        self.memory.next = fresh + 1;
        Ok(Answer::Done(0))
    }
}
