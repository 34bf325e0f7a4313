// How many entries name a frame or place, or look at a segment.
ghost use Rattle.std.specs.Prelude.{◌≡◌, ◌≤◌, ◌==◌, length};
ghost use Rattle.tables.specs.Cells.{decoded, Few};
ghost use Rattle.tables.specs.Rows.{cells};
ghost use Rattle.disk.specs.Follows.{named};
ghost use Rattle.simulation.specs.Over.{over, over_row};
ghost use Rattle.sound.specs.Picture.{pictured, rows_of, segments_of};
ghost use Rattle.sound.specs.Seek.{is_sought};
ghost use Rattle.sound.specs.Sound.{looks, state};

use crate::snapshot::Snapshot;
use tables::entry::{Entry, Limits, Target};

// Frames come first among the locations, and then places.
#[derive(Clone, Copy)]
pub(crate) enum Sought {
    Location(usize),
    Segment(usize),
}

impl Sought {
    // Whether this is what the entry of a code names.
    fn is_named_by(self, code: u16, limits: Limits) -> bool
        requires { Few limits }
        ensures { result ≡ (is_sought self (decoded limits code).holds == 1) }
    {
        match (self, Entry::decode(code, limits).target) {
            (Sought::Location(location), Target::Frame(frame)) => frame == location,
            (Sought::Location(location), Target::Place(place)) => limits.frames + place == location,
            (Sought::Segment(segment), Target::Segment(looked_at)) => looked_at == segment,
            _ => false,
        }
    }

    // How many entries of a table name this.
    fn count_in(self, table: &[u16], limits: Limits) -> usize
        requires { Few limits }
        ensures value { result ≡ over_row (is_sought self) (cells limits table.now) }
        ensures few { result ≤ length table.now }
    {
        table
            .iter()
            .filter(|code| self.is_named_by(**code, limits))
            .count()
    }
}

impl Snapshot<'_> {
    // In the page tables of all processes.
    #[tactic(auto, using(crate::proofs::Counting::over_rows))]
    pub(crate) fn count_in_pages(&self, sought: Sought) -> usize
        ensures value { result ≡ over (is_sought sought) (rows_of self.now) }
        ensures few { result ≤ 1024 }
    {
        sought.count_in(self.table, self.manager.limits())
    }

    fn count_in_segments(&self, sought: Sought) -> usize
        ensures value { result ≡ over_row (is_sought sought) (segments_of self.now) }
        ensures few { result ≤ 16 }
    {
        sought.count_in(self.segments, self.manager.limits())
    }

    // How many entries and segments name a frame or place.
    #[tactic(auto, unfolding(tables::specs::State::view))]
    pub(crate) fn names_of(&self, location: usize) -> usize
        ensures { result ≡ named (state (pictured self.now)) location }
    {
        let sought = Sought::Location(location);
        self.count_in_pages(sought) + self.count_in_segments(sought)
    }

    // How many entries look at a segment.
    #[tactic(auto, unfolding(tables::specs::State::view))]
    pub(crate) fn looks_of(&self, segment: usize) -> usize
        ensures { result ≡ looks (pictured self.now) segment }
    {
        self.count_in_pages(Sought::Segment(segment))
    }
}
