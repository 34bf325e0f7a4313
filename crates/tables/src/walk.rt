// The walk: from the page table and the segment table to where a page lies, and whether a store to it needs no copy.
ghost use Rattle.std.specs.Prelude.{◌≡◌, ℕ, ◌+◌, ◌*◌, ◌<◌, ◌≤◌, length, slice_index_or};
ghost use Rattle.tables.specs.Cells.{cell, held_of, none, Within};
ghost use Rattle.tables.specs.Lent.{counts_of, segments_of};
ghost use Rattle.tables.specs.Rows.{entry_of, rows};
ghost use Rattle.tables.specs.State.{found, ViewLaws, walked, walked_segment};
ghost use Rattle.tables.specs.Found.{LiesWithin};

use crate::entry::{Entry, Limits, Target};
use crate::lent::Tables;
use crate::table::read;

#[derive(Clone, Copy, PartialEq, Eq)]
pub enum Lies {
    Nowhere,
    Zeros,
    Frame(usize),
    Place(usize),
}

// Where a page lies, and whether a store there needs no copy.
#[derive(Clone, Copy, PartialEq, Eq)]
pub struct Found {
    pub lies: Lies,
    pub free: bool,
}

impl Tables<'_> {
    // What a page of a process is.
    pub fn entry(&self, process: usize, page: usize) -> Entry
        requires inside { page < self.now.pages }
        requires long { process * self.now.pages + self.now.pages ≤ length self.now.table.now }
        ensures value { (n : ℕ) → process < n → cell self.now.limits.frames result ≡ entry_of (rows self.now.limits self.now.pages n self.now.table.now) process page }
        ensures within { Within self.now.limits result.target }
    {
        read(self.table, self.limits, self.pages, process, page)
    }

    // Where a page of a process lies, and whether a store to it needs no copy.
    pub fn walk(&self, process: usize, page: usize) -> Found
        requires inside { page < self.now.pages }
        requires long { process * self.now.pages + self.now.pages ≤ length self.now.table.now }
        ensures value { (n : ℕ) → process < n → found self.now.limits.frames result ≡ walked (segments_of self.now) (counts_of self.now) (entry_of (rows self.now.limits self.now.pages n self.now.table.now) process page).holds }
        ensures within { LiesWithin self.now.limits result.lies }
    {
        self.target_found(self.entry(process, page).target)
    }

    // Where what an entry names lies.
    fn target_found(&self, target: Target) -> Found
        requires { Within self.now.limits target }
        ensures value { found self.now.limits.frames result ≡ walked (segments_of self.now) (counts_of self.now) (held_of self.now.limits.frames target) }
        ensures within { LiesWithin self.now.limits result.lies }
    {
        match target {
            Target::Absent => Found {
                lies: Lies::Nowhere,
                free: false,
            },
            Target::Zero => Found {
                lies: Lies::Zeros,
                free: false,
            },
            Target::Frame(frame) => Found {
                lies: Lies::Frame(frame),
                free: self.frame_counts[frame] <= 1,
            },
            Target::Place(place) => Found {
                lies: Lies::Place(place),
                free: self.place_counts[place] <= 1,
            },
            Target::Segment(segment) => self.segment_found(segment),
        }
    }

    // Where a segment lies.
    fn segment_found(&self, segment: usize) -> Found
        requires { segment < self.now.limits.segments }
        ensures value { found self.now.limits.frames result ≡ walked_segment (slice_index_or (segments_of self.now) segment none).holds }
        ensures within { LiesWithin self.now.limits result.lies }
    {
        let entry = Entry::decode(self.segments[segment], self.limits);
        at_location(entry.target, self.limits)
    }
}

// A segment is at a frame or a place, or nowhere. A store to it needs no copy.
fn at_location(target: Target, limits: Limits) -> Found
    requires { Within limits target }
    ensures value { found limits.frames result ≡ walked_segment (held_of limits.frames target) }
    ensures within { LiesWithin limits result.lies }
{
    match target {
        Target::Frame(frame) => Found {
            lies: Lies::Frame(frame),
            free: true,
        },
        Target::Place(place) => Found {
            lies: Lies::Place(place),
            free: true,
        },
        Target::Absent | Target::Zero | Target::Segment(_) => Found {
            lies: Lies::Nowhere,
            free: false,
        },
    }
}

// What all lent memory means, and how one changed list changes that: the laws that functions which change several lists are proved by.
pub fn view_laws()
    ensures { ViewLaws }
{}
