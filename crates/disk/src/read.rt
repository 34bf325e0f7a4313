// Memory is read: what a page is, where it lies, and which slots are true.
ghost use Rattle.std.specs.Prelude.{◌≡◌, ◌<◌};
ghost use Rattle.tables.specs.Cells.{cell, Within};
ghost use Rattle.tables.specs.Found.{LiesWithin};
ghost use Rattle.tables.specs.Rows.{entry_of};
ghost use Rattle.tables.specs.State.{found, walk};
ghost use Rattle.lookaside.specs.Purge.{purged};
ghost use Rattle.disk.specs.Memory.{state_of};

use crate::memory::Memory;
use lookaside::slots::Lookaside;
use tables::entry::Entry;
use tables::lent::Tables;
use tables::walk::Found;

impl Memory<'_> {
    // What a walk reads.
    fn tables(&self) -> Tables<'_>
        ensures limits { result.limits ≡ self.now.limits }
        ensures processes { result.processes ≡ self.now.processes }
        ensures pages { result.pages ≡ self.now.pages }
        ensures table { result.table.now ≡ self.now.lent.table.now }
        ensures segments { result.segments.now ≡ self.now.lent.segments.now }
        ensures frame_counts { result.frame_counts.now ≡ self.now.lent.frame_counts.now }
        ensures place_counts { result.place_counts.now ≡ self.now.lent.place_counts.now }
    {
        Tables {
            limits: self.limits,
            processes: self.processes,
            pages: self.pages,
            table: self.lent.table,
            segments: self.lent.segments,
            frame_counts: self.lent.frame_counts,
            place_counts: self.lent.place_counts,
        }
    }

    // What a page of a process is.
    pub fn entry(&self, process: usize, page: usize) -> Entry
        requires process_within { process < self.now.processes }
        requires page_within { page < self.now.pages }
        ensures value { cell self.now.limits.frames result ≡ entry_of (state_of self.now).rows process page }
        ensures within { Within self.now.limits result.target }
    {
        self.tables().entry(process, page)
    }

    // Where a page of a process lies.
    pub fn walk(&self, process: usize, page: usize) -> Found
        requires process_within { process < self.now.processes }
        requires page_within { page < self.now.pages }
        ensures value { found self.now.limits.frames result ≡ walk (state_of self.now) process page }
        ensures within { LiesWithin self.now.limits result.lies }
    {
        self.tables().walk(process, page)
    }

    // The slots that are true of this memory.
    pub fn purged(&self, lookaside: Lookaside) -> Lookaside
        ensures { result.slots ≡ purged (state_of self.now).rows (state_of self.now).segments (state_of self.now).counts self.now.limits.frames lookaside.slots }
    {
        lookaside.purge(&self.tables())
    }
}
