// The entries of the page tables and of the segment table.
ghost use Rattle.std.specs.Prelude.{◌≡◌, ◌<◌, slice_index_or};
ghost use Rattle.tables.specs.Cells.{cell, index_of, none, Within};
ghost use Rattle.tables.specs.Rows.{entry_of};
ghost use Rattle.calls.specs.Memory.{limits_of};
ghost use Rattle.sound.specs.Picture.{rows_of, segments_of};

use crate::snapshot::Snapshot;
use tables::entry::Entry;
use tables::table::read;

impl Snapshot<'_> {
    // The entry of a page of a process.
    pub(crate) fn entry_at(&self, process: usize, page: usize) -> Entry
        requires process { process < self.now.manager.sizes.processes }
        requires page { page < self.now.manager.sizes.pages }
        ensures value { cell self.now.manager.sizes.frames result ≡ entry_of (rows_of self.now) process page }
        ensures within { Within (limits_of self.now.manager.sizes) result.target }
        ensures small { index_of result.target < 1024 }
    {
        let pages = self.manager.sizes.pages;
        read(self.table, self.manager.limits(), pages, process, page)
    }

    // Where a segment lies, by the segment table.
    pub(crate) fn segment_entry(&self, segment: usize) -> Entry
        requires { segment < self.now.manager.sizes.segments }
        ensures value { cell self.now.manager.sizes.frames result ≡ slice_index_or (segments_of self.now) segment none }
        ensures within { Within (limits_of self.now.manager.sizes) result.target }
        ensures small { index_of result.target < 1024 }
    {
        Entry::decode(self.segments[segment], self.manager.limits())
    }
}
