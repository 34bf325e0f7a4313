// Memory is changed in one place: a byte, a used mark, an entry, the row of a child.
ghost use Rattle.std.specs.Prelude.{◌≡◌, ℕ, ◌+◌, ◌*◌, ◌<◌, ◌≤◌, length, slice_index, slice_set};
ghost use Rattle.frames.specs.Cut.{row, stored};
ghost use Rattle.tables.specs.declared.entry.Limits.{Limits};
ghost use Rattle.tables.specs.Cells.{cell, Few, index_of, Within};
ghost use Rattle.tables.specs.Lent.{lists, shape};
ghost use Rattle.tables.specs.Rows.{shared_row, with_entry};
ghost use Rattle.tables.specs.State.{view, with_pages, with_rows};
ghost use Rattle.disk.specs.Memory.{fixed, Located, marks, state_of};
ghost use Rattle.disk.specs.Whole.{with_used};

use crate::memory::Memory;
use frames::{hand, memory};
use tables::entry::{Entry, Limits};
use tables::lent::Lent;
use tables::table;

// Writes one byte of a frame.
fn put_byte(lent: &mut Lent<'_>, limits: Limits, frame: usize, offset: usize, byte: u8)
    requires frame_within { frame < limits.frames }
    requires offset_within { offset < 256 }
    requires located { Located limits lent.old }
    ensures kept { shape lent.new ≡ shape lent.old }
    ensures stored { (pages processes : ℕ) → view limits pages processes (lists lent.new) ≡ with_pages (view limits pages processes (lists lent.old)) (stored (view limits pages processes (lists lent.old)).pages frame offset byte) }
{
    memory::store(lent.frames, frame, offset, byte);
}

// Sets the used mark of a frame.
fn put_mark(lent: &mut Lent<'_>, frame: usize)
    requires { frame < length lent.old.used.now }
    ensures kept { shape lent.new ≡ shape lent.old }
    ensures marked { lists lent.new ≡ marks (lists lent.old) (slice_set lent.old.used.now frame 1) }
{
    hand::mark(lent.used, frame);
}

// Writes an entry of a page table.
fn put_entry(lent: &mut Lent<'_>, pages: usize, process: usize, page: usize, entry: Entry)
    requires inside { page < pages }
    requires long { process * pages + pages ≤ length lent.old.table.now }
    requires small { index_of entry.target < 1024 }
    ensures kept { shape lent.new ≡ shape lent.old }
    ensures written { (z : Limits) (n : ℕ) → Within z entry.target → view z pages n (lists lent.new) ≡ with_rows (view z pages n (lists lent.old)) (with_entry (view z pages n (lists lent.old)).rows process page (cell z.frames entry)) }
{
    table::write(lent.table, pages, process, page, entry);
}

// Copies the row of a process for its child.
fn put_row(lent: &mut Lent<'_>, limits: Limits, pages: usize, parent: usize, child: usize)
    requires parent_long { parent * pages + pages ≤ length lent.old.table.now }
    requires child_long { child * pages + pages ≤ length lent.old.table.now }
    requires few { Few limits }
    ensures kept { shape lent.new ≡ shape lent.old }
    ensures shared { (n : ℕ) → parent < n → view limits pages n (lists lent.new) ≡ with_rows (view limits pages n (lists lent.old)) (shared_row (view limits pages n (lists lent.old)).rows parent child pages) }
{
    table::copy_row(lent.table, limits, pages, parent, child);
}

impl Memory<'_> {
    // One byte of a frame.
    pub fn load(&self, frame: usize, offset: usize) -> u8
        requires frame_within { frame < self.now.limits.frames }
        requires offset_within { offset < 256 }
        ensures { result ≡ slice_index (row (state_of self.now).pages frame) offset }
    {
        memory::load(self.lent.frames, frame, offset)
    }

    // Writes one byte of a frame.
    pub fn store(&mut self, frame: usize, offset: usize, byte: u8)
        requires frame_within { frame < self.old.limits.frames }
        requires offset_within { offset < 256 }
        ensures fixed { fixed self.new ≡ fixed self.old }
        ensures stored { state_of self.new ≡ with_pages (state_of self.old) (stored (state_of self.old).pages frame offset byte) }
    {
        let limits = self.limits;
        put_byte(&mut self.lent, limits, frame, offset, byte);
    }

    // Sets the used mark of a frame that a load or a store has reached.
    pub fn mark(&mut self, frame: usize)
        requires { frame < self.old.limits.frames }
        ensures fixed { fixed self.new ≡ fixed self.old }
        ensures marked { state_of self.new ≡ with_used (state_of self.old) (slice_set (state_of self.old).used frame 1) }
    {
        put_mark(&mut self.lent, frame);
    }

    // Makes a page of a process what the entry says.
    pub fn set_entry(&mut self, process: usize, page: usize, entry: Entry)
        requires process_within { process < self.old.processes }
        requires page_within { page < self.old.pages }
        requires within { Within self.old.limits entry.target }
        ensures fixed { fixed self.new ≡ fixed self.old }
        ensures written { state_of self.new ≡ with_rows (state_of self.old) (with_entry (state_of self.old).rows process page (cell self.old.limits.frames entry)) }
    {
        let pages = self.pages;
        put_entry(&mut self.lent, pages, process, page, entry);
    }

    // Gives a child the pages of its parent: an own page with a frame or a place is marked in both rows, since a store has to look whether
    // to copy it.
    pub fn share_row(&mut self, parent: usize, child: usize)
        requires parent_within { parent < self.old.processes }
        requires child_within { child < self.old.processes }
        ensures fixed { fixed self.new ≡ fixed self.old }
        ensures shared { state_of self.new ≡ with_rows (state_of self.old) (shared_row (state_of self.old).rows parent child self.old.pages) }
    {
        let limits = self.limits;
        let pages = self.pages;
        put_row(&mut self.lent, limits, pages, parent, child);
    }
}
