// What a store does once it has its frame.
ghost use Rattle.std.specs.Prelude.{◌≡◌, ℕ, ◌+◌, ◌*◌, ◌<◌, ◌≤◌, length};
ghost use Rattle.tables.specs.declared.entry.Limits.{Limits};
ghost use Rattle.frames.specs.Counts.{counted_up};
ghost use Rattle.tables.specs.Lent.{lists, shape};
ghost use Rattle.tables.specs.Rows.{rows, with_entry};
ghost use Rattle.tables.specs.State.{view, with_frame_counts, with_table};
ghost use Rattle.copies.specs.Asked.{Storable};
ghost use Rattle.copies.specs.Stores.{copy_stored, first_stored, own_cell, stored_in_place};

use frames::counts::{count_down, count_up};
use frames::memory;
use tables::entry::{Entry, Limits, Target};
use tables::lent::Lent;
use tables::table;

// The byte that is stored, and where.
#[derive(Clone, Copy, PartialEq, Eq, Debug)]
pub struct Store {
    pub process: usize,
    pub page: usize,
    pub offset: usize,
    pub byte: u8,
}

// The page is in this frame now, which one more entry names: nobody else gets the frame.
fn attach(lent: &mut Lent<'_>, pages: usize, store: Store, frame: usize)
    requires inside { store.page < pages }
    requires long { store.process * pages + pages ≤ length lent.old.table.now }
    requires small { frame < 1024 }
    requires counts { frame < length lent.old.frame_counts.now }
    ensures kept { shape lent.new ≡ shape lent.old }
    ensures lists { lists lent.new ≡ with_frame_counts (with_table (lists lent.old) lent.new.table.now) (counted_up lent.old.frame_counts.now frame) }
    ensures rows { (z : Limits) (n : ℕ) → frame < z.frames → rows z pages n lent.new.table.now ≡ with_entry (rows z pages n lent.old.table.now) store.process store.page (own_cell frame) }
{
    count_up(lent.frame_counts, frame);
    let entry = Entry {
        target: Target::Frame(frame),
        copy: false,
    };
    table::write(lent.table, pages, store.process, store.page, entry);
}

// The first store to a page of zeros. The frame was free.
pub(crate) fn first_store(
    lent: &mut Lent<'_>,
    limits: Limits,
    pages: usize,
    store: Store,
    frame: usize,
)
    requires { Storable limits pages lent.old store frame }
    ensures kept { shape lent.new ≡ shape lent.old }
    ensures stored { (processes : ℕ) → store.process < processes → view limits pages processes (lists lent.new) ≡ first_stored (view limits pages processes (lists lent.old)) store.process store.page frame store.offset store.byte }
{
    memory::clear(lent.frames, frame);
    memory::store(lent.frames, frame, store.offset, store.byte);
    attach(lent, pages, store, frame);
}

// A store to a copy of a page that lies in a frame and that others have too. The frame of the copy was free. One function for this and the next
// would ask in each of its lines whether the page lies in a frame or on the disk.
pub(crate) fn copy_from_frame(
    lent: &mut Lent<'_>,
    limits: Limits,
    pages: usize,
    store: Store,
    source: usize,
    frame: usize,
)
    requires storable { Storable limits pages lent.old store frame }
    requires source_within { source < limits.frames }
    ensures kept { shape lent.new ≡ shape lent.old }
    ensures stored { (processes : ℕ) → store.process < processes → view limits pages processes (lists lent.new) ≡ copy_stored (view limits pages processes (lists lent.old)) store.process store.page source frame store.offset store.byte }
{
    memory::copy(lent.frames, source, frame);
    memory::store(lent.frames, frame, store.offset, store.byte);
    count_down(lent.frame_counts, source);
    attach(lent, pages, store, frame);
}

// A store to a copy of a page that lies on the disk and that others have too: it is read straight into the frame of the copy, and stays.
pub(crate) fn copy_from_place(
    lent: &mut Lent<'_>,
    limits: Limits,
    pages: usize,
    store: Store,
    source: usize,
    frame: usize,
)
    requires storable { Storable limits pages lent.old store frame }
    requires source_within { source < limits.places }
    ensures kept { shape lent.new ≡ shape lent.old }
    ensures stored { (processes : ℕ) → store.process < processes → view limits pages processes (lists lent.new) ≡ copy_stored (view limits pages processes (lists lent.old)) store.process store.page (limits.frames + source) frame store.offset store.byte }
{
    let disk = &mut *lent.disk;
    let frames = &mut *lent.frames;
    memory::copy_across(disk, source, frames, frame);
    memory::store(lent.frames, frame, store.offset, store.byte);
    count_down(lent.place_counts, source);
    attach(lent, pages, store, frame);
}

// A store where nobody else has the page. A mark that is still there from a time when somebody had it is cleared.
pub(crate) fn store_in_place(
    lent: &mut Lent<'_>,
    limits: Limits,
    pages: usize,
    store: Store,
    frame: usize,
)
    requires { Storable limits pages lent.old store frame }
    ensures kept { shape lent.new ≡ shape lent.old }
    ensures stored { (processes : ℕ) → store.process < processes → view limits pages processes (lists lent.new) ≡ stored_in_place (view limits pages processes (lists lent.old)) store.process store.page frame store.offset store.byte }
{
    memory::store(lent.frames, frame, store.offset, store.byte);
    let entry = Entry {
        target: Target::Frame(frame),
        copy: false,
    };
    table::write(lent.table, pages, store.process, store.page, entry);
}
