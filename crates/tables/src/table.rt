// The lent page table: pages entries for each process, one row after the other. Each contract is for every number n of rows that one may
// want to see of it. The table and how many pages a row has are no struct: a table is lent for one line, and a struct would be made for each.
ghost use Rattle.std.specs.Prelude.{◌≡◌, ℕ, ◌+◌, ◌*◌, ◌<◌, ◌≤◌, ◌≢◌, map, length};
ghost use Rattle.tables.specs.declared.entry.Limits.{Limits};
ghost use Rattle.tables.specs.Cells.{cell, decoded, Few, held_of, held_swapped, index_of, renamed, Within};
ghost use Rattle.tables.specs.Rows.{cells, cleared_row, entry_of, rows, shared_entry, shared_row, with_entry};

use crate::entry::{Entry, Limits, Target};

// The entry of a page of a process.
pub fn read(table: &[u16], limits: Limits, pages: usize, process: usize, page: usize) -> Entry
    requires inside { page < pages }
    requires long { process * pages + pages ≤ length table.now }
    ensures value { (n : ℕ) → process < n → cell limits.frames result ≡ entry_of (rows limits pages n table.now) process page }
    ensures within { Within limits result.target }
{
    Entry::decode(table[process * pages + page], limits)
}

// Writes the entry of a page of a process.
pub fn write(table: &mut [u16], pages: usize, process: usize, page: usize, entry: Entry)
    requires inside { page < pages }
    requires long { process * pages + pages ≤ length table.old }
    requires small { index_of entry.target < 1024 }
    ensures { (z : Limits) (n : ℕ) → Within z entry.target → rows z pages n table.new ≡ with_entry (rows z pages n table.old) process page (cell z.frames entry) }
{
    table[process * pages + page] = entry.encode();
}

// Makes all entries of a process absent.
pub fn clear_row(table: &mut [u16], pages: usize, process: usize)
    requires { process * pages + pages ≤ length table.old }
    ensures { (z : Limits) (n : ℕ) → rows z pages n table.new ≡ cleared_row (rows z pages n table.old) pages process }
{
    table[process * pages..process * pages + pages].fill(Entry::absent().encode());
}

// Copies the row of a process for its child: an own page with a frame or a place is marked in both rows, since a store has to look
// whether to copy it. By index: parent and child may be the same, so the rows are no two slices of their own.
pub fn copy_row(table: &mut [u16], limits: Limits, pages: usize, parent: usize, child: usize)
    requires parent_long { parent * pages + pages ≤ length table.old }
    requires child_long { child * pages + pages ≤ length table.old }
    requires few { Few limits }
    ensures { (n : ℕ) → parent < n → rows limits pages n table.new ≡ shared_row (rows limits pages n table.old) parent child pages }
{
    for page in 0..pages {
        share(table, limits, pages, parent, child, page);
    }
}

// Copies one entry of the row.
fn share(table: &mut [u16], limits: Limits, pages: usize, parent: usize, child: usize, page: usize)
    requires inside { page < pages }
    requires parent_long { parent * pages + pages ≤ length table.old }
    requires child_long { child * pages + pages ≤ length table.old }
    requires few { Few limits }
    ensures { (n : ℕ) → parent < n → rows limits pages n table.new ≡ shared_entry (rows limits pages n table.old) parent child page }
{
    let entry = read(table, limits, pages, parent, page).marked();
    write(table, pages, parent, page, entry);
    write(table, pages, child, page, entry);
}

// What a target becomes when a frame and a place change their names.
fn exchanged(target: Target, limits: Limits, frame: usize, place: usize) -> Target
    requires target_within { Within limits target }
    requires frame_within { frame < limits.frames }
    requires place_within { place < limits.places }
    ensures value { held_of limits.frames result ≡ held_swapped frame (limits.frames + place) (held_of limits.frames target) }
    ensures within { Within limits result }
{
    match target {
        Target::Frame(named) if named == frame => Target::Place(place),
        Target::Place(named) if named == place => Target::Frame(frame),
        other => other,
    }
}

// One entry with the frame and the place exchanged.
fn rename_code(code: u16, limits: Limits, frame: usize, place: usize) -> u16
    requires frame_within { frame < limits.frames }
    requires place_within { place < limits.places }
    requires few { Few limits }
    ensures { decoded limits result ≡ renamed frame (limits.frames + place) (decoded limits code) }
{
    let Entry { target, copy } = Entry::decode(code, limits);
    let target = exchanged(target, limits, frame, place);
    Entry { target, copy }.encode()
}

// Every entry that names the frame names the place and the other way round, marks kept. Serves the segment table too.
pub fn rename(table: &mut [u16], limits: Limits, frame: usize, place: usize)
    requires frame_within { frame < limits.frames }
    requires place_within { place < limits.places }
    requires few { Few limits }
    ensures { cells limits table.new ≡ map (renamed frame (limits.frames + place)) (cells limits table.old) }
{
    for code in table.iter_mut() {
        *code = rename_code(*code, limits, frame, place);
    }
}
