// A page looks at a segment, and a page of any kind is dropped. Each function is lent the lists that it uses and no more, so that nobody is asked for
// others; those that end in `_lent` are the same on all memory as one value.
ghost use Rattle.std.specs.Prelude.{◌≡◌, ℕ, ◌+◌, ◌*◌, ◌<◌, ◌≤◌, List, length, slice_set};
ghost use Rattle.tables.specs.declared.entry.Limits.{Limits};
ghost use Rattle.tables.specs.Cells.{cell, Few, held_of, index_of, Within};
ghost use Rattle.tables.specs.Lent.{lists, shape};
ghost use Rattle.tables.specs.Rows.{cells};
ghost use Rattle.tables.specs.State.{view, with_table};
ghost use Rattle.disk.specs.Moves.{lent};
ghost use Rattle.segments.specs.Asked.{bytes_of, lent_with_lookers, Named};
ghost use Rattle.segments.specs.Release.{dropped, given_back, left, looked, lowered, unnamed};

use frames::counts::{count_down, count_up};
use tables::entry::{Entry, Limits, Target};
use tables::lent::Lent;
use tables::table;

// Writes where a segment lies.
pub(crate) fn put_segment(segments: &mut [u16], segment: usize, entry: Entry)
    requires within { segment < length segments.old }
    requires small { index_of entry.target < 1024 }
    ensures { (z : Limits) → Within z entry.target → cells z segments.new ≡ slice_set (cells z segments.old) segment (cell z.frames entry) }
{
    segments[segment] = entry.encode();
}

// Page `page` of `process` looks at a segment.
pub fn look(
    table: &mut [u16],
    lookers: &mut [u16],
    limits: Limits,
    pages: usize,
    process: usize,
    page: usize,
    segment: usize,
)
    requires inside { page < pages }
    requires long { process * pages + pages ≤ length table.old }
    requires few { Few limits }
    requires segment_within { segment < limits.segments }
    requires lookers { length lookers.old ≡ limits.segments }
    ensures { (processes : ℕ) (segments counts used places frames disk : List ℕ) → process < processes → view limits pages processes (lent table.new segments lookers.new counts used places frames disk) ≡ looked (view limits pages processes (lent table.old segments lookers.old counts used places frames disk)) process page segment }
{
    table::write(
        table,
        pages,
        process,
        page,
        Entry {
            target: Target::Segment(segment),
            copy: false,
        },
    );
    count_up(lookers, segment);
}

// `look` on all memory as one value.
pub fn look_lent(
    lent: &mut Lent<'_>,
    limits: Limits,
    pages: usize,
    process: usize,
    page: usize,
    segment: usize,
)
    requires inside { page < pages }
    requires long { process * pages + pages ≤ length lent.old.table.now }
    requires few { Few limits }
    requires segment_within { segment < limits.segments }
    requires lookers { length lent.old.lookers.now ≡ limits.segments }
    ensures kept { shape lent.new ≡ shape lent.old }
    ensures rest { lists lent.new ≡ lent_with_lookers (with_table (lists lent.old) lent.new.table.now) lent.new.lookers.now }
    ensures looked { (processes : ℕ) → process < processes → view limits pages processes (lists lent.new) ≡ looked (view limits pages processes (lists lent.old)) process page segment }
{
    look(
        lent.table,
        lent.lookers,
        limits,
        pages,
        process,
        page,
        segment,
    );
}

// What lies at a frame or a place has one name less.
fn lower(frame_counts: &mut [u16], place_counts: &mut [u16], limits: Limits, target: Target)
    requires target_within { Within limits target }
    requires frame_counts { length frame_counts.old ≡ limits.frames }
    requires place_counts { length place_counts.old ≡ limits.places }
    ensures { (pages processes : ℕ) (table segments lookers used frames disk : List ℕ) → view limits pages processes (lent table segments lookers frame_counts.new used place_counts.new frames disk) ≡ lowered (view limits pages processes (lent table segments lookers frame_counts.old used place_counts.old frames disk)) (held_of limits.frames target) }
{
    match target {
        Target::Frame(frame) => count_down(frame_counts, frame),
        Target::Place(place) => count_down(place_counts, place),
        Target::Absent | Target::Zero | Target::Segment(_) => {}
    }
}

// A segment that nobody looks at any more gives its frame or place back, and lies nowhere.
fn give_back(
    segments: &mut [u16],
    frame_counts: &mut [u16],
    place_counts: &mut [u16],
    limits: Limits,
    segment: usize,
)
    requires segment_within { segment < limits.segments }
    requires segments { length segments.old ≡ limits.segments }
    requires frame_counts { length frame_counts.old ≡ limits.frames }
    requires place_counts { length place_counts.old ≡ limits.places }
    ensures { (pages processes : ℕ) (table lookers used frames disk : List ℕ) → view limits pages processes (lent table segments.new lookers frame_counts.new used place_counts.new frames disk) ≡ given_back (view limits pages processes (lent table segments.old lookers frame_counts.old used place_counts.old frames disk)) segment }
{
    let entry = Entry::decode(segments[segment], limits);
    lower(frame_counts, place_counts, limits, entry.target);
    put_segment(segments, segment, Entry::absent());
}

// One less looks at a segment.
fn leave(
    segments: &mut [u16],
    lookers: &mut [u16],
    frame_counts: &mut [u16],
    place_counts: &mut [u16],
    limits: Limits,
    segment: usize,
)
    requires segment_within { segment < limits.segments }
    requires segments { length segments.old ≡ limits.segments }
    requires lookers { length lookers.old ≡ limits.segments }
    requires frame_counts { length frame_counts.old ≡ limits.frames }
    requires place_counts { length place_counts.old ≡ limits.places }
    ensures { (pages processes : ℕ) (table used frames disk : List ℕ) → view limits pages processes (lent table segments.new lookers.new frame_counts.new used place_counts.new frames disk) ≡ left (view limits pages processes (lent table segments.old lookers.old frame_counts.old used place_counts.old frames disk)) segment }
{
    count_down(lookers, segment);
    let unseen = lookers[segment] == 0;
    if unseen {
        give_back(segments, frame_counts, place_counts, limits, segment);
    }
}

// What an entry named has one name less.
fn unname(
    segments: &mut [u16],
    lookers: &mut [u16],
    frame_counts: &mut [u16],
    place_counts: &mut [u16],
    limits: Limits,
    target: Target,
)
    requires target_within { Within limits target }
    requires segments { length segments.old ≡ limits.segments }
    requires lookers { length lookers.old ≡ limits.segments }
    requires frame_counts { length frame_counts.old ≡ limits.frames }
    requires place_counts { length place_counts.old ≡ limits.places }
    ensures { (pages processes : ℕ) (table used frames disk : List ℕ) → view limits pages processes (lent table segments.new lookers.new frame_counts.new used place_counts.new frames disk) ≡ unnamed (view limits pages processes (lent table segments.old lookers.old frame_counts.old used place_counts.old frames disk)) (held_of limits.frames target) }
{
    match target {
        Target::Segment(segment) => leave(
            segments,
            lookers,
            frame_counts,
            place_counts,
            limits,
            segment,
        ),
        other => lower(frame_counts, place_counts, limits, other),
    }
}

// A page of any kind is dropped: its entry becomes absent, and what it named has one name less.
pub fn drop_page(
    table: &mut [u16],
    segments: &mut [u16],
    lookers: &mut [u16],
    frame_counts: &mut [u16],
    place_counts: &mut [u16],
    limits: Limits,
    pages: usize,
    process: usize,
    page: usize,
)
    requires inside { page < pages }
    requires long { process * pages + pages ≤ length table.old }
    requires segments { length segments.old ≡ limits.segments }
    requires lookers { length lookers.old ≡ limits.segments }
    requires frame_counts { length frame_counts.old ≡ limits.frames }
    requires place_counts { length place_counts.old ≡ limits.places }
    ensures { (processes : ℕ) (used frames disk : List ℕ) → process < processes → view limits pages processes (lent table.new segments.new lookers.new frame_counts.new used place_counts.new frames disk) ≡ dropped (view limits pages processes (lent table.old segments.old lookers.old frame_counts.old used place_counts.old frames disk)) process page }
{
    let target = table::read(table, limits, pages, process, page).target;
    table::write(table, pages, process, page, Entry::absent());
    unname(
        segments,
        lookers,
        frame_counts,
        place_counts,
        limits,
        target,
    );
}

// `drop_page` on all memory as one value.
pub fn drop_page_lent(
    lent: &mut Lent<'_>,
    limits: Limits,
    pages: usize,
    process: usize,
    page: usize,
)
    requires inside { page < pages }
    requires long { process * pages + pages ≤ length lent.old.table.now }
    requires named { Named limits lent.old }
    ensures kept { shape lent.new ≡ shape lent.old }
    ensures bytes { bytes_of lent.new ≡ bytes_of lent.old }
    ensures dropped { (processes : ℕ) → process < processes → view limits pages processes (lists lent.new) ≡ dropped (view limits pages processes (lists lent.old)) process page }
{
    drop_page(
        lent.table,
        lent.segments,
        lent.lookers,
        lent.frame_counts,
        lent.place_counts,
        limits,
        pages,
        process,
        page,
    );
}
