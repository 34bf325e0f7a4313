// Lent memory of exactly the size that the machine has.
ghost use Rattle.std.specs.Prelude.{◌≡◌, ◌*◌, ◌<◌, ◌≤◌, length};

use tables::entry::Limits;
use tables::lent::Lent;

// Nothing is said of how many lookers there are: only the calls that change them ask it, and a field would ask it of all.
#[derive(Drop)]
pub struct Memory<'a> {
    pub limits: Limits,
    pub processes: usize,
    pub pages: usize,
    pub lent: Lent<'a>,
    ghost some_frames: { 0 < limits.frames },
    ghost few_frames: { limits.frames ≤ 1024 },
    ghost few_places: { limits.places ≤ 1024 },
    ghost few_segments: { limits.segments ≤ 1024 },
    ghost table_length: { length lent.table.now ≡ processes * pages },
    ghost segments_length: { length lent.segments.now ≡ limits.segments },
    ghost frame_counts_length: { length lent.frame_counts.now ≡ limits.frames },
    ghost used_length: { length lent.used.now ≡ limits.frames },
    ghost place_counts_length: { length lent.place_counts.now ≡ limits.places },
    ghost frames_length: { length lent.frames.now ≡ limits.frames * 256 },
    ghost disk_length: { length lent.disk.now ≡ limits.places * 256 },
}
