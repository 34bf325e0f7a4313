// Memory that is lent to the manager.
ghost use Rattle.std.specs.Prelude.{◌≡◌, length};

use crate::entry::Limits;

// Each table, the frames and the disk, of any length and with anything in it. Lists side by side and plain numbers: no memory is taken, and whatever
// is lent is read.
#[derive(Drop)]
pub struct Lent<'a> {
    pub table: &'a mut [u16],
    pub segments: &'a mut [u16],
    pub lookers: &'a mut [u16],
    pub frame_counts: &'a mut [u16],
    pub used: &'a mut [u16],
    pub place_counts: &'a mut [u16],
    pub frames: &'a mut [u8],
    pub disk: &'a mut [u8],
}

// What a walk reads: the page table and the segment table, and the counts of frames and places. Each but the page table is as long
// as the limits say: a walk asks only that the row of its process is there.
#[derive(Clone, Copy)]
pub struct Tables<'a> {
    pub limits: Limits,
    pub processes: usize,
    pub pages: usize,
    pub table: &'a [u16],
    pub segments: &'a [u16],
    pub frame_counts: &'a [u16],
    pub place_counts: &'a [u16],
    ghost segments_length: { length segments.now ≡ limits.segments },
    ghost frame_counts_length: { length frame_counts.now ≡ limits.frames },
    ghost place_counts_length: { length place_counts.now ≡ limits.places },
}
