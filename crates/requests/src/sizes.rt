// How large a machine is. Pages have 256 bytes.
ghost use Rattle.std.specs.Prelude.{◌≡◌, false, ◌<◌, [], ◌∷◌, OnOk, slice_index};
ghost use Rattle.std.specs.Range.{range_inclusive_end, range_inclusive_exhausted, range_inclusive_start};
ghost use Rattle.requests.specs.Ranges.{InRange, number_at, out_of_range, ranged, sizes_of, sizes_refusal};
ghost use Rattle.requests.specs.Refusals.{unless_refused};

use crate::answer::{Refusal, Size};
use std::ops::RangeInclusive;

#[derive(Clone, Copy, PartialEq, Eq, Debug)]
pub struct Sizes {
    pub processes: usize,
    pub pages: usize,
    pub segments: usize,
    pub frames: usize,
    pub places: usize,
}

impl Sizes {
    // Reads five numbers of two bytes each. What is missing counts as 0, and what follows the tenth byte is not read.
    pub fn from_bytes(bytes: &[u8]) -> Sizes
        ensures { result ≡ sizes_of bytes.now }
    {
        Sizes {
            processes: number_at(bytes, 0),
            pages: number_at(bytes, 1),
            segments: number_at(bytes, 2),
            frames: number_at(bytes, 3),
            places: number_at(bytes, 4),
        }
    }

    // The first size that is out of its range is the one that is refused.
    pub fn check(self) -> Result<(), Refusal>
        ensures value { result ≡ unless_refused (sizes_refusal self) tt }
        ensures ok { OnOk result (InRange (ranged self)) }
    {
        in_range(Size::Processes, self.processes, 1..=16)?;
        in_range(Size::Pages, self.pages, 1..=64)?;
        in_range(Size::Segments, self.segments, 0..=16)?;
        in_range(Size::Frames, self.frames, 1..=512)?;
        in_range(Size::Places, self.places, 0..=512)
    }
}

fn in_range(size: Size, count: usize, range: RangeInclusive<usize>) -> Result<(), Refusal>
    requires { range_inclusive_exhausted range ≡ false }
    ensures { result ≡ unless_refused (out_of_range ((size, count, range_inclusive_start range, range_inclusive_end range) ∷ [])) tt }
{
    if range.contains(&count) {
        Ok(())
    } else {
        Err(Refusal::Size(size))
    }
}

// A byte, or 0 past the end.
pub fn byte_at(bytes: &[u8], i: usize) -> u8
    ensures { result ≡ slice_index bytes.now i }
{
    bytes.get(i).copied().unwrap_or(0)
}

fn number_at(bytes: &[u8], k: usize) -> usize
    requires { k < 5 }
    ensures { result ≡ number_at bytes.now k }
{
    usize::from(u16::from_le_bytes([byte_at(bytes, 2 * k), byte_at(bytes, 2 * k + 1)]))
}
