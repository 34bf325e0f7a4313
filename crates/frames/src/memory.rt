// Memory is lent as bytes, 256 a page, and read as a list of pages. A frame is a part of it that is lent on to be written.
// Each contract is for every number n of pages that one may want to see of the memory.
ghost use Rattle.std.specs.Prelude.{◌≡◌, ℕ, ◌+◌, ◌*◌, ◌^◌, ◌<◌, ◌≤◌, length, replicate, slice_index, slice_set};
ghost use Rattle.frames.specs.Cut.{pages, row, stored};

use std::ops::Range;

// The bytes of a page.
const PAGE: usize = 256;

// Where a page lies.
fn span(page: usize) -> Range<usize>
    requires { page * 256 + 256 < 2 ^ 64 }
    ensures start { result.start ≡ page * 256 }
    ensures end { result.end ≡ page * 256 + 256 }
{
    page * PAGE..page * PAGE + PAGE
}

// One byte of a page.
pub fn load(memory: &[u8], page: usize, offset: usize) -> u8
    requires within { page * 256 + 256 ≤ length memory.now }
    requires inside { offset < 256 }
    ensures { (n : ℕ) → page < n → result ≡ slice_index (row (pages n memory.now) page) offset }
{
    memory[span(page)][offset]
}

// Writes one byte of a page.
pub fn store(memory: &mut [u8], page: usize, offset: usize, byte: u8)
    requires within { page * 256 + 256 ≤ length memory.old }
    requires inside { offset < 256 }
    ensures { (n : ℕ) → pages n memory.new ≡ stored (pages n memory.old) page offset byte }
{
    let frame = &mut memory[span(page)];
    frame[offset] = byte;
}

// Makes a page all zeros.
pub fn clear(memory: &mut [u8], page: usize)
    requires { page * 256 + 256 ≤ length memory.old }
    ensures { (n : ℕ) → pages n memory.new ≡ slice_set (pages n memory.old) page (replicate 256 0) }
{
    memory[span(page)].fill(0);
}

// Copies a page over another of the same memory.
pub fn copy(memory: &mut [u8], from: usize, to: usize)
    requires from_within { from * 256 + 256 ≤ length memory.old }
    requires to_within { to * 256 + 256 ≤ length memory.old }
    ensures { (n : ℕ) → from < n → pages n memory.new ≡ slice_set (pages n memory.old) to (row (pages n memory.old) from) }
{
    memory.copy_within(span(from), to * PAGE);
}

// Copies a page of one memory over a page of another.
pub fn copy_across(source: &[u8], from: usize, target: &mut [u8], to: usize)
    requires from_within { from * 256 + 256 ≤ length source.now }
    requires to_within { to * 256 + 256 ≤ length target.old }
    ensures { (n m : ℕ) → from < m → pages n target.new ≡ slice_set (pages n target.old) to (row (pages m source.now) from) }
{
    target[span(to)].copy_from_slice(&source[span(from)]);
}

// Exchanges a page of one memory with a page of another, byte for byte.
pub fn exchange(left: &mut [u8], at_left: usize, right: &mut [u8], at_right: usize)
    requires left_within { at_left * 256 + 256 ≤ length left.old }
    requires right_within { at_right * 256 + 256 ≤ length right.old }
    ensures left { (n m : ℕ) → at_right < m → pages n left.new ≡ slice_set (pages n left.old) at_left (row (pages m right.old) at_right) }
    ensures right { (n m : ℕ) → at_left < m → pages n right.new ≡ slice_set (pages n right.old) at_right (row (pages m left.old) at_left) }
{
    let mut page = [0u8; PAGE];
    page.copy_from_slice(&left[span(at_left)]);
    copy_across(right, at_right, left, at_left);
    right[span(at_right)].copy_from_slice(&page);
}
