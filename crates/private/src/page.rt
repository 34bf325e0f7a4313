// A page of a process.
ghost use Rattle.std.specs.Prelude.{◌≡◌, replicate, IfOk, if◌then◌else◌, slice_set};
ghost use Rattle.fold.specs.Fold.{there};
ghost use Rattle.private.specs.SeePage.{see_page, matching, rewritten};

use std::alloc::{AllocError, Global};

// How many bytes a page has.
pub const BYTES: usize = 256;

// Not there; its own, with a label and bytes; or a segment, by its number. Pages of one label were one page and have not been
// stored to since. Label 0 is a page of zeros that nobody has stored to.
#[derive(Clone, Drop)]
pub enum Page {
    Absent,
    Own { label: u64, bytes: Vec<u8> },
    Segment(usize),
}

// Which page: of which process, and which of its pages.
#[derive(Clone, Copy)]
pub struct Address {
    pub process: usize,
    pub page: usize,
}

// Which pages to count: those of a label, or those that are a segment.
#[derive(Clone, Copy)]
pub enum Sought {
    Labelled(u64),
    Looking(usize),
}

// The bytes of a new page.
pub(crate) fn zeros(heap: Global) -> Result<Vec<u8>, AllocError>
    ensures { IfOk result (λ v. v.items ≡ replicate 256 0) }
{
    Vec::from_elem(heap, 0, BYTES)
}

// Past the end nothing is put.
pub(crate) fn put_at<T: Drop>(items: &mut Vec<T>, i: usize, new: T)
    ensures { items.new.items ≡ slice_set items.old.items i new }
{
    if let Some(place) = items.get_mut(i) {
        *place = new;
    }
}

impl Page {
    pub(crate) fn is_there(&self) -> bool
        ensures { result ≡ there (see_page self.now) }
    {
        !matches!(self, Page::Absent)
    }

    pub(crate) fn is_sought(&self, sought: Sought) -> bool
        ensures { matching sought (see_page self.now) ≡ (if result then 1 else 0) }
    {
        match (sought, self) {
            (Sought::Labelled(wanted), Page::Own { label, .. }) => wanted == *label,
            (Sought::Looking(wanted), Page::Segment(number)) => wanted == *number,
            _ => false,
        }
    }

    // An own page gets a byte and, it may be, another label. Any other page stays.
    pub(crate) fn store(&mut self, new_label: u64, offset: usize, byte: u8)
        ensures { see_page self.new ≡ rewritten new_label offset byte (see_page self.old) }
    {
        if let Page::Own { label, bytes } = self {
            *label = new_label;
            put_at(bytes, offset, byte);
        }
    }
}
