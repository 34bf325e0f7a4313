// A process and its pages.
ghost use Rattle.std.specs.Prelude.{◌≡◌, false, IfOk, if◌then◌else◌, vec_len};
ghost use Rattle.fold.specs.Fold.{over_pages};
ghost use Rattle.private.specs.SeePage.{see_page, see_process, matching, blank, put_in, rewritten_in};

use super::page::{Page, Sought, put_at};
use std::alloc::{AllocError, Global};

#[derive(Clone, Drop)]
pub struct Process {
    // A flag, and no Option: a process that left is seen with as many pages as before, all absent.
    pub alive: bool,
    pub pages: Vec<Page>,
}

impl Process {
    // One with room for `count` pages, and none there.
    pub(crate) fn empty(heap: Global, alive: bool, count: usize) -> Result<Process, AllocError>
        ensures { IfOk result (λ q. see_process q ≡ blank alive count) }
    {
        let pages = Vec::from_elem(heap, Page::Absent, count)?;
        Ok(Process { alive, pages })
    }

    // How many of its pages are sought, if it is there.
    pub(crate) fn count(&self, sought: Sought) -> usize
        ensures { result ≡ (if self.now.alive then over_pages (matching sought) (see_process self.now).pages else 0) }
    {
        if !self.alive {
            return 0;
        }
        self.pages
            .iter()
            .filter(|page| page.is_sought(sought))
            .count()
    }

    // Past its pages nothing is put.
    pub(crate) fn put(&mut self, page: usize, new: Page)
        ensures { see_process self.new ≡ put_in (see_process self.old) page (see_page new) }
    {
        put_at(&mut self.pages, page, new);
    }

    // It leaves: no page stays.
    pub(crate) fn leave(&mut self)
        ensures { see_process self.new ≡ blank false (vec_len self.old.pages) }
    {
        self.alive = false;
        self.pages.fill(Page::Absent);
    }

    // An own page gets a byte and, it may be, another label.
    pub(crate) fn store(&mut self, page: usize, label: u64, offset: usize, byte: u8)
        ensures { see_process self.new ≡ rewritten_in (see_process self.old) page label offset byte }
    {
        if let Some(page) = self.pages.get_mut(page) {
            page.store(label, offset, byte);
        }
    }
}
