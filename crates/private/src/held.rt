// How much has to be held: each label but 0 that a page has, once, and each segment that somebody looks at.
ghost use Rattle.std.specs.Prelude.{◌≡◌, ◌++◌, map, IfOk, OnOk};
ghost use Rattle.private.specs.Labelled.{page_labels, all_labels, changes};
ghost use Rattle.private.specs.SeePage.{see_page};
ghost use Rattle.private.specs.See.{see, full_at, looked_at, all_held};
ghost use Rattle.private.specs.Called.{world};

use super::machine::Machine;
use super::memory::Memory;
use super::page::{Page, Sought};
use std::alloc::AllocError;

impl Memory {
    // The labels of all pages, in no order.
    fn labels(&self) -> Result<Vec<u64>, AllocError>
        ensures { IfOk result (λ v. v.items ≡ all_labels (see self.now).processes) }
    {
        let mut labels = Vec::new(self.heap);
        for process in self.processes.iter() {
            if process.alive {
                add_labels(&mut labels, process.pages.as_slice())?;
            }
        }
        Ok(labels)
    }

    // How many segments somebody looks at.
    fn held_segments(&self) -> usize
        ensures { result ≡ looked_at (see self.now) }
    {
        (0..self.segments.len())
            .filter(|segment| self.has(1, Sought::Looking(*segment)))
            .count()
    }
}

impl Machine {
    // Counted afresh each time.
    fn held(&self) -> Result<u128, AllocError>
        ensures { IfOk result (λ n. n ≡ all_held (world self.now)) }
    {
        let mut labels = self.memory.labels()?;
        labels.sort_unstable();
        Ok(distinct(labels.as_slice()) as u128 + self.memory.held_segments() as u128)
    }

    pub(crate) fn is_full(&self) -> Result<bool, AllocError>
        ensures { IfOk result (λ b. b ≡ full_at self.now.sizes (world self.now)) }
    {
        Ok(self.sizes.frames as u128 + self.sizes.places as u128 <= self.held()?)
    }
}

// Adds the labels of the pages that are their process's own.
fn add_labels(labels: &mut Vec<u64>, pages: &[Page]) -> Result<(), AllocError>
    ensures { OnOk result (labels.new.items ≡ labels.old.items ++ page_labels (map see_page pages.now)) }
{
    for page in pages {
        if let Page::Own { label, .. } = page {
            labels.push(*label)?;
        }
    }
    Ok(())
}

// How many different numbers other than 0 there are in a sorted list. The last label goes along with the count, so no chain says it
// more plainly.
fn distinct(sorted: &[u64]) -> usize
    ensures { result ≡ changes 0 sorted.now }
{
    let mut count = 0;
    let mut last = 0;
    for label in sorted {
        if *label != last {
            count += 1;
            last = *label;
        }
    }
    count
}
