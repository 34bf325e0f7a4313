// The manager and the machine of private memories, side by side.
ghost use Rattle.std.specs.Prelude.{◌≡◌, count_by, nat_lt};

use anyhow::anyhow;
use machine::machine::Machine as Manager;
use private::machine::Machine as Private;
use requests::answer::Answer;
use requests::request::Call;
use requests::sizes::Sizes;
use std::alloc::Global;

#[derive(Drop)]
pub struct Pair {
    manager: Manager,
    private: Private,
}

#[derive(Clone, Copy)]
pub struct Answers {
    pub manager: Answer,
    pub private: Answer,
}

impl Pair {
    pub fn open(heap: Global, sizes: Sizes) -> anyhow::Result<Pair> {
        let manager = Manager::open(heap, sizes).map_err(|_| anyhow!("the manager does not open"))?;
        let private = Private::open(heap, sizes)?;
        Ok(Pair { manager, private })
    }

    pub fn call(&mut self, call: Call) -> anyhow::Result<Answers> {
        let manager = self.manager.call(call);
        let private = self.private.call(call).map_err(|_| anyhow!("no memory"))?;
        Ok(Answers { manager, private })
    }

    // Frames and places in use.
    pub fn in_use(&self) -> usize {
        let frames = in_use(self.manager.frame_counts.as_slice());
        let places = in_use(self.manager.place_counts.as_slice());
        frames.saturating_add(places)
    }

    // Reads and writes of the disk. Private memories have none.
    pub fn disk(&mut self) -> Disk {
        let Answer::Done(both) = self.manager.call(Call::Counts) else {
            return Disk::default();
        };
        Disk {
            reads: both / 65536,
            writes: both % 65536,
        }
    }
}

#[derive(Clone, Copy, Default)]
pub struct Disk {
    pub reads: u64,
    pub writes: u64,
}

// How many counts are not 0.
fn in_use(counts: &[u16]) -> usize
    ensures { result ≡ count_by (nat_lt 0) counts.now }
{
    counts.iter().filter(|count| **count > 0).count()
}
