// The manager's small record, by value through the core. All pages and tables are in lent memory.
ghost use Rattle.std.specs.Prelude.{◌≡◌, ◌<◌, true, false, ◌&&◌, take, IfSome, nat_lt, slice_index_or, slice_set};
ghost use Rattle.requests.specs.Ranges.{InRange, ranged};
ghost use Rattle.calls.specs.Machine.{lowest_absent};
ghost use Rattle.calls.specs.Memory.{limits_of};

use disk::registers::Registers;
use requests::sizes::Sizes;
use tables::entry::Limits;

// No memory is taken for it, so there is a flag for each process that a machine can have.
#[derive(Clone, Copy)]
pub struct Manager {
    pub sizes: Sizes,
    pub alive: [bool; 16],
    pub registers: Registers,
}

impl Manager {
    // How many frames, places and segments an entry may name. No `From`: neither type is of this crate.
    pub fn limits(&self) -> Limits
        ensures { result ≡ limits_of self.now.sizes }
    {
        Limits {
            frames: self.sizes.frames,
            places: self.sizes.places,
            segments: self.sizes.segments,
        }
    }

    // Whether a process is there.
    pub(crate) fn is_alive(self, process: usize) -> bool
        requires { InRange (ranged self.sizes) }
        ensures value { result ≡ slice_index_or (take self.sizes.processes self.alive) process false }
        ensures within { result ≡ true → process < self.sizes.processes }
    {
        process < self.sizes.processes && self.alive[process]
    }

    // Whether a page of a process may be asked for.
    pub(crate) fn has(self, process: usize, page: usize) -> bool
        requires { InRange (ranged self.sizes) }
        ensures value { result ≡ (slice_index_or (take self.sizes.processes self.alive) process false && nat_lt page self.sizes.pages) }
        ensures process { result ≡ true → process < self.sizes.processes }
        ensures page { result ≡ true → page < self.sizes.pages }
    {
        self.is_alive(process) && page < self.sizes.pages
    }

    // The lowest number of a process that is not there.
    pub(crate) fn lowest_absent(self) -> Option<usize>
        requires { InRange (ranged self.sizes) }
        ensures value { result ≡ lowest_absent 0 (take self.sizes.processes self.alive) }
        ensures within { IfSome result (λ p. p < self.sizes.processes) }
    {
        self.alive[..self.sizes.processes]
            .iter()
            .position(|there| !*there)
    }

    // The record once a process has come or gone.
    pub(crate) fn with_alive(self, process: usize, there: bool) -> Manager
        requires { process < 16 }
        ensures { result ≡ record { sizes = self.sizes; alive = slice_set self.alive process there; registers = self.registers } }
    {
        let mut alive = self.alive;
        alive[process] = there;
        Manager { alive, ..self }
    }
}
