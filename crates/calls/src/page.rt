// What a page of a process is, and the look-aside table after pages have changed.
ghost use Rattle.std.specs.Prelude.{◌≡◌, ◌<◌, true, not, ◌&&◌};
ghost use Rattle.lookaside.specs.Purge.{purged};
ghost use Rattle.disk.specs.Memory.{state_of};
ghost use Rattle.copies.specs.Anew.{holds_of};
ghost use Rattle.calls.specs.Calls.{is_there};
ghost use Rattle.calls.specs.Memory.{Fits, record_inside};

use crate::manager::Manager;
use disk::memory::Memory;
use disk::registers::Registers;
use tables::entry::Target;

impl Manager {
    // Whether a page of a process is there and is not absent.
    pub(crate) fn has_page(self, memory: &Memory<'_>, process: usize, page: usize) -> bool
        requires { Fits self.sizes memory.now }
        ensures value { result ≡ (record_inside self process page && is_there (holds_of (state_of memory.now) process page)) }
        ensures process { result ≡ true → process < memory.now.processes }
        ensures page { result ≡ true → page < memory.now.pages }
    {
        self.has(process, page) && memory.entry(process, page).target != Target::Absent
    }

    // Whether a page of a process may be asked for and is absent.
    pub(crate) fn lacks_page(self, memory: &Memory<'_>, process: usize, page: usize) -> bool
        requires { Fits self.sizes memory.now }
        ensures value { result ≡ (record_inside self process page && not (is_there (holds_of (state_of memory.now) process page))) }
        ensures process { result ≡ true → process < memory.now.processes }
        ensures page { result ≡ true → page < memory.now.pages }
    {
        self.has(process, page) && memory.entry(process, page).target == Target::Absent
    }

    // After a change of entries or counts: the slots that are true no more go.
    pub(crate) fn settled(self, memory: &Memory<'_>) -> Manager
        ensures sizes { result.sizes ≡ self.sizes }
        ensures alive { result.alive ≡ self.alive }
        ensures hand { result.registers.hand ≡ self.registers.hand }
        ensures transfers { result.registers.transfers ≡ self.registers.transfers }
        ensures slots { result.registers.lookaside.slots ≡ purged (state_of memory.now).rows (state_of memory.now).segments (state_of memory.now).counts memory.now.limits.frames self.registers.lookaside.slots }
    {
        let registers = Registers {
            lookaside: memory.purged(self.registers.lookaside),
            ..self.registers
        };
        Manager { registers, ..self }
    }
}
