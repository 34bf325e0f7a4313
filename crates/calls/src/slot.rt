// The look-aside table in front of the walk.
ghost use Rattle.std.specs.Prelude.{◌≡◌, ◌<◌, IfSome};
ghost use Rattle.lookaside.specs.Slots.{find_slot, put_slot};
ghost use Rattle.calls.specs.Calls.{free_slot};

use crate::manager::Manager;
use disk::registers::Registers;
use lookaside::slots::Slot;

impl Manager {
    // The slot of a page, if the look-aside table has it.
    pub(crate) fn slot_of(self, process: usize, page: usize) -> Option<Slot>
        ensures value { result ≡ find_slot self.registers.lookaside.slots self.sizes.frames process page }
        ensures within { IfSome result (λ s. s.frame < self.sizes.frames) }
    {
        self.registers
            .lookaside
            .find(self.sizes.frames, process, page)
    }

    // The slot of a page, if the look-aside table has it and says that a store needs no copy.
    pub(crate) fn free_slot_of(self, process: usize, page: usize) -> Option<Slot>
        ensures value { result ≡ free_slot (find_slot self.registers.lookaside.slots self.sizes.frames process page) }
        ensures within { IfSome result (λ s. s.frame < self.sizes.frames) }
    {
        self.slot_of(process, page).filter(|slot| slot.free)
    }

    // The record once the look-aside table knows where a page lies.
    pub(crate) fn remember(self, slot: Slot) -> Manager
        ensures sizes { result.sizes ≡ self.sizes }
        ensures alive { result.alive ≡ self.alive }
        ensures hand { result.registers.hand ≡ self.registers.hand }
        ensures transfers { result.registers.transfers ≡ self.registers.transfers }
        ensures slots { result.registers.lookaside.slots ≡ put_slot self.registers.lookaside.slots slot }
    {
        let registers = Registers {
            lookaside: self.registers.lookaside.put(slot),
            ..self.registers
        };
        Manager { registers, ..self }
    }
}
