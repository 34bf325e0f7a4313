// Opens a machine: takes memory for its sizes, and lends it to a new manager.
ghost use Rattle.machine.specs.Owned.{Opens};

use crate::machine::Machine;
use crate::trouble::Trouble;
use calls::open;
use requests::sizes::Sizes;
use std::alloc::Global;

impl Machine {
    pub fn open(heap: Global, sizes: Sizes) -> Result<Machine, Trouble>
        ensures { Opens sizes result }
    {
        sizes.check()?;
        let mut table = vec![in heap; 0u16; sizes.processes * sizes.pages]?;
        let mut segments = vec![in heap; 0u16; sizes.segments]?;
        let mut lookers = vec![in heap; 0u16; sizes.segments]?;
        let mut frame_counts = vec![in heap; 0u16; sizes.frames]?;
        let mut used = vec![in heap; 0u16; sizes.frames]?;
        let mut place_counts = vec![in heap; 0u16; sizes.places]?;
        let mut frames = vec![in heap; 0u8; sizes.frames * 256]?;
        let mut disk = vec![in heap; 0u8; sizes.places * 256]?;
        let manager = open::open(
            sizes,
            table.as_mut_slice(),
            segments.as_mut_slice(),
            lookers.as_mut_slice(),
            frame_counts.as_mut_slice(),
            used.as_mut_slice(),
            place_counts.as_mut_slice(),
            frames.as_mut_slice(),
            disk.as_mut_slice(),
        )?;
        Ok(Machine {
            manager,
            table,
            segments,
            lookers,
            frame_counts,
            used,
            place_counts,
            frames,
            disk,
        })
    }
}
