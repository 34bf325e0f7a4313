// Snapshots are taken of a machine with memory of its own. Not in the struct's file: what is said of a snapshot names the struct.
ghost use Rattle.std.specs.Prelude.{◌≡◌};
ghost use Rattle.machine.specs.Owned.{model};
ghost use Rattle.sound.specs.Picture.{pictured};

use crate::snapshot::Snapshot;
use machine::machine::Machine;

impl Snapshot<'_> {
    // The machine's memory may be longer than its sizes say: the rest is not looked at.
    pub fn of(machine: &Machine) -> Snapshot<'_>
        ensures same { result.manager ≡ machine.now.manager }
        ensures picture { pictured result ≡ model machine.now }
    {
        let sizes = machine.manager.sizes;
        Snapshot {
            manager: machine.manager,
            table: &machine.table[..sizes.processes * sizes.pages],
            segments: &machine.segments[..sizes.segments],
            lookers: &machine.lookers[..sizes.segments],
            frame_counts: &machine.frame_counts[..sizes.frames],
            used: &machine.used[..sizes.frames],
            place_counts: &machine.place_counts[..sizes.places],
            frames: &machine.frames[..sizes.frames * 256],
            disk: &machine.disk[..sizes.places * 256],
        }
    }
}
