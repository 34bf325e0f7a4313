// Whether lent memory is long enough for the sizes.
ghost use Rattle.std.specs.Prelude.{◌≡◌, OnOk};
ghost use Rattle.requests.specs.Ranges.{InRange, ranged};
ghost use Rattle.requests.specs.Refusals.{unless_refused};
ghost use Rattle.tables.specs.Lent.{lists};
ghost use Rattle.calls.specs.Entry.{entry_refusal, Roomy, tables_fit};

use requests::answer::{Part, Refusal};
use requests::sizes::Sizes;
use tables::lent::Lent;

// Whether each table is as long as the sizes need it.
fn tables_fit(sizes: Sizes, lent: &Lent<'_>) -> bool
    requires { InRange (ranged sizes) }
    ensures { result ≡ tables_fit sizes (lists lent.now) }
{
    sizes.processes * sizes.pages <= lent.table.len()
        && sizes.segments <= lent.segments.len()
        && sizes.segments <= lent.lookers.len()
        && sizes.frames <= lent.frame_counts.len()
        && sizes.frames <= lent.used.len()
        && sizes.places <= lent.place_counts.len()
}

// Refuses sizes that are out of range, and lent memory that is too short for them.
pub(crate) fn admit(sizes: Sizes, lent: &Lent<'_>) -> Result<(), Refusal>
    ensures value { result ≡ unless_refused (entry_refusal sizes (lists lent.now)) tt }
    ensures roomy { OnOk result (Roomy sizes (lists lent.now)) }
{
    sizes.check()?;
    if lent.frames.len() < sizes.frames * 256 {
        return Err(Refusal::Lent(Part::Frames));
    }
    if lent.disk.len() < sizes.places * 256 {
        return Err(Refusal::Lent(Part::Disk));
    }
    if !tables_fit(sizes, lent) {
        return Err(Refusal::Lent(Part::Tables));
    }
    Ok(())
}
