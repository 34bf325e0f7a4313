// Each check finds what is wrong with one thing, or nothing.
ghost use Rattle.std.specs.Prelude.{◌≡◌};
ghost use Rattle.requests.specs.Meaning.{seen_sizes};
ghost use Rattle.requests.specs.declared.sizes.Sizes.{Sizes};
ghost use Rattle.tables.specs.Cells.{held_of, Within};
ghost use Rattle.calls.specs.Memory.{limits_of};
ghost use Rattle.sound.specs.Findings.{page_formed, segment_formed, tested};

use crate::finding::Finding;
use tables::entry::{Entry, Target};

fn tested(right: bool, finding: Finding) -> Option<Finding>
    ensures { result ≡ tested right finding }
{
    (!right).then_some(finding)
}

// An absent page and a segment have no mark, and a page of zeros has it.
fn is_page_entry(entry: Entry) -> bool
    ensures { (z : Sizes) → Within (limits_of z) entry.target → result ≡ page_formed (seen_sizes z) (held_of z.frames entry.target) entry.copy }
{
    match entry.target {
        Target::Absent | Target::Segment(_) => !entry.copy,
        Target::Zero => entry.copy,
        Target::Frame(_) | Target::Place(_) => true,
    }
}

// A segment lies in a frame or place or nowhere, and has no mark.
fn is_segment_entry(entry: Entry) -> bool
    ensures { (z : Sizes) → Within (limits_of z) entry.target → result ≡ segment_formed (seen_sizes z) (held_of z.frames entry.target) entry.copy }
{
    matches!(
        entry.target,
        Target::Absent | Target::Frame(_) | Target::Place(_)
    ) && !entry.copy
}
