//! The faults of an image, and the first of them.

ghost use Rattle.std.specs.Prelude.{◌↔◌, IfOk, IsTrue, MatchOption, not};
ghost use Rattle.nv_base.specs.Refusals.{FailsOnly};
ghost use Rattle.nv_base.specs.Memory.{out_of_memory};
ghost use Rattle.nv_audit.specs.Faults.{IsFaultless, IsFirstFault, IsWithout, IsWithoutEarlier};

mod chains;
mod ends;
mod entries;
mod fit;
mod items;
mod journals;
mod numbers;
mod runs;
mod snaps;

use crate::Image;
use chains::are_chains_good;
use entries::are_entries_good;
use fit::fits_geometry;
use items::are_items_good;
pub use journals::all_notes;
pub(crate) use journals::are_journals_good;
use numbers::are_blocks_good;
use nv_base::{Fault, ImageFault};
use runs::are_runs_good;
use snaps::are_snaps_good;
use std::alloc::Global;

/// All faults, in the order in which they are told.
const IN_ORDER: [ImageFault; 8] = [
    ImageFault::Geometry,
    ImageFault::Block,
    ImageFault::Chain,
    ImageFault::Entry,
    ImageFault::Item,
    ImageFault::Run,
    ImageFault::Journal,
    ImageFault::Snaps,
];

/// The first fault of an image, if it has one. The only error is `OutOfMemory`. It costs what [`has`] costs for each.
pub fn judge(alloc: Global, image: &Image) -> Result<Option<ImageFault>, Fault>
    // No fault is told just where an image has none.
    // Needed pages have a block of their own.
    // Each page before the last entry has one.
    // No byte of a file lies past its size.
    // No inode is noted twice.
    // Else the first fault is told.
    // A bad journal cuts no log.
    ensures ok { IfOk result (λ first. MatchOption first (IsFaultless image.now)
        (λ fault. IsFirstFault fault image.now)) }
    // The only error is `OutOfMemory`.
    ensures err { FailsOnly out_of_memory result }
{
    for fault in IN_ORDER {
        let found = has(alloc, image, fault)?;
        if found {
            return Ok(Some(fault));
        }
    }
    Ok(None)
}

/// Whether an image has a fault, where it has none that is told before. The only error is `OutOfMemory`.
///
/// Costs a look at each block, two passes over all entries, and a mark for each block and slot. For `item` and `run` it
/// costs one pass over each log from its end with a look-up for each part, for each part that is no longer current a scan
/// of the snapshots up to one that holds it, and memory for each part; for `item` also a pass over all names, and one over
/// the logs that bind names for each snapshot; for `run` also a look-up for each page and the bytes of one block of each
/// slot.
pub fn has(alloc: Global, image: &Image, fault: ImageFault) -> Result<bool, Fault>
    requires { IsWithoutEarlier fault image.now }
    // Where an image has no earlier fault, it is told exactly whether it has this one.
    ensures ok { IfOk result (λ has. IsTrue (not has) ↔ IsWithout fault image.now) }
    // The only error is `OutOfMemory`.
    ensures err { FailsOnly out_of_memory result }
{
    let without = is_without(alloc, image, fault)?;
    Ok(!without)
}

/// Whether an image is without a fault, where it is without each that is told before.
fn is_without(alloc: Global, image: &Image, fault: ImageFault) -> Result<bool, Fault>
    requires { IsWithoutEarlier fault image.now }
    ensures ok { IfOk result (λ is. IsTrue is ↔ IsWithout fault image.now) }
    ensures err { FailsOnly out_of_memory result }
{
    match fault {
        ImageFault::Geometry => Ok(fits_geometry(image)),
        ImageFault::Block => are_blocks_good(alloc, image),
        ImageFault::Chain => Ok(are_chains_good(image)),
        ImageFault::Entry => Ok(are_entries_good(image)),
        ImageFault::Item => are_items_good(alloc, image),
        ImageFault::Run => are_runs_good(alloc, image),
        ImageFault::Journal => are_journals_good(alloc, image),
        ImageFault::Snaps => Ok(are_snaps_good(image)),
    }
}
