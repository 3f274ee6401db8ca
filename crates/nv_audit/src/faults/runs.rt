//! The fault `run`: pages without a block of their own, or bytes past a file's size.

ghost use Rattle.std.specs.Prelude.{◌≡◌, ◌↔◌, ◌<◌, ℕ, [], All, IfOk, IsTrue, length, true};
ghost use Rattle.std.specs.List.Sorted.{IsNonDecreasing};
ghost use Rattle.nv_base.specs.Refusals.{FailsOnly};
ghost use Rattle.nv_base.specs.Memory.{out_of_memory};
ghost use Rattle.nv_base.specs.declared.fault.ImageFault.TheVariants.{Run};
ghost use Rattle.nv_alloc.specs.Block.{AreSized};
ghost use Rattle.nv_alloc.specs.Numbers.{has};
ghost use Rattle.nv_cell.specs.Cell.{CellState};
ghost use Rattle.nv_audit.specs.Faults.{AreRunsGood, IsRunGood, IsWithoutEarlier};
ghost use Rattle.nv_audit.specs.Lists.{blocks_kept};
ghost use Rattle.nv_audit.specs.Logged.{logged as logged_of};
ghost use Rattle.nv_audit.specs.Mounted.{cell_of};
ghost use Rattle.nv_audit.specs.MountedLogs.{AreAmong, HasItsBlocks, IsMadeOf, IsRunOf, mounted_logs};

use super::ends::ends_at_size;
use super::numbers::push_data;
use crate::deaths::deaths_in;
use crate::lists::push_kept;
use crate::logged::Logged;
use crate::mounted::{cut_tails, mounted_logs};
use crate::retained::needed_parts;
use crate::sound::are_all_apart;
use crate::{DataBlocks, Image, SlotImage};
use nv_base::{BlockNo, Epoch, Fault};
use nv_entry::Retention;
use std::alloc::{AllocError, Global};

/// Whether each page that is current or held has its block among the slot's, no two have one, and each file ends at its
/// size.
pub(crate) fn are_runs_good(alloc: Global, image: &Image) -> Result<bool, Fault>
    requires { IsWithoutEarlier Run image.now }
    ensures ok { IfOk result (λ good. IsTrue good ↔ AreRunsGood image.now) }
    ensures err { FailsOnly out_of_memory result }
{
    let tails = cut_tails(alloc, image)?;
    let logs = mounted_logs(alloc, image, &tails)?;
    are_all_good(alloc, image, &logs)
}

/// The same, slot by slot.
fn are_all_good(alloc: Global, image: &Image, logs: &[Logged<'_>]) -> Result<bool, Fault>
    requires earlier { IsWithoutEarlier Run image.now }
    requires logs { logs.now ≡ mounted_logs image.now }
    ensures ok { IfOk result (λ good. IsTrue good ↔ AreRunsGood image.now) }
    ensures err { FailsOnly out_of_memory result }
{
    for ino in 0..logs.len() {
        let good = is_slot_good(alloc, image, ino, &logs[ino])?;
        if !good {
            return Ok(false);
        }
    }
    Ok(true)
}

/// The same of one slot, by the log that a mount makes.
fn is_slot_good(alloc: Global, image: &Image, ino: usize, own: &Logged<'_>) -> Result<bool, Fault>
    requires earlier { IsWithoutEarlier Run image.now }
    requires slot { ino < length image.now.slots }
    requires log { own.now ≡ logged_of (cell_of image.now ino) }
    ensures ok { IfOk result (λ good. IsTrue good ↔ IsRunGood image.now ino) }
    ensures err { FailsOnly out_of_memory result }
{
    let slot = image.slot(ino);
    is_run_good(alloc, &image.snapshots, own, slot)
}

/// The same of each cell that is made of a slot's blocks by this log.
fn is_run_good(
    alloc: Global,
    snapshots: &[Epoch],
    own: &Logged<'_>,
    slot: &SlotImage,
) -> Result<bool, Fault>
    requires { AreSized own.now.block slot.now.blocks }
    ensures ok { IfOk result (λ good. (cell : CellState)
        → IsMadeOf snapshots.now slot.now.blocks cell → own.now ≡ logged_of cell
        → IsTrue good ↔ IsRunOf slot.now.blocks cell) }
    ensures err { FailsOnly out_of_memory result }
{
    let blocks = &slot.blocks;
    let has = has_its_blocks(alloc, snapshots, own, blocks)?;
    if !has {
        return Ok(false);
    }
    ends_at_size(alloc, own, blocks)
}

/// Whether the block of each needed page is among these, and no two have one.
fn has_its_blocks(
    alloc: Global,
    snapshots: &[Epoch],
    own: &Logged<'_>,
    blocks: &DataBlocks,
) -> Result<bool, Fault>
    ensures ok { IfOk result (λ has. (cell : CellState) → IsMadeOf snapshots.now blocks.now cell
        → own.now ≡ logged_of cell → IsTrue has ↔ HasItsBlocks blocks.now cell) }
    ensures err { FailsOnly out_of_memory result }
{
    let needed = needed_blocks(alloc, snapshots, own)?;
    let among = are_among(alloc, &needed, blocks)?;
    if !among {
        return Ok(false);
    }
    Ok(are_all_apart(needed))
}

/// The blocks that a log says of the pages that are current or held.
fn needed_blocks(
    alloc: Global,
    snapshots: &[Epoch],
    own: &Logged<'_>,
) -> Result<Vec<BlockNo>, Fault>
    ensures ok { IfOk result (λ needed. needed.items ≡ blocks_kept
        (record { block = own.now.block; snapshots = snapshots.now; pending = [] }) own.now.log) }
    ensures err { FailsOnly out_of_memory result }
{
    let deaths = deaths_in(alloc, own)?;
    let parts = needed_parts(alloc, snapshots, own, &deaths)?;
    let retention = Retention {
        block: own.block_bytes(),
        snapshots,
        pending: &[],
    };
    let mut needed = Vec::new(alloc);
    push_kept(&mut needed, &retention, own.log(), &parts)?;
    Ok(needed)
}

/// Whether each of these numbers is that of one of the blocks. Costs their numbers, times a logarithm, and memory for the
/// number of each block.
fn are_among(alloc: Global, numbers: &[BlockNo], blocks: &DataBlocks) -> Result<bool, AllocError>
    ensures { IfOk result (λ are. IsTrue are ↔ AreAmong blocks.now numbers.now) }
{
    let mut present = Vec::new(alloc);
    push_data(&mut present, blocks)?;
    present.sort_unstable_by_key(|number| number.number());
    Ok(are_all_in(numbers, &present))
}

/// Whether each of these numbers stands in a list in which none falls.
fn are_all_in(numbers: &[BlockNo], present: &[BlockNo]) -> bool
    requires { IsNonDecreasing present.now }
    ensures { IsTrue result ↔ All (λ (number : ℕ). has present.now number ≡ true) numbers.now }
{
    for number in numbers {
        if !is_in(present, *number) {
            return false;
        }
    }
    true
}

fn is_in(present: &[BlockNo], number: BlockNo) -> bool
    requires { IsNonDecreasing present.now }
    ensures { result ≡ has present.now number }
{
    present
        .binary_search_by_key(&number.number(), |one| one.number())
        .is_ok()
}
