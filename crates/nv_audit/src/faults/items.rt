//! The fault `item`: items that no log has there, or nodes that form no tree.

ghost use Rattle.std.specs.Prelude.{◌≡◌, ◌↔◌, IfOk, IsTrue, length};
ghost use Rattle.nv_base.specs.Refusals.{FailsOnly};
ghost use Rattle.nv_base.specs.Memory.{out_of_memory};
ghost use Rattle.nv_base.specs.declared.fault.ImageFault.TheVariants.{Item};
ghost use Rattle.nv_audit.specs.Faults.{AreItemsGood, IsWithoutEarlier};
ghost use Rattle.nv_audit.specs.MountedLogs.{AreGoneLast, AreShaped};

use crate::logged::Logged;
use crate::mounted::{cut_tails, front, mounted_logs};
use crate::nodes::form_trees_of;
use crate::{Image, SlotImage, is_gone_last, is_shaped};
use nv_base::Fault;
use std::alloc::Global;

/// Whether the log of each inode is of its shape, where it is cut, and the nodes form a tree of directories now and at each
/// living snapshot.
pub(crate) fn are_items_good(alloc: Global, image: &Image) -> Result<bool, Fault>
    requires { IsWithoutEarlier Item image.now }
    ensures ok { IfOk result (λ good. IsTrue good ↔ AreItemsGood image.now) }
    ensures err { FailsOnly out_of_memory result }
{
    let tails = cut_tails(alloc, image)?;
    if !are_gone_last(&image.slots, &tails) {
        return Ok(false);
    }
    let logs = mounted_logs(alloc, image, &tails)?;
    if !are_shaped(&logs) {
        return Ok(false);
    }
    form_trees_of(alloc, &image.snapshots, &logs)
}

/// Whether nothing stands behind a Gone in any log that is cut there.
fn are_gone_last(slots: &[SlotImage], tails: &[usize]) -> bool
    requires { length tails.now ≡ length slots.now }
    ensures { IsTrue result ↔ AreGoneLast tails.now slots.now }
{
    for ino in 0..slots.len() {
        if !is_gone_last(front(&slots[ino], tails[ino])) {
            return false;
        }
    }
    true
}

/// Whether each log is of its shape.
fn are_shaped(logs: &[Logged<'_>]) -> bool
    ensures { IsTrue result ↔ AreShaped logs.now }
{
    for logged in logs {
        if !is_shaped(logged.block_bytes(), logged.log()) {
            return false;
        }
    }
    true
}
