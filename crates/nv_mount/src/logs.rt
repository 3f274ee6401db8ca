//! Where the logs of a device that has stopped are settled, and which of its inodes are gone for good.

ghost use Rattle.std.specs.Prelude.{◌≡◌, ◌<◌, ◌≤◌, IfOk, length, map, take};
ghost use Rattle.nv_base.specs.Memory.{out_of_memory};
ghost use Rattle.nv_base.specs.Refusals.{FailsOnly};
ghost use Rattle.nv_audit.specs.Faults.{IsFaultless};
ghost use Rattle.nv_audit.specs.Image.{ImageValue};
ghost use Rattle.nv_audit.specs.MountedLogs.{cut_tails};
ghost use Rattle.nv_mount.specs.Plan.{erased_in};
ghost use Rattle.nv_mount.specs.View.{IsSeen, SlotViewValue, slot_in};

use crate::{SlotView, View};
use nv_audit::{Logged, all_notes, is_over, put_notes};
use nv_base::Fault;
use std::alloc::{AllocError, Global};

/// Where the log of each slot is settled: at the tail that an open journal has noted for it, else at its own.
pub(crate) fn settled_tails(alloc: Global, view: &View<'_>) -> Result<Vec<usize>, AllocError>
    requires { (image : ImageValue) × IsFaultless image × IsSeen image view.now }
    // A log is cut where an open journal says, else at its tail.
    ensures { (image : ImageValue) → IsFaultless image → IsSeen image view.now
        → IfOk result (λ tails. tails.items ≡ cut_tails image) }
{
    let mut tails = own_tails(alloc, view.slots)?;
    let notes = all_notes(alloc, view.journals)?;
    put_notes(&mut tails, &notes);
    Ok(tails)
}

/// The tails of all logs.
fn own_tails(alloc: Global, slots: &[SlotView<'_>]) -> Result<Vec<usize>, AllocError>
    ensures { IfOk result (λ tails. tails.items
        ≡ map (λ (slot : SlotViewValue). slot.chain.state.tail) slots.now) }
{
    let mut tails = Vec::new(alloc);
    for slot in slots {
        tails.push(own_tail(slot))?;
    }
    Ok(tails)
}

fn own_tail(slot: &SlotView<'_>) -> usize
    ensures { result ≡ slot.now.chain.state.tail }
{
    slot.chain.tail()
}

/// Which inodes are gone for good, where the logs are cut there.
pub(crate) fn ended(alloc: Global, view: &View<'_>, tails: &[usize]) -> Result<Vec<bool>, Fault>
    requires { (image : ImageValue) × IsFaultless image × IsSeen image view.now
        × (tails.now ≡ cut_tails image) }
    ensures ok { (image : ImageValue) → IsFaultless image → IsSeen image view.now
        → tails.now ≡ cut_tails image → IfOk result (λ ended. ended.items ≡ erased_in image) }
    ensures err { FailsOnly out_of_memory result }
{
    let mut ended = Vec::with_capacity(alloc, view.slots.len())?;
    for ino in 0..view.slots.len() {
        let over = is_over(alloc, view.snapshots, &front_of(view, ino, tails[ino]))?;
        ended.push_reserved(over);
    }
    Ok(ended)
}

/// The first entries of a slot's log.
pub(crate) fn front_of<'a>(view: &View<'a>, ino: usize, tail: usize) -> Logged<'a>
    requires within { ino < length view.now.slots }
    requires tail { tail ≤ length (slot_in view.now ino).chain.state.entries }
    requires block { 0 < view.now.numbers.block }
    ensures { result ≡ record {
      block = view.now.numbers.block;
      generation = (slot_in view.now ino).generation;
      log = take tail (slot_in view.now ino).chain.state.entries;
    } }
{
    let block = view.geometry.numbers.block;
    let slot = &view.slots[ino];
    let entries = slot.chain.entries();
    Logged::new(block, slot.generation, &entries[..tail])
}
