//! The fault `entry`: entries out of order, or later than the image.

ghost use Rattle.std.specs.Prelude.{◌↔◌, All, IsTrue};
ghost use Rattle.nv_entry.specs.Log.{IsLog, MayFollow};
ghost use Rattle.nv_audit.specs.Faults.{AreEntriesGood, AreOrdered};
ghost use Rattle.nv_audit.specs.Image.{SlotImageValue};

use crate::{Image, SlotImage, are_no_later};
use nv_base::{CommitNo, Epoch};
use nv_entry::Entry;

/// Whether ids rise and epochs never fall in each slot, and no entry is later than the image. Costs two passes over all
/// entries.
pub(crate) fn are_entries_good(image: &Image) -> bool
    ensures { IsTrue result ↔ AreEntriesGood image.now }
{
    are_all_ordered(image.commit, image.epoch, &image.slots)
}

fn are_all_ordered(commit: CommitNo, epoch: Epoch, slots: &[SlotImage]) -> bool
    ensures { IsTrue result ↔ All (λ (slot : SlotImageValue).
        AreOrdered commit epoch slot.chain.entries) slots.now }
{
    for slot in slots {
        if !is_ordered(commit, epoch, slot) {
            return false;
        }
    }
    true
}

fn is_ordered(commit: CommitNo, epoch: Epoch, slot: &SlotImage) -> bool
    ensures { IsTrue result ↔ AreOrdered commit epoch slot.now.chain.entries }
{
    are_ordered(commit, epoch, &slot.chain.entries)
}

fn are_ordered(commit: CommitNo, epoch: Epoch, entries: &[Entry]) -> bool
    ensures { IsTrue result ↔ AreOrdered commit epoch entries.now }
{
    is_log(entries) && are_no_later(commit, epoch, entries)
}

/// Whether ids rise and epochs never fall.
fn is_log(entries: &[Entry]) -> bool
    ensures { IsTrue result ↔ IsLog entries.now }
{
    for place in 1..entries.len() {
        if !may_follow(&entries[place - 1], &entries[place]) {
            return false;
        }
    }
    true
}

fn may_follow(earlier: &Entry, later: &Entry) -> bool
    ensures { IsTrue result ↔ MayFollow earlier.now later.now }
{
    earlier.id.is_before(later.id) && earlier.epoch <= later.epoch
}
