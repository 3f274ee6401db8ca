//! The cell of one slot changes under its lock, by no commit: a deferred record is released, or the log is cleaned.

ghost use Rattle.std.specs.Prelude.{◌≡◌, ◌==◌, ◌<◌, ◌≤◌, ℕ, Bool, Some, false, length, true};
ghost use Rattle.nv_base.specs.declared.geometry.GeometryNumbers.{GeometryNumbers};
ghost use Rattle.nv_calls.specs.Retired.{CanTakeGone};
ghost use Rattle.nv_calls.specs.Retiring.{erased, hand_with, name_of, released, released_blocks, with_back};
ghost use Rattle.nv_cell.specs.Cell.{log_of, mark_named};
ghost use Rattle.nv_cell.specs.Readers.{has_killed, is_gone};
ghost use Rattle.nv_cell.specs.declared.mark.Mark.TheVariants.{Kept};
ghost use Rattle.nv_clean.specs.Cleaned.{HasPages, answer_of, with_chain, with_entries, with_gone, with_pages_unlinked};
ghost use Rattle.nv_clean.specs.Plans.{unlinkable_of, wanted_of};
ghost use Rattle.nv_machine.specs.SnapshotOrCleaner.{one_more};
ghost use Rattle.nv_machine.specs.World as machine;
ghost use Rattle.nv_machine.specs.World.{Draining, Running};
ghost use Rattle.nv_steps.specs.Hands.{hand_of};
ghost use Rattle.nv_steps.specs.OnCell.{IsHolding, on_cell, once_ending};
ghost use Rattle.nv_steps.specs.Turns.{IsMove};

use nv_alloc::Hand;
use nv_book::Record;
use nv_cell::InodeCell;
use nv_clean::{Cleaned, Unlinkable, Wanted, fast_on, release_on, thorough_on};

/// Releases the picked record of a drain, as [`release_on`] does.
pub fn release(cell: &mut InodeCell, hand: &mut Hand, picked: Record)
    requires kept { mark_named cell.old.state (name_of picked) ≡ Some Kept }
    requires room { 0 < hand.old.data.room }
    requires size { hand.old.data.size ≡ cell.old.state.block }
    requires settled { cell.old.state.chain.tail ≡ length cell.old.state.chain.entries }
    requires gone { is_gone (log_of cell.old.state) ≡ true → CanTakeGone hand.old cell.old.state }
    // A released part goes out, and its block goes into the hand, wherever the other parts are.
    // An inode that is gone and keeps nothing more is erased.
    // A release is counted.
    ensures turn { (numbers : GeometryNumbers) (actor : ℕ) (granted : Bool) (draining : Draining)
        (r : Running) → IsHolding picked.ino (machine.Release draining picked) r
        → IsMove numbers actor
        (on_cell picked.ino r (hand_of hand.old) granted cell.old.state cell.new.state)
        (hand_of hand.new) (once_ending (machine.Drains (one_more draining)) r) }
    ensures cell { cell.new.state ≡ erased (released picked cell.old.state) }
    ensures hand { hand.new ≡ hand_with picked.ino (released picked cell.old.state)
        (record hand.old {
          «data» = with_back (released_blocks picked cell.old.state) hand.old.data;
        }) }
{
    release_on(cell, picked, hand);
}

/// Unlinks the log pages that the planning of a fast cleaning found, as [`fast_on`] does, and tells what it cleaned.
pub fn unlink(cell: &mut InodeCell, hand: &mut Hand, walk: Unlinkable) -> Cleaned
    requires published { cell.old.state.chain.tail ≡ length cell.old.state.chain.entries }
    requires retired { has_killed cell.old.state ≡ false }
    requires walk { walk ≡ unlinkable_of cell.old.state }
    requires room { walk.pages ≤ hand.old.pages.room }
    requires size { hand.old.pages.size ≡ cell.old.state.block }
    // The log pages that the planning found leave the log, and go into the hand, wherever the other parts are.
    // A fast cleaner is told that its cleaning was fast.
    ensures turn { (numbers : GeometryNumbers) (actor ino : ℕ) (granted : Bool) (r : Running)
        → IsHolding ino (machine.Unlink ino) r
        → IsMove numbers actor
        (on_cell ino r (hand_of hand.old) granted cell.old.state cell.new.state)
        (hand_of hand.new) (once_ending (machine.Cleans result) r) }
    ensures cell { cell.new.state ≡ with_pages_unlinked walk cell.old.state }
    ensures hand { hand.new ≡ with_gone walk cell.old.state hand.old }
    ensures answer { result ≡ answer_of false cell.old.state cell.new.state }
{
    fast_on(cell, walk, hand)
}

/// Moves the entries that the planning of a thorough cleaning found to stay to the log pages of the hand, which gets the
/// old ones, as [`thorough_on`] does, and tells what it cleaned. Some entry goes.
pub fn compact(cell: &mut InodeCell, hand: &mut Hand, walk: Wanted) -> Cleaned
    requires published { cell.old.state.chain.tail ≡ length cell.old.state.chain.entries }
    requires retired { has_killed cell.old.state ≡ false }
    requires walk { walk ≡ wanted_of cell.old.state }
    requires some { (walk.dropped == 0) ≡ false }
    requires pages { HasPages walk hand.old }
    requires size { hand.old.pages.size ≡ cell.old.state.block }
    // What stays moves to the hand's log pages, and the old pages go into it, wherever the other parts are.
    // A thorough cleaner is told how many entries and log pages its log lost.
    // No old log page goes home at this step.
    ensures turn { (numbers : GeometryNumbers) (actor ino : ℕ) (granted : Bool) (r : Running)
        → IsHolding ino (machine.Compact ino) r
        → IsMove numbers actor
        (on_cell ino r (hand_of hand.old) granted cell.old.state cell.new.state)
        (hand_of hand.new) (once_ending (machine.Cleans result) r) }
    ensures cell { cell.new.state ≡ with_entries walk hand.old.pages.blocks cell.old.state }
    ensures hand { hand.new ≡ with_chain walk cell.old.state hand.old }
    ensures answer { result ≡ answer_of true cell.old.state cell.new.state }
{
    thorough_on(cell, walk, hand)
}
