//! Changes of one cell under its lock that are no commits: a deferred record is released, and a log is cleaned. The hand
//! gets what the cell loses, and the shares of both follow. The version stays.

ghost use Rattle.std.specs.Prelude.{◌≡◌, ◌==◌, ◌+◌, ◌<◌, ◌≤◌, ◌↔◌, ℕ, Bool, IsTrue, false, length, true};
ghost use Rattle.nv_alloc.specs.Hand.{blocks_of};
ghost use Rattle.nv_base.specs.declared.geometry.GeometryNumbers.{GeometryNumbers};
ghost use Rattle.nv_calls.specs.Retired.{CanTakeGone};
ghost use Rattle.nv_calls.specs.Retiring.{erased, hand_with, released, released_blocks, with_back};
ghost use Rattle.nv_clean.specs.Cleaned.{answer_of, with_chain, with_entries, with_gone, with_pages_unlinked};
ghost use Rattle.nv_clean.specs.Plans.{unlinkable_of, wanted_of};
ghost use Rattle.nv_machine.specs.SnapshotOrCleaner.{one_more};
ghost use Rattle.nv_machine.specs.World as machine;
ghost use Rattle.nv_machine.specs.World.{Draining, Running};
ghost use Rattle.nv_sessions.specs.Cleaning.{CanCompact, CanRelease, CanUnlink};
ghost use Rattle.nv_sessions.specs.Locked.{IsThere, cell_of};
ghost use Rattle.nv_steps.specs.Hands.{hand_of};
ghost use Rattle.nv_steps.specs.OnCell.{IsHolding, on_cell, once_ending};
ghost use Rattle.nv_steps.specs.Turns.{IsMove};

use crate::beside::Beside;
use crate::cell::LockedCell;
use crate::names::{Blocks, Commits};
use nv_alloc::Hand;
use nv_book::Record;
use nv_cell::{InodeCell, Mark};
use nv_clean::{Cleaned, Unlinkable, Wanted, laws};
use nv_entry::PartId;
use std::sync::ledger::Share;

/// Whether a record can be released from a cell, and what this sets free can go to a hand that has room.
pub(crate) fn can_release(cell: &InodeCell, picked: &Record, hand: &Hand) -> bool
    ensures { IsTrue result ↔ CanRelease cell.now.state picked.now hand.now }
{
    let part = PartId {
        entry: picked.entry,
        part: picked.part,
    };
    cell.mark(part) == Some(Mark::Kept)
        && cell.tail() == cell.len()
        && hand.data.block_bytes() as u64 == cell.block_bytes()
        && (!cell.is_gone() || takes_gone(cell, hand))
}

/// Whether chain and number of an inode that is gone can go to the hand.
fn takes_gone(cell: &InodeCell, hand: &Hand) -> bool
    ensures { IsTrue result ↔ CanTakeGone hand.now cell.now.state }
{
    !cell.is_withheld() && hand.chain.is_empty() && hand.ino().is_none()
}

/// Moves between the shares of a cell and of a hand what went between these: the hand had `before` blocks and has
/// `after`.
fn move_blocks<B: Blocks>(cell: &mut Share<B>, hand: &mut Share<B>, before: u64, after: u64)
    requires parts { (0 < cell.old.parts) × (0 < hand.old.parts) }
    requires before { hand.old.amount ≡ before }
    requires fits { after ≤ cell.old.amount + before }
    ensures parts { (cell.new.parts ≡ cell.old.parts) × (hand.new.parts ≡ hand.old.parts) }
    ensures cell { cell.new.amount + after ≡ cell.old.amount + before }
    ensures hand { hand.new.amount ≡ after }
{
    hand.transfer(cell, before);
    cell.transfer(hand, after);
}

impl<C: Commits, B: Blocks> LockedCell<C, B> {
    /// Releases a deferred record of the cell, as [`nv_steps::release`] does.
    pub(crate) fn release(&mut self, picked: Record, hand: &mut Hand, mine: &mut Share<B>)
        requires there { IsThere self.old }
        requires own { picked.ino ≡ self.old.ino }
        requires can { CanRelease (cell_of self.old).state picked hand.old }
        requires room { 0 < hand.old.data.room }
        requires part { 0 < mine.old.parts }
        requires amount { mine.old.amount ≡ length (blocks_of hand.old) }
        // It is one turn of the machine, wherever the other parts are.
        ensures turn { (numbers : GeometryNumbers) (actor : ℕ) (draining : Draining) (r : Running)
            → IsHolding picked.ino (machine.Release draining picked) r → IsMove numbers actor
            (on_cell picked.ino r (hand_of hand.old) true (cell_of self.old).state
            (cell_of self.new).state) (hand_of hand.new)
            (once_ending (machine.Drains (one_more draining)) r) }
        ensures ino { self.new.ino ≡ self.old.ino }
        ensures cell { (cell_of self.new).state
            ≡ erased (released picked (cell_of self.old).state) }
        ensures there { IsThere self.new }
        ensures version { self.new.version ≡ self.old.version }
        ensures hand { hand.new ≡ hand_with picked.ino (released picked (cell_of self.old).state)
            (record hand.old {
              «data» = with_back (released_blocks picked (cell_of self.old).state) hand.old.data;
            }) }
        ensures parts { mine.new.parts ≡ mine.old.parts }
        ensures amount { mine.new.amount ≡ length (blocks_of hand.new) }
    {
        laws::releases_keep_the_number_of_blocks();
        let Some(cell) = &mut self.cell else {
            unreachable!()
        };
        cell.holds_together();
        let before = hand.len();
        nv_steps::release(cell, hand, picked);
        let mut beside = Beside::taken(&mut self.beside);
        move_blocks(&mut beside.blocks, mine, before, hand.len());
        self.beside = beside.hidden();
    }

    /// Unlinks the log pages that the planning found, as [`unlink`](nv_steps::unlink) does.
    pub(crate) fn unlink(
        &mut self,
        walk: Unlinkable,
        hand: &mut Hand,
        mine: &mut Share<B>,
    ) -> Cleaned
        requires there { IsThere self.old }
        requires walk { walk ≡ unlinkable_of (cell_of self.old).state }
        requires can { CanUnlink (cell_of self.old).state walk hand.old }
        requires part { 0 < mine.old.parts }
        requires amount { mine.old.amount ≡ length (blocks_of hand.old) }
        // It is one turn of the machine, wherever the other parts are.
        ensures turn { (numbers : GeometryNumbers) (actor ino : ℕ) (granted : Bool) (r : Running)
            → IsHolding ino (machine.Unlink ino) r
            → IsMove numbers actor (on_cell ino r (hand_of hand.old) granted
            (cell_of self.old).state (cell_of self.new).state)
            (hand_of hand.new) (once_ending (machine.Cleans result) r) }
        ensures ino { self.new.ino ≡ self.old.ino }
        ensures cell { (cell_of self.new).state
            ≡ with_pages_unlinked walk (cell_of self.old).state }
        ensures there { IsThere self.new }
        ensures version { self.new.version ≡ self.old.version }
        ensures hand { hand.new ≡ with_gone walk (cell_of self.old).state hand.old }
        ensures answer { result
            ≡ answer_of false (cell_of self.old).state (cell_of self.new).state }
        ensures parts { mine.new.parts ≡ mine.old.parts }
        ensures amount { mine.new.amount ≡ length (blocks_of hand.new) }
    {
        laws::cleanings_keep_the_number_of_blocks();
        let Some(cell) = &mut self.cell else {
            unreachable!()
        };
        cell.holds_together();
        let before = hand.len();
        let cleaned = nv_steps::unlink(cell, hand, walk);
        let mut beside = Beside::taken(&mut self.beside);
        move_blocks(&mut beside.blocks, mine, before, hand.len());
        self.beside = beside.hidden();
        cleaned
    }

    /// Moves the entries that the planning found to stay to the log pages of the hand, which gets the old ones, as
    /// [`compact`](nv_steps::compact) does. Some entry goes.
    pub(crate) fn compact(&mut self, walk: Wanted, hand: &mut Hand, mine: &mut Share<B>) -> Cleaned
        requires there { IsThere self.old }
        requires walk { walk ≡ wanted_of (cell_of self.old).state }
        requires some { (walk.dropped == 0) ≡ false }
        requires can { CanCompact (cell_of self.old).state walk hand.old }
        requires part { 0 < mine.old.parts }
        requires amount { mine.old.amount ≡ length (blocks_of hand.old) }
        ensures turn { (numbers : GeometryNumbers) (actor ino : ℕ) (granted : Bool) (r : Running)
            → IsHolding ino (machine.Compact ino) r
            → IsMove numbers actor (on_cell ino r (hand_of hand.old) granted
            (cell_of self.old).state (cell_of self.new).state)
            (hand_of hand.new) (once_ending (machine.Cleans result) r) }
        ensures ino { self.new.ino ≡ self.old.ino }
        ensures cell { (cell_of self.new).state
            ≡ with_entries walk hand.old.pages.blocks (cell_of self.old).state }
        ensures there { IsThere self.new }
        ensures version { self.new.version ≡ self.old.version }
        ensures hand { hand.new ≡ with_chain walk (cell_of self.old).state hand.old }
        ensures answer { result
            ≡ answer_of true (cell_of self.old).state (cell_of self.new).state }
        ensures parts { mine.new.parts ≡ mine.old.parts }
        ensures amount { mine.new.amount ≡ length (blocks_of hand.new) }
    {
        laws::cleanings_keep_the_number_of_blocks();
        let Some(cell) = &mut self.cell else {
            unreachable!()
        };
        cell.holds_together();
        let before = hand.len();
        let cleaned = nv_steps::compact(cell, hand, walk);
        let mut beside = Beside::taken(&mut self.beside);
        move_blocks(&mut beside.blocks, mine, before, hand.len());
        self.beside = beside.hidden();
        cleaned
    }
}
