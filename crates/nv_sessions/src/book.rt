//! The book under the commit lock.

ghost use Rattle.std.specs.Prelude.{◌≡◌, ◌+◌, ◌<◌, ◌≤◌, ◌↔◌, ℕ, Bool, List, [], IfOk, IsOk, IsTrue, None, OnErr, OnOk, Some, length};
ghost use Rattle.std.specs.Option.{ForSome, IsSomeAnd};
ghost use Rattle.nv_base.specs.Memory.{out_of_memory};
ghost use Rattle.nv_base.specs.Refusals.{FailsEither, FailsOnly, IsRefusedBy};
ghost use Rattle.nv_base.specs.declared.fault.Fault.TheVariants as fault;
ghost use Rattle.nv_base.specs.declared.geometry.GeometryNumbers.{GeometryNumbers};
ghost use Rattle.nv_base.specs.declared.limits.TheConstants.{NUMBER, PINS};
ghost use Rattle.nv_book.specs.Book.{after_drop_snapshot, after_enter, after_make_snapshot};
ghost use Rattle.nv_book.specs.Manifests.{gain_of};
ghost use Rattle.nv_book.specs.Records.{block_count};
ghost use Rattle.nv_book.specs.Store.{nodes_wanted};
ghost use Rattle.nv_entry.specs.declared.tree.TreeNode.{TreeNode};
ghost use Rattle.nv_epoch.specs.Holders.{next_older};
ghost use Rattle.nv_epoch.specs.SnapList.{ids, pins_of};
ghost use Rattle.nv_machine.specs.SnapshotOrCleaner.{shown_by};
ghost use Rattle.nv_machine.specs.World as machine;
ghost use Rattle.nv_machine.specs.World.{HandState, Running, empty_hand};
ghost use Rattle.nv_sessions.specs.Draining.{EndsPick, IsPickedFrom};
ghost use Rattle.nv_steps.specs.Hands.{hand_of};
ghost use Rattle.nv_steps.specs.OnBook.{IsBefore, IsPickTurn, IsTurnTo, answer_of_show, drain_of, on_book, once_pinned, room_behind, was_granted};
ghost use Rattle.nv_steps.specs.Turns.{IsEnd};

use crate::deferred_flag::{DeferredFlag, has_deferred};
use crate::names::{Commits, SnapLedger};
use nv_alloc::Hand;
use nv_base::{CommitNo, Epoch, Fault};
use nv_book::Book;
use nv_calls::Answer;
use nv_entry::Tree;
use nv_reader::Showing;
use nv_steps::Picked;
use std::alloc::Global;
use std::marker::Model;
use std::sync::ledger;
use std::sync::ledger::Share;

/// The book, with the ledgers that count its commits, and its makings and drops of snapshots, and what the flag of deferred
/// records says.
#[derive(Drop)]
pub struct LockedBook<C: Commits> {
    pub(crate) book: Book,
    pub(crate) commits: ledger::Book<C>,
    pub(crate) snap_book: ledger::Book<SnapLedger<C>>,
    pub(crate) flagged: bool,
}

impl<C: Commits> Model for LockedBook<C> {
    ghost use Rattle.std.specs.Prelude.{◌≡◌, ◌+◌};
    ghost use Rattle.nv_book.specs.Book.{BookValue};
    ghost use Rattle.nv_sessions.specs.Deferred.{has_some};
    ghost use Rattle.nv_sessions.specs.Snapped.{AreSnapped};

    ghost Value = { BookValue };

    ghost view = { λ b. b.book };

    // Its commit number is that at the opening and what the ledger of commits counts.
    // The flag is raised exactly where a record is deferred.
    ghost invariant = { λ b. (b.book.state.commit ≡ C.commit + b.commits.total)
        × AreSnapped C.living C.epoch b.book.state.snaps b.snap_book.total
        × (b.flagged ≡ has_some b.book.state.deferred) };
}

impl<C: Commits> LockedBook<C> {
    /// The book.
    pub fn part(&self) -> &Book
        ensures { result.now ≡ self.now }
    {
        &self.book
    }

    /// Fixes number and epoch of the seat's next commit, as [`Book::enter`] does, and counts it as one of the share's.
    /// The number is at least that at the opening and the commits of the share.
    pub(crate) fn enter(
        &mut self,
        seat: u64,
        need: u64,
        mine: &mut Share<C>,
    ) -> Result<(Epoch, CommitNo), Fault>
        requires part { 0 < mine.old.parts }
        // A commit gets its number as by `Book::enter`, and counts as one of the session's.
        ensures ok { OnOk result (self.new
            ≡ record { state = after_enter seat self.old.state; room = need }) }
        ensures epoch { IfOk result (λ fixed. fixed.0 ≡ self.old.state.snaps.epoch) }
        ensures number { IfOk result (λ fixed. fixed.1 ≡ self.new.state.commit) }
        ensures limit { IsRefusedBy result fault.CommitLimit ↔ (self.old.state.commit ≡ NUMBER) }
        ensures enough { self.old.state.commit < NUMBER → need ≤ self.old.room → IsOk result }
        ensures none_lives { self.old.state.commit < NUMBER → self.old.state.snaps.living ≡ []
            → IsOk result }
        ensures err { FailsEither fault.CommitLimit out_of_memory result }
        ensures counted { OnOk result (mine.new.amount ≡ mine.old.amount + 1) }
        // The number is at least that at the opening and the session's commits.
        ensures least { OnOk result (C.commit + mine.new.amount ≤ self.new.state.commit) }
        ensures parts { mine.new.parts ≡ mine.old.parts }
        ensures same { OnErr result ((self.new ≡ self.old) × (mine.new.amount ≡ mine.old.amount)) }
    {
        let fixed = self.book.enter(seat, need)?;
        self.commits.add(mine, 1);
        self.commits.audit(mine);
        Ok(fixed)
    }

    /// Makes a snapshot of the current epoch, as [`Book::make_snapshot`] does, and counts it in the share. It is no commit.
    /// They are those of `Book`, and no commits.
    pub(crate) fn make_snapshot(&mut self, mine: &mut Share<SnapLedger<C>>) -> Result<Answer, Fault>
        requires part { 0 < mine.old.parts }
        // It is one turn of the machine, wherever the other parts are.
        ensures turn { (numbers : GeometryNumbers) (actor : ℕ) (granted : Bool) (r : Running)
            → IsBefore machine.Make r
            → IsEnd numbers actor (on_book r empty_hand granted self.old.state self.new.state)
            result empty_hand }
        ensures made { IsOk result ↔ ((self.old.state.snaps.epoch < NUMBER)
            × (length self.old.state.snaps.living < self.old.state.snaps.most)) }
        ensures epoch_limit { IsRefusedBy result fault.EpochLimit
            ↔ (self.old.state.snaps.epoch ≡ NUMBER) }
        ensures too_many { IsRefusedBy result fault.TooManySnapshots
            ↔ ((self.old.state.snaps.epoch < NUMBER)
            × (length self.old.state.snaps.living ≡ self.old.state.snaps.most)) }
        // Each is refused by its two faults alone.
        ensures err { FailsEither fault.EpochLimit fault.TooManySnapshots result }
        ensures answer { IfOk result (λ a. a ≡ Answer.Snapshot self.old.state.snaps.epoch) }
        ensures ok { OnOk result (self.new ≡ record {
          state = after_make_snapshot self.old.state;
          room = nodes_wanted self.old.state.manifests self.old.room;
        }) }
        // Each counts as one making or drop of the session's.
        ensures counted { OnOk result (mine.new.amount ≡ mine.old.amount + 1) }
        ensures parts { mine.new.parts ≡ mine.old.parts }
        ensures same { OnErr result ((self.new ≡ self.old) × (mine.new.amount ≡ mine.old.amount)) }
    {
        // Neither the epoch nor the number of snapshots is over its limit.
        self.book.snaps().rises();
        let answer = nv_steps::make_snapshot(&mut self.book)?;
        self.snap_book.add(mine, 1);
        Ok(answer)
    }

    /// Drops the snapshot `s`, as [`Book::drop_snapshot`] does, and counts it in the share. Raises the flag where it deferred
    /// a record.
    pub(crate) fn drop_snapshot(
        &mut self,
        s: Epoch,
        mine: &mut Share<SnapLedger<C>>,
        flag: &DeferredFlag,
    ) -> Result<Answer, Fault>
        requires part { 0 < mine.old.parts }
        // It is one turn of the machine, wherever the other parts are.
        ensures turn { (numbers : GeometryNumbers) (actor : ℕ) (granted : Bool) (r : Running)
            → IsBefore (machine.Drop s) r
            → IsEnd numbers actor (on_book r empty_hand granted self.old.state self.new.state)
            result empty_hand }
        ensures dropped { IsOk result ↔ (pins_of self.old.state.snaps s ≡ Some 0) }
        ensures no_snapshot { IsRefusedBy result fault.NoSnapshot
            ↔ (pins_of self.old.state.snaps s ≡ None) }
        ensures pinned { IsRefusedBy result fault.Pinned
            ↔ IsSomeAnd (pins_of self.old.state.snaps s) (λ pins. 0 < pins) }
        ensures answer { IfOk result (λ a. a ≡ Answer.Nothing) }
        ensures ok { OnOk result (self.new
            ≡ record self.old { state = after_drop_snapshot s self.old.state }) }
        ensures err { FailsEither fault.NoSnapshot fault.Pinned result }
        ensures gain { OnOk result (block_count self.new.state.deferred
            ≡ block_count self.old.state.deferred
            + gain_of s (next_older (ids self.old.state.snaps) s) self.old.state.manifests) }
        ensures counted { OnOk result (mine.new.amount ≡ mine.old.amount + 1) }
        ensures parts { mine.new.parts ≡ mine.old.parts }
        ensures same { OnErr result ((self.new ≡ self.old) × (mine.new.amount ≡ mine.old.amount)) }
    {
        self.book.snaps().rises();
        let answer = nv_steps::drop_snapshot(&mut self.book, s)?;
        self.snap_book.add(mine, 1);
        flag.set(&mut self.flagged, has_deferred(&self.book));
        Ok(answer)
    }

    /// Whether the snapshot `s`, if it lives, may have one more pin.
    pub(crate) fn may_pin(&self, s: Epoch) -> bool
        ensures { IsTrue result
            ↔ ForSome (pins_of self.now.state.snaps s) (λ pins. pins < PINS) }
    {
        let snaps = self.book.snaps();
        !snaps.has(s) || snaps.can_pin(s)
    }

    /// Whether the snapshot `s` lives and has a pin.
    pub(crate) fn is_pinned(&self, s: Epoch) -> bool
        ensures { IsTrue result
            ↔ IsSomeAnd (pins_of self.now.state.snaps s) (λ pins. 0 < pins) }
    {
        self.book.snaps().pins(s).is_some_and(|pins| pins > 0)
    }

    /// Adds a pin to the snapshot `s`, and begins a show over so many inodes, as [`nv_steps::pin`] does.
    pub(crate) fn pin(&mut self, alloc: Global, s: Epoch, inodes: usize) -> Result<Showing, Fault>
        requires { ForSome (pins_of self.old.state.snaps s) (λ pins. pins < PINS) }
        // It is one turn of the machine, wherever the other parts are.
        ensures turn { (numbers : GeometryNumbers) (actor : ℕ) (granted : Bool) (r : Running)
            → numbers.inodes ≡ inodes → IsBefore (machine.Pin s) r
            → IsTurnTo numbers actor
            (on_book r empty_hand granted self.old.state self.new.state) (once_pinned s r) result
            empty_hand }
        ensures err { FailsOnly fault.NoSnapshot result }
    {
        nv_steps::pin(alloc, &mut self.book, s, inodes)
    }

    /// Takes a pin from the snapshot `s`, and answers what was shown, as [`nv_steps::unpin`] does.
    pub(crate) fn unpin(&mut self, s: Epoch, shown: Result<Tree, Fault>) -> Result<Answer, Fault>
        requires { IsSomeAnd (pins_of self.old.state.snaps s) (λ pins. 0 < pins) }
        // It is one turn of the machine, wherever the other parts are.
        ensures turn { (numbers : GeometryNumbers) (actor : ℕ) (granted : Bool) (h : HandState)
            (r : Running) (seen : List TreeNode)
            → r.next ≡ machine.SnapshotOrCleaner (machine.Unpin s seen)
            → shown_by r.ending seen ≡ answer_of_show shown
            → IsEnd numbers actor (on_book r h granted self.old.state self.new.state) result h }
        // It answers what was seen, or for what the show is refused.
        ensures told { result ≡ answer_of_show shown }
    {
        nv_steps::unpin(&mut self.book, s, shown)
    }

    /// Picks the first deferred record for a drain that has released so many, as [`nv_steps::pick`] does. Lowers the flag where
    /// none is left.
    pub(crate) fn pick(&mut self, hand: &mut Hand, released: u64, flag: &DeferredFlag) -> Picked
        requires empty { hand_of hand.old ≡ empty_hand }
        // It is one turn of the machine, wherever the other parts are.
        ensures turn { (numbers : GeometryNumbers) (actor left : ℕ) (r : Running)
            → IsBefore (machine.Pick (drain_of released left)) r → IsPickTurn numbers actor
            (on_book r empty_hand (was_granted result) self.old.state self.new.state)
            (drain_of released left) result empty_hand }
        ensures ends { EndsPick released result }
        ensures from { IsPickedFrom self.old.state self.new.state result }
        // A first pick leaves room for a block, and nothing else of the hand changes.
        ensures hand { hand.new ≡ record hand.old {
          «data» = record hand.old.data {
            room = room_behind released (was_granted result) hand.old.data.room;
          };
        } }
    {
        let picked = nv_steps::pick(&mut self.book, hand, released);
        let left = has_deferred(&self.book);
        flag.set(&mut self.flagged, left);
        picked
    }
}
