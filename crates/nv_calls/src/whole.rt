//! Whole commits.

ghost use Rattle.std.specs.Prelude.{◌≡◌, ℕ, ◌<◌, ◌≤◌, ◌+◌, [], None, length, slice_index_or};
ghost use Rattle.std.specs.List.{sum_by};
ghost use Rattle.std.specs.Option.{IsSome, option_map};
ghost use Rattle.nv_base.specs.declared.numbers.Handle.{Handle};
ghost use Rattle.nv_cell.specs.Room.{IsReadyFor};
ghost use Rattle.nv_epoch.specs.SnapList.{ids};
ghost use Rattle.nv_calls.specs.CanCommit.{CanAppendAll, CanBePublished, CanCommit, CanRetireAll};
ghost use Rattle.nv_calls.specs.Cells.{AreCells, value_at};
ghost use Rattle.nv_calls.specs.Commit.{HasJournal, begun, stamp_of};
ghost use Rattle.nv_calls.specs.Committed.{ChangesPlanned, HaveAppendRoom, HaveSamePlaces, committed, grown, hand_after_killings, hand_before, hand_left, journaled, killed_count, killing, manifests_after, noted_killing, place_before, cell_place_of, receipt_by, room_left, settled_cell, settled_room};
ghost use Rattle.nv_calls.specs.PublishedPlans.{PublishesAll};
ghost use Rattle.nv_calls.specs.Ready.{ArePlaced, need_of, old_tails};

use crate::steps::{append_on, close_on, open_on, publish_on, retire_on};
use crate::{Cells, Commit, Ready, Receipt};
use nv_alloc::Hand;
use nv_book::Book;

/// Appends all entries of a commit.
fn append_all<C: Cells>(cells: &mut C, commit: &mut Commit)
    requires first { commit.old.appended ≡ 0 }
    requires place { commit.old.place ≡ 0 }
    requires placed { ArePlaced (C.cells cells.old) commit.old.plans }
    requires can { CanAppendAll (C.cells cells.old) commit.old }
    ensures cells { ChangesPlanned commit.old.plans
        (λ j. (grown (C.cells cells.old) commit.old j).state)
        (C.cells cells.old) (C.cells cells.new) }
    ensures room { (j : ℕ) → j < length commit.old.plans
        → (value_at (C.cells cells.new) (cell_place_of commit.old.plans j)).room
        ≡ (grown (C.cells cells.old) commit.old j).room }
    ensures ready { (j : ℕ) → j < length commit.old.plans
        → IsReadyFor [] (value_at (C.cells cells.new) (cell_place_of commit.old.plans j)) }
    ensures plans { HaveSamePlaces commit.old.plans commit.new.plans }
    ensures commit { let count = length commit.old.plans in commit.new ≡ record commit.old {
      plans = commit.new.plans;
      hand = hand_before (C.cells cells.old) commit.old count;
      place = place_before commit.old.plans count;
      appended = count;
    } }
    ensures frame { C.frame cells.new ≡ C.frame cells.old }
{
    for _plan in 0..commit.planned() {
        append_on(cells, commit);
    }
}

/// Publishes all entries of a commit.
fn publish_all<C: Cells>(book: &Book, cells: &mut C, commit: &mut Commit)
    requires appended { commit.old.appended ≡ length commit.old.plans }
    requires first { commit.old.published ≡ 0 }
    requires journal { 2 ≤ length commit.old.plans → HasJournal book.now.state commit.old }
    requires noted { 2 ≤ length commit.old.plans
        → commit.old.noted ≡ old_tails (C.cells cells.old) commit.old.plans }
    requires placed { ArePlaced (C.cells cells.old) commit.old.plans }
    requires can { (j : ℕ) → j < length commit.old.plans
        → CanBePublished (value_at (C.cells cells.old) (cell_place_of commit.old.plans j)) }
    ensures published { PublishesAll commit.old.plans commit.new.plans
        (C.cells cells.old) (C.cells cells.new) }
    ensures commit { commit.new ≡ record commit.old {
      plans = commit.new.plans;
      published = length commit.old.plans;
    } }
    ensures frame { C.frame cells.new ≡ C.frame cells.old }
{
    for _plan in 0..commit.planned() {
        publish_on(book, cells, commit);
    }
}

/// Publishes all entries of a commit, and of two or more cells inside the CPU's journal.
fn publish_noted<C: Cells>(book: &mut Book, cells: &mut C, commit: &mut Commit, cpu: u64)
    requires appended { commit.old.appended ≡ length commit.old.plans }
    requires first { commit.old.published ≡ 0 }
    requires journal { commit.old.journal ≡ None }
    requires noted { commit.old.noted ≡ [] }
    requires cells { AreCells (C.cells cells.old) }
    requires placed { ArePlaced (C.cells cells.old) commit.old.plans }
    requires can { (j : ℕ) → j < length commit.old.plans
        → CanBePublished (value_at (C.cells cells.old) (cell_place_of commit.old.plans j)) }
    requires number { commit.old.hand.ino ≡ option_map (λ (h : Handle). h.ino) commit.old.made }
    requires linked { IsSome commit.old.made → 2 ≤ length commit.old.plans }
    requires cpu { cpu < length book.old.state.journals }
    requires closed { slice_index_or book.old.state.journals cpu [] ≡ [] }
    ensures book { book.new ≡ book.old }
    ensures published { PublishesAll commit.old.plans commit.new.plans
        (C.cells cells.old) (C.cells cells.new) }
    ensures commit { commit.new ≡ record commit.old {
      plans = commit.new.plans;
      hand = record commit.old.hand { ino = None };
      published = length commit.old.plans;
      noted = journaled (C.cells cells.old) commit.old.plans;
    } }
    ensures frame { C.frame cells.new ≡ C.frame cells.old }
{
    if commit.planned() < 2 {
        publish_all(book, cells, commit);
        return;
    }
    open_on(book, cells, commit, cpu);
    publish_all(book, cells, commit);
    close_on(book, commit);
}

/// Retires all that a commit killed.
fn retire_all<C: Cells>(book: &mut Book, cells: &mut C, commit: &mut Commit)
    requires published { commit.old.published ≡ length commit.old.plans }
    requires first { commit.old.retired ≡ 0 }
    requires closed { commit.old.journal ≡ None }
    requires placed { ArePlaced (C.cells cells.old) commit.old.plans }
    requires dead { commit.old.stamp.epoch ≤ book.old.state.snaps.epoch }
    requires can { CanRetireAll book.old.room (C.cells cells.old) commit.old }
    ensures cells { ChangesPlanned commit.old.plans
        (λ j. settled_cell (ids book.old.state.snaps) commit.old.stamp.epoch
        (noted_killing (C.cells cells.old) commit.old j)) (C.cells cells.old) (C.cells cells.new) }
    ensures cell_room { (j : ℕ) → j < length commit.old.plans
        → (value_at (C.cells cells.new) (cell_place_of commit.old.plans j)).room
        ≡ settled_room (ids book.old.state.snaps) commit.old.stamp.epoch
        (noted_killing (C.cells cells.old) commit.old j)
        (value_at (C.cells cells.old) (cell_place_of commit.old.plans j)).room }
    ensures room { book.old.room ≤ book.new.room + sum_by killed_count commit.old.plans }
    ensures book { book.new.state ≡ record book.old.state {
      manifests = manifests_after (ids book.old.state.snaps) commit.old.stamp.epoch
          (noted_killing (C.cells cells.old) commit.old) (length commit.old.plans)
          book.old.state.manifests;
    } }
    ensures plans { HaveSamePlaces commit.old.plans commit.new.plans }
    ensures commit { commit.new ≡ record commit.old {
      plans = commit.new.plans;
      hand = hand_after_killings (ids book.old.state.snaps) commit.old.stamp.epoch
          (noted_killing (C.cells cells.old) commit.old) (length commit.old.plans) commit.old.hand;
      retired = length commit.old.plans;
    } }
    ensures frame { C.frame cells.new ≡ C.frame cells.old }
{
    for _plan in 0..commit.planned() {
        retire_on(book, cells, commit);
    }
}

/// Commits what is ready as the book's latest commit, which [`Book::enter`] gave last: all entries are appended, and
/// then published, of two or more cells inside the CPU's journal, and what that kills is retired. Every entry has the
/// number and the epoch of that commit. Takes no memory; the time is that of its steps: of the entries, the blocks that
/// they take and the parts that they kill, whatever else the logs hold.
///
/// [`crate::laws::what_is_ready_can_be_committed`] gives what it asks, of what was made ready and of
/// what its caller knows.
/// A commit of two cells or more publishes inside the journal.
/// The journal stays open from the first publish to the last.
pub fn commit_on<C: Cells>(
    book: &mut Book,
    cells: &mut C,
    ready: Ready,
    cpu: u64,
) -> (Receipt, Hand)
    requires { CanCommit (C.cells cells.old) book.old cpu ready }
    // A commit appends, publishes and retires every planned cell in order.
    // A commit has the number and epoch of the book's latest commit, just entered.
    // No other cell changes by a commit, and the journal is closed again.
    ensures cells { let commit = begun (stamp_of book.old.state) ready in
        ChangesPlanned ready.plans (committed (ids book.old.state.snaps) (C.cells cells.old) commit)
        (C.cells cells.old) (C.cells cells.new) }
    // The manifests have the records in order.
    ensures book { let commit = begun (stamp_of book.old.state) ready in
        book.new.state ≡ record book.old.state {
          manifests = manifests_after (ids book.old.state.snaps) commit.stamp.epoch
              (killing (C.cells cells.old) commit) (length ready.plans) book.old.state.manifests;
        } }
    // Each planned cell keeps the room to append that its entries left, or none where it is erased.
    ensures cell_room { let commit = begun (stamp_of book.old.state) ready in
        HaveAppendRoom ready.plans (room_left (ids book.old.state.snaps) (C.cells cells.old) commit)
        (C.cells cells.new) }
    // The book keeps its room except for the need.
    ensures room { book.old.room ≤ book.new.room + need_of (C.cells cells.old) ready.plans }
    // Only a whole commit makes a receipt, once all is retired and the journal is closed.
    ensures receipt { result.0
        ≡ receipt_by (C.cells cells.old) (begun (stamp_of book.old.state) ready) }
    // The hand has what is left and what is free.
    ensures hand { result.1 ≡ hand_left (ids book.old.state.snaps) (C.cells cells.old)
        (begun (stamp_of book.old.state) ready) }
    ensures frame { C.frame cells.new ≡ C.frame cells.old }
{
    let mut commit = Commit::begin(ready, book);
    append_all(cells, &mut commit);
    publish_noted(book, cells, &mut commit, cpu);
    retire_all(book, cells, &mut commit);
    commit.finish()
}
