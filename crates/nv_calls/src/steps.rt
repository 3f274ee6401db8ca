//! The steps of a commit, cell by cell.

ghost use Rattle.std.specs.Prelude.{◌≡◌, ◌<◌, ◌≤◌, ◌+◌, ◌^◌, [], None, length, map, slice_index_or};
ghost use Rattle.std.specs.List.{sum_by};
ghost use Rattle.std.specs.Option.{option_map};
ghost use Rattle.nv_base.specs.declared.numbers.Handle.{Handle};
ghost use Rattle.nv_book.specs.Book.{with_journal};
ghost use Rattle.nv_cell.specs.Cell.{KeepsAppendRoom, fresh_of, killed_by, log_of, published};
ghost use Rattle.nv_cell.specs.Effects.{BindNone, items_of};
ghost use Rattle.nv_cell.specs.Killed.{AreKilled};
ghost use Rattle.nv_cell.specs.Room.{IsReadyFor};
ghost use Rattle.nv_cell.specs.Weights.{page_runs_needed, weights_in};
ghost use Rattle.nv_epoch.specs.SnapList.{ids};
ghost use Rattle.nv_calls.specs.Cells.{AreCells, OnlyAt, ino_at, state_at, value_at, with_value};
ghost use Rattle.nv_calls.specs.Commit.{HasJournal, NotesNext, after_append, after_close, after_open, after_publish, after_retire, to_append, to_publish, to_retire, without_journal};
ghost use Rattle.nv_calls.specs.Ready.{ArePlaced, old_tails};
ghost use Rattle.nv_calls.specs.Retired.{CanRetire};
ghost use Rattle.nv_calls.specs.Retiring.{erased, part_in, retired, room_erased, with_records};
ghost use Rattle.nv_calls.specs.Steps.{CanAppendPlan, with_plan};

use crate::append::{add_pages, append_to_pages};
use crate::journal::open_journal;
use crate::retire::{erase_gone, retire_parts};
use crate::{Cells, Commit};
use nv_book::Book;
use std::collections::VecDeque;

/// Appends the entries of the next cell past its tail, with pages of the log and the blocks of their pages from the
/// call's hand. Takes no memory; the time is that of these entries and of the blocks that they take.
/// The log pages and the blocks of the entries' pages come from the call's hand.
pub fn append_on<C: Cells>(cells: &mut C, commit: &mut Commit)
    requires turn { commit.old.appended < length commit.old.plans }
    requires within { (to_append commit.old).at < length (C.cells cells.old) }
    // Callers append only entries that are later than the last one of their cell.
    requires can { let plan = to_append commit.old in
        CanAppendPlan commit.old.stamp commit.old.place plan.items commit.old.hand
        (value_at (C.cells cells.old) plan.at) }
    // The entries of the next cell are appended past its tail.
    // Entry ids are the commit's, in a row over all cells.
    // The epoch of appended entries is the commit's.
    ensures cells { let plan = to_append commit.old in
        C.cells cells.new ≡ with_value (C.cells cells.old) plan.at
        (with_plan commit.old.stamp commit.old.place plan.items commit.old.hand
        (value_at (C.cells cells.old) plan.at)) }
    ensures commit { commit.new
        ≡ after_append (state_at (C.cells cells.old) (to_append commit.old).at).chain commit.old }
    // A cell can publish the entries that were appended.
    ensures can_publish { IsReadyFor [] (value_at (C.cells cells.new) (to_append commit.old).at) }
    ensures frame { C.frame cells.new ≡ C.frame cells.old }
{
    let j = commit.appended;
    let k = commit.place_of(j);
    let items = commit.take_items(j);
    let count = items.len();
    let pages = cells.cell(k).pages_for(count);
    add_pages(cells, k, pages, &mut commit.hand.pages);
    // The log is one, so that its pages take the entries.
    cells.cell(k).holds_together();
    let mut left = VecDeque::from_vec(items);
    let blocks = &mut commit.hand.data;
    append_to_pages(cells, k, &commit.stamp, commit.place, &mut left, blocks);
    commit.place += count as u32;
    commit.appended += 1;
}

/// Opens a CPU's journal with the cells that get entries and their tails, where they are two or more and all entries
/// are appended. Takes no memory; the time is that of at most four cells.
/// Callers open the journal only where two or more inodes get entries.
pub fn open_on<C: Cells>(book: &mut Book, cells: &C, commit: &mut Commit, cpu: u64)
    requires turn { commit.old.appended ≡ length commit.old.plans }
    requires first { commit.old.published ≡ 0 }
    requires cells { AreCells (C.cells cells.now) }
    requires placed { ArePlaced (C.cells cells.now) commit.old.plans }
    requires two { 2 ≤ length commit.old.plans }
    requires none { commit.old.journal ≡ None }
    requires cpu { cpu < length book.old.state.journals }
    requires closed { slice_index_or book.old.state.journals cpu [] ≡ [] }
    // Once all is appended, the journal of a CPU notes the inodes with their tails.
    ensures book { book.new ≡ record book.old {
      state = with_journal cpu (old_tails (C.cells cells.now) commit.old.plans) book.old.state;
    } }
    // The commit keeps which CPU's journal it is and what it notes.
    ensures commit { commit.new
        ≡ after_open cpu (old_tails (C.cells cells.now) commit.old.plans) commit.old }
{
    let tails = open_journal(commit.alloc, book, cells, &commit.plans, cpu);
    commit.noted = tails;
    commit.journal = Some(cpu);
}

/// Publishes the entries of the next cell, which moves its tail, and keeps the parts that this kills. All entries are
/// appended, and of two or more cells the journal is open in the book, and notes the tail. Takes no memory; the time is
/// that of one publish of a cell.
pub fn publish_on<C: Cells>(_book: &Book, cells: &mut C, commit: &mut Commit)
    requires turn { commit.old.published < length commit.old.plans }
    requires appended { commit.old.appended ≡ length commit.old.plans }
    // Callers publish one of two cells or more only while the journal of the commit is open.
    // The journal notes the cell that is published with the tail that it has.
    requires journal { 2 ≤ length commit.old.plans
        → NotesNext _book.now.state (C.cells cells.old) commit.old }
    requires within { (to_publish commit.old).at < length (C.cells cells.old) }
    requires some { let cell = state_at (C.cells cells.old) (to_publish commit.old).at in
        cell.chain.tail < length cell.chain.entries }
    requires version { (state_at (C.cells cells.old) (to_publish commit.old).at).version < 2 ^ 62 }
    requires ready { IsReadyFor [] (value_at (C.cells cells.old) (to_publish commit.old).at) }
    ensures cells { OnlyAt (to_publish commit.old).at (C.cells cells.old) (C.cells cells.new) }
    // Publishing the next cell moves its tail.
    ensures state { let k = (to_publish commit.old).at in
        state_at (C.cells cells.new) k ≡ published (state_at (C.cells cells.old) k) }
    // Publishing a cell keeps the parts that it kills.
    ensures commit { let cell = state_at (C.cells cells.old) (to_publish commit.old).at in
        commit.new ≡ after_publish (killed_by cell) commit.old }
    // Each killed part is told once, and there are no more than were told before.
    ensures few { let cell = state_at (C.cells cells.old) (to_publish commit.old).at in
        length (killed_by cell) ≤ weights_in cell.block (log_of cell) (items_of (fresh_of cell)) }
    ensures marked { let k = (to_publish commit.old).at in
        AreKilled (map part_in (killed_by (state_at (C.cells cells.old) k)))
        (state_at (C.cells cells.new) k) }
    // Publishing keeps the room to append.
    ensures room { let k = (to_publish commit.old).at in
        KeepsAppendRoom (value_at (C.cells cells.old) k).room
        (value_at (C.cells cells.new) k).room }
    // Publishing uses no more of the room for page runs and for a name than the entries ask for.
    ensures runs { let k = (to_publish commit.old).at in
        let fresh = items_of (fresh_of (state_at (C.cells cells.old) k)) in
        (value_at (C.cells cells.old) k).room.runs
        ≤ (value_at (C.cells cells.new) k).room.runs + sum_by page_runs_needed fresh }
    ensures name { let k = (to_publish commit.old).at in
        BindNone (items_of (fresh_of (state_at (C.cells cells.old) k)))
        → (value_at (C.cells cells.new) k).room.name ≡ (value_at (C.cells cells.old) k).room.name }
    ensures frame { C.frame cells.new ≡ C.frame cells.old }
{
    let j = commit.published;
    let killed = cells.publish(commit.place_of(j));
    commit.keep_killed(j, killed);
    commit.published += 1;
}

/// Closes the journal that a commit opened, once all entries are published; it still has what the commit
/// noted. From here on a new inode has its number: it leaves the call's hand. Takes no memory; the time is
/// that of at most four cells.
pub fn close_on(book: &mut Book, commit: &mut Commit)
    requires turn { commit.old.published ≡ length commit.old.plans }
    requires journal { HasJournal book.old.state commit.old }
    requires number { commit.old.hand.ino ≡ option_map (λ (h : Handle). h.ino) commit.old.made }
    // Closing that journal, once all is published, forgets the tails.
    ensures book { book.new
        ≡ record book.old { state = without_journal commit.old book.old.state } }
    // The number of a new inode leaves the hand.
    ensures commit { commit.new ≡ after_close commit.old }
{
    let Some(cpu) = commit.journal else {
        unreachable!()
    };
    book.close_journal(cpu);
    let _number = commit.hand.take_ino();
    commit.journal = None;
}

/// Retires the parts that the publish of the next cell killed: each is recorded for the youngest living snapshot that
/// holds it, or else goes out, and its block to the call's hand. A gone inode of which nothing is kept is erased, and
/// its chain and number go to the hand. All entries are published, and the journal is closed. Takes no memory; the time
/// is that of the killed parts, each times the logarithms of the snapshots, entries and pages, and where an inode is
/// erased that of its entries.
/// The block of a part that goes out goes to the hand.
/// Callers retire a cell that is published as a whole, with its killed parts marked killed.
pub fn retire_on<C: Cells>(book: &mut Book, cells: &mut C, commit: &mut Commit)
    requires turn { commit.old.retired < length commit.old.plans }
    requires published { commit.old.published ≡ length commit.old.plans }
    requires closed { commit.old.journal ≡ None }
    requires within { (to_retire commit.old).at < length (C.cells cells.old) }
    requires dead { commit.old.stamp.epoch ≤ book.old.state.snaps.epoch }
    // The book's room falls by no more than the parts.
    requires room { length (to_retire commit.old).killed ≤ book.old.room }
    requires free { length (to_retire commit.old).killed ≤ commit.old.hand.data.room }
    requires can { let plan = to_retire commit.old in
        CanRetire plan.killed commit.old.hand (state_at (C.cells cells.old) plan.at) }
    ensures cells { OnlyAt (to_retire commit.old).at (C.cells cells.old) (C.cells cells.new) }
    // Each part that a publish killed is recorded with its youngest living holder, or goes out.
    // A gone inode of which nothing is kept is erased, its chain and its number in the hand.
    ensures state { let plan = to_retire commit.old in
        state_at (C.cells cells.new) plan.at ≡ erased (retired (ids book.old.state.snaps)
        (ino_at (C.cells cells.old) plan.at) commit.old.stamp.epoch plan.killed
        (state_at (C.cells cells.old) plan.at)) }
    // The cell keeps its room unless it is erased.
    ensures cell_room { let plan = to_retire commit.old in
        (value_at (C.cells cells.new) plan.at).room
        ≡ room_erased (retired (ids book.old.state.snaps)
        (ino_at (C.cells cells.old) plan.at) commit.old.stamp.epoch plan.killed
        (state_at (C.cells cells.old) plan.at)) (value_at (C.cells cells.old) plan.at).room }
    // A recorded part dies in the epoch of the commit.
    ensures book { let plan = to_retire commit.old in
        book.new.state ≡ record book.old.state {
          manifests = with_records (ids book.old.state.snaps) (ino_at (C.cells cells.old) plan.at)
              commit.old.stamp.epoch plan.killed book.old.state.manifests;
        } }
    ensures room { book.old.room ≤ book.new.room + length (to_retire commit.old).killed }
    // The commit goes on behind that cell.
    ensures commit { let plan = to_retire commit.old in
        commit.new ≡ after_retire (ids book.old.state.snaps) (ino_at (C.cells cells.old) plan.at)
        (state_at (C.cells cells.old) plan.at) commit.old }
    ensures frame { C.frame cells.new ≡ C.frame cells.old }
{
    let j = commit.retired;
    let k = commit.place_of(j);
    let epoch = commit.stamp.epoch;
    let killed = commit.take_killed(j);
    retire_parts(book, cells, k, epoch, &killed, &mut commit.hand.data);
    erase_gone(cells, k, &mut commit.hand);
    commit.retired += 1;
}
