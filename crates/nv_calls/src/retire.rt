//! The parts that a commit killed: each is recorded for the youngest snapshot that holds it, or let go.

ghost use Rattle.std.specs.Prelude.{◌≡◌, ◌+◌, ◌<◌, ◌≤◌, ◌++◌, ◌∷◌, [], None, Some, length, map, true};
ghost use Rattle.nv_epoch.specs.SnapList.{ids};
ghost use Rattle.nv_cell.specs.Cell.{log_of, mark_named};
ghost use Rattle.nv_cell.specs.Killed.{AreKilled};
ghost use Rattle.nv_cell.specs.Readers.{is_gone};
ghost use Rattle.nv_cell.specs.declared.mark.Mark.TheVariants as mark;
ghost use Rattle.nv_calls.specs.Cells.{OnlyAt, ino_at, state_at, value_at, with_value};
ghost use Rattle.nv_calls.specs.Retired.{CanTakeGone};
ghost use Rattle.nv_calls.specs.Retiring.{erased, freed_by, freed_one, hand_with, part_in, record_of, retired, retired_one, room_erased, with_back, with_records};

use crate::Cells;
use nv_alloc::{BlockQueue, Hand};
use nv_base::{Epoch, Ino};
use nv_book::{Book, Record, Retired};
use nv_cell::KilledPart;

/// The record of a killed part of an inode.
fn record_of(ino: Ino, epoch: Epoch, killed: KilledPart) -> Record
    ensures { result ≡ record_of ino epoch killed }
{
    let KilledPart { part, birth } = killed;
    Record {
        ino,
        entry: part.entry,
        part: part.part,
        birth,
        death: epoch,
    }
}

/// Records a killed part of a cell where a living snapshot holds it, and else puts its block behind the others of a
/// queue.
fn retire_part<C: Cells>(
    book: &mut Book,
    cells: &mut C,
    k: usize,
    epoch: Epoch,
    killed: KilledPart,
    free: &mut BlockQueue,
)
    requires within { k < length (C.cells cells.old) }
    requires dead { epoch ≤ book.old.state.snaps.epoch }
    requires room { 0 < book.old.room }
    requires places { 0 < free.old.room }
    requires size { free.old.size ≡ (state_at (C.cells cells.old) k).block }
    requires killed { mark_named (state_at (C.cells cells.old) k) killed.part ≡ Some mark.Killed }
    ensures cells { C.cells cells.new ≡ with_value (C.cells cells.old) k
        (record (value_at (C.cells cells.old) k) {
          state = retired_one (ids book.old.state.snaps) (ino_at (C.cells cells.old) k) epoch
              killed (state_at (C.cells cells.old) k);
        }) }
    ensures book { book.new.state ≡ record book.old.state {
      manifests = with_records (ids book.old.state.snaps) (ino_at (C.cells cells.old) k) epoch
          (killed ∷ []) book.old.state.manifests;
    } }
    ensures room { book.old.room ≤ book.new.room + 1 }
    ensures free { free.new ≡ with_back (freed_one (ids book.old.state.snaps)
        (ino_at (C.cells cells.old) k) epoch killed (state_at (C.cells cells.old) k)) free.old }
    ensures frame { C.frame cells.new ≡ C.frame cells.old }
{
    let part = killed.part;
    match book.retire(record_of(cells.ino(k), epoch, killed)) {
        Retired::Kept => cells.retire(k, part),
        Retired::Free => {
            // Each block that the cell has is of the size that it says.
            cells.cell(k).holds_together();
            if let Some(block) = cells.release(k, part) {
                free.put(block);
            }
        }
    }
}

/// Records the killed parts of a cell that a living snapshot holds, one behind the other, and puts the blocks of
/// the others behind those of a queue.
pub(crate) fn retire_parts<C: Cells>(
    book: &mut Book,
    cells: &mut C,
    k: usize,
    epoch: Epoch,
    killed: &[KilledPart],
    free: &mut BlockQueue,
)
    requires within { k < length (C.cells cells.old) }
    requires dead { epoch ≤ book.old.state.snaps.epoch }
    requires room { length killed.now ≤ book.old.room }
    requires places { length killed.now ≤ free.old.room }
    requires size { free.old.size ≡ (state_at (C.cells cells.old) k).block }
    requires killed { AreKilled (map part_in killed.now) (state_at (C.cells cells.old) k) }
    ensures cells { C.cells cells.new ≡ with_value (C.cells cells.old) k
        (record (value_at (C.cells cells.old) k) {
          state = retired (ids book.old.state.snaps) (ino_at (C.cells cells.old) k) epoch
              killed.now (state_at (C.cells cells.old) k);
        }) }
    ensures book { book.new.state ≡ record book.old.state {
      manifests = with_records (ids book.old.state.snaps) (ino_at (C.cells cells.old) k) epoch
          killed.now book.old.state.manifests;
    } }
    ensures room { book.old.room ≤ book.new.room + length killed.now }
    ensures free { free.new ≡ with_back (freed_by (ids book.old.state.snaps)
        (ino_at (C.cells cells.old) k) epoch killed.now (state_at (C.cells cells.old) k)) free.old }
    ensures frame { C.frame cells.new ≡ C.frame cells.old }
{
    for part in killed {
        retire_part(book, cells, k, epoch, *part, free);
    }
}

/// Erases a cell whose inode is gone and keeps nothing: its chain goes to the hand, and its number unless the slot has
/// had its last generation. Takes no memory; the time of an erasing is linear in the entries.
pub fn erase_gone<C: Cells>(cells: &mut C, k: usize, hand: &mut Hand)
    requires within { k < length (C.cells cells.old) }
    requires published { (state_at (C.cells cells.old) k).chain.tail
        ≡ length (state_at (C.cells cells.old) k).chain.entries }
    requires gone { is_gone (log_of (state_at (C.cells cells.old) k)) ≡ true
        → CanTakeGone hand.old (state_at (C.cells cells.old) k) }
    ensures cells { OnlyAt k (C.cells cells.old) (C.cells cells.new) }
    // An inode that is gone and keeps nothing is erased, and no other.
    ensures state { state_at (C.cells cells.new) k ≡ erased (state_at (C.cells cells.old) k) }
    ensures room { (value_at (C.cells cells.new) k).room
        ≡ room_erased (state_at (C.cells cells.old) k) (value_at (C.cells cells.old) k).room }
    // The chain of an erased inode goes into the hand.
    // Its number goes there, too, unless the slot is withheld.
    ensures hand { hand.new
        ≡ hand_with (ino_at (C.cells cells.old) k) (state_at (C.cells cells.old) k) hand.old }
    ensures frame { C.frame cells.new ≡ C.frame cells.old }
{
    let cell = cells.cell(k);
    if !cell.is_gone() || !cell.keeps_nothing() {
        return;
    }
    let chain = cells.erase(k);
    hand.chain.put(chain.into_blocks());
    if cells.cell(k).is_withheld() {
        return;
    }
    hand.put_ino(cells.ino(k));
}
