//! The cells of a call.

use nv_alloc::{Block, BlockQueue};
use nv_base::{Fault, Ino};
use nv_cell::{InodeCell, KilledPart};
use nv_entry::{Entry, Item, PartId};
use nv_log::Chain;

/// The cells of a call, at most four, by rising number, wherever they lie. Contracts see a list with the number of each
/// inode and its cell.
///
/// Each method that changes a cell does so as the cell's own method of that name.
/// A call's cells are a list of numbers and cells; a change of one leaves the others as they are.
/// A change of a cell leaves the places that are lent, and what lies beside them.
pub trait Cells {
    ghost use Rattle.std.specs.Prelude.{◌≡◌, ℕ, ◌+◌, ◌-◌, ◌<◌, ◌≤◌, ◌^◌, ◌⊎◌, ◌∷◌, List, [], None, OnErr, OnOk, IsOk, Some, drop, length, map, slice_index_or, true, vec_len};
    ghost use Rattle.std.specs.List.{sum_by};
    ghost use Rattle.nv_base.specs.Memory.{out_of_memory};
    ghost use Rattle.nv_base.specs.Refusals.{FailsOnly};
    ghost use Rattle.nv_base.specs.declared.limits.TheConstants.{NUMBER};
    ghost use Rattle.nv_alloc.specs.Block.{numbers_of};
    ghost use Rattle.nv_entry.specs.Covered.{part_count};
    ghost use Rattle.nv_entry.specs.Blocks.{item_blocks};
    ghost use Rattle.nv_entry.specs.declared.item.Item.{Item as ItemValue};
    ghost use Rattle.nv_log.specs.Chain.{AppendsEntry, with_page};
    ghost use Rattle.nv_cell.specs.declared.mark.Mark.TheVariants as mark;
    ghost use Rattle.nv_cell.specs.Append.{MayAppend, after_append, appended, blocks_for};
    ghost use Rattle.nv_cell.specs.Cell.{CellValue, KeepsAppendRoom, empty_cell, fresh_of, killed_by, log_of, mark_named, no_room, number_in, published, with_mark, without_part};
    ghost use Rattle.nv_cell.specs.Effects.{BindNone, BindOne, items_of};
    ghost use Rattle.nv_cell.specs.Killed.{AreKilled};
    ghost use Rattle.nv_cell.specs.Readers.{is_gone, keeps_nothing};
    ghost use Rattle.nv_cell.specs.Room.{AddsPage, HasNoLess, IsReadyFor, IsReadyToAppend};
    ghost use Rattle.nv_cell.specs.Weights.{page_runs_needed, weights_in};
    ghost use Rattle.nv_calls.specs.Cells.{OnlyAt, ino_at, state_at, value_at};

    ghost cells: { Self → List (ℕ × CellValue) };

    // The names of the places that are lent, and what stands in them beside the cells. Both stay.
    ghost frame: { Self → List ℕ × List CellValue };

    /// How many cells there are.
    fn count(&self) -> usize
        requires { length (cells self.now) ≤ 4 }
        ensures { result ≡ length (cells self.now) };

    /// The number of the inode at a place.
    fn ino(&self, k: usize) -> Ino
        requires { k < length (cells self.now) }
        ensures { result ≡ ino_at (cells self.now) k };

    /// The cell at a place.
    fn cell(&self, k: usize) -> &InodeCell
        requires { k < length (cells self.now) }
        ensures { result.now ≡ value_at (cells self.now) k };

    /// Makes every growth of what follows for entries with these items.
    fn ready(&mut self, k: usize, items: &[Item]) -> Result<(), Fault>
        requires within { k < length (cells self.old) }
        requires settled { (state_at (cells self.old) k).chain.tail
            ≡ length (state_at (cells self.old) k).chain.entries }
        requires one { BindOne items.now }
        ensures cells { OnlyAt k (cells self.old) (cells self.new) }
        ensures state { state_at (cells self.new) k ≡ state_at (cells self.old) k }
        ensures ok { OnOk result (IsReadyToAppend items.now (value_at (cells self.new) k)) }
        ensures enough { IsReadyToAppend items.now (value_at (cells self.old) k) → IsOk result }
        ensures room { HasNoLess (value_at (cells self.old) k).room
            (value_at (cells self.new) k).room }
        ensures name { OnErr result ((value_at (cells self.new) k).room.name
            ≡ (value_at (cells self.old) k).room.name) }
        ensures err { FailsOnly out_of_memory result }
        ensures frame { frame self.new ≡ frame self.old };

    /// Adds a page of the log behind the others. What the cell is ready for, it stays ready for.
    fn add_page(&mut self, k: usize, block: Block)
        requires within { k < length (cells self.old) }
        requires reserved { 0 < (value_at (cells self.old) k).room.pages }
        requires sized { length block.bytes ≡ (state_at (cells self.old) k).block }
        ensures cells { OnlyAt k (cells self.old) (cells self.new) }
        ensures state { state_at (cells self.new) k ≡ record (state_at (cells self.old) k) {
          chain = with_page block (state_at (cells self.old) k).chain;
        } }
        ensures room { (value_at (cells self.new) k).room
            ≡ record ((value_at (cells self.old) k).room) {
              pages = (value_at (cells self.old) k).room.pages - 1;
            } }
        ensures pages { AddsPage (state_at (cells self.old) k).chain
            (state_at (cells self.new) k).chain }
        ensures ready { (items : List ItemValue) → IsReadyFor items (value_at (cells self.old) k)
            → IsReadyFor items (value_at (cells self.new) k) }
        ensures frame { frame self.new ≡ frame self.old };

    /// Appends an entry past the tail, with the blocks of its pages from the front of the queue. A cell that is ready
    /// for items of which this is the first is then ready for the others.
    fn append(&mut self, k: usize, entry: Entry, queue: &mut BlockQueue)
        requires within { k < length (cells self.old) }
        requires next { MayAppend entry (value_at (cells self.old) k) }
        requires size { queue.old.size ≡ (state_at (cells self.old) k).block }
        requires blocks { numbers_of (blocks_for entry.item queue.old.blocks)
            ≡ item_blocks entry.item }
        ensures cells { OnlyAt k (cells self.old) (cells self.new) }
        ensures state { state_at (cells self.new) k
            ≡ appended entry (blocks_for entry.item queue.old.blocks)
            (state_at (cells self.old) k) }
        ensures room { (value_at (cells self.new) k).room
            ≡ after_append (part_count entry) (value_at (cells self.old) k).room }
        ensures pages { AppendsEntry entry (state_at (cells self.old) k).chain
            (state_at (cells self.new) k).chain }
        ensures ready { (later : List ItemValue)
            → IsReadyFor (entry.item ∷ later) (value_at (cells self.old) k)
            → IsReadyFor later (value_at (cells self.new) k) }
        ensures queue { queue.new ≡ record queue.old {
          blocks = drop (length (item_blocks entry.item)) queue.old.blocks;
          room = queue.old.room + length (item_blocks entry.item);
        } }
        ensures frame { frame self.new ≡ frame self.old };

    /// Publishes all entries past the tail, and gives the parts that this kills.
    fn publish(&mut self, k: usize) -> Vec<KilledPart>
        requires within { k < length (cells self.old) }
        requires some { (state_at (cells self.old) k).chain.tail
            < length (state_at (cells self.old) k).chain.entries }
        requires version { (state_at (cells self.old) k).version < 2 ^ 62 }
        requires ready { IsReadyFor [] (value_at (cells self.old) k) }
        ensures cells { OnlyAt k (cells self.old) (cells self.new) }
        ensures state { state_at (cells self.new) k ≡ published (state_at (cells self.old) k) }
        ensures killed { result.items ≡ killed_by (state_at (cells self.old) k) }
        ensures few { vec_len result ≤ weights_in (state_at (cells self.old) k).block
            (log_of (state_at (cells self.old) k))
            (items_of (fresh_of (state_at (cells self.old) k))) }
        ensures marked { AreKilled (map (λ killed. killed.part) result.items)
            (state_at (cells self.new) k) }
        ensures room { KeepsAppendRoom (value_at (cells self.old) k).room
            (value_at (cells self.new) k).room }
        ensures runs { (value_at (cells self.old) k).room.runs
            ≤ (value_at (cells self.new) k).room.runs
            + sum_by page_runs_needed (items_of (fresh_of (state_at (cells self.old) k))) }
        ensures name { BindNone (items_of (fresh_of (state_at (cells self.old) k)))
            → (value_at (cells self.new) k).room.name ≡ (value_at (cells self.old) k).room.name }
        ensures frame { frame self.new ≡ frame self.old };

    /// Marks a killed part kept.
    fn retire(&mut self, k: usize, part: PartId)
        requires within { k < length (cells self.old) }
        requires killed { mark_named (state_at (cells self.old) k) part ≡ Some mark.Killed }
        ensures cells { OnlyAt k (cells self.old) (cells self.new) }
        ensures state { state_at (cells self.new) k ≡ with_mark (state_at (cells self.old) k)
            (number_in (state_at (cells self.old) k) part) mark.Kept }
        ensures room { (value_at (cells self.new) k).room ≡ (value_at (cells self.old) k).room }
        ensures frame { frame self.new ≡ frame self.old };

    /// Puts a killed or kept part out, and hands out its block, if it has one.
    fn release(&mut self, k: usize, part: PartId) -> Option<Block>
        requires within { k < length (cells self.old) }
        requires there { (mark_named (state_at (cells self.old) k) part ≡ Some mark.Killed)
            ⊎ (mark_named (state_at (cells self.old) k) part ≡ Some mark.Kept) }
        ensures cells { OnlyAt k (cells self.old) (cells self.new) }
        ensures block { result ≡ slice_index_or (state_at (cells self.old) k).blocks
            (number_in (state_at (cells self.old) k) part) None }
        ensures state { state_at (cells self.new) k ≡ without_part (state_at (cells self.old) k)
            (number_in (state_at (cells self.old) k) part) }
        ensures room { (value_at (cells self.new) k).room ≡ (value_at (cells self.old) k).room }
        ensures frame { frame self.new ≡ frame self.old };

    /// Hands out the chain of a gone inode of which nothing is kept, and leaves an empty slot of the next generation.
    fn erase(&mut self, k: usize) -> Chain
        requires within { k < length (cells self.old) }
        requires gone { is_gone (log_of (state_at (cells self.old) k)) ≡ true }
        requires nothing { keeps_nothing (state_at (cells self.old) k) ≡ true }
        requires published { (state_at (cells self.old) k).chain.tail
            ≡ length (state_at (cells self.old) k).chain.entries }
        requires generation { (state_at (cells self.old) k).generation < NUMBER }
        ensures cells { OnlyAt k (cells self.old) (cells self.new) }
        ensures chain { result.state ≡ (state_at (cells self.old) k).chain }
        ensures state { state_at (cells self.new) k ≡ empty_cell (state_at (cells self.old) k).block
            (state_at (cells self.old) k).chain.page
            ((state_at (cells self.old) k).generation + 1) (state_at (cells self.old) k).version }
        ensures room { (value_at (cells self.new) k).room
            ≡ record no_room { killed = (value_at (cells self.old) k).room.killed } }
        ensures frame { frame self.new ≡ frame self.old };
}
