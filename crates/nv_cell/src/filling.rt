//! The blocks of a plan, out of the lists of their homes.

ghost use Rattle.std.specs.Prelude.{◌≡◌, ◌+◌, ◌<◌, ◌≤◌, ◌∷◌, [], length, map, vec_capacity, vec_len};
ghost use Rattle.nv_alloc.specs.FreeList.{AreListsOf};
ghost use Rattle.nv_entry.specs.Covered.{part_count, part_total};
ghost use Rattle.nv_cell.specs.Filling.{AreGiven, AreOnce, AreTaken, entry_wants, log_wants, part_wants, taken_from};
ghost use Rattle.nv_cell.specs.Slots.{slot_count, slot_total};

use crate::CellPlan;
use nv_alloc::{Block, FreeList, take_from_home};
use nv_base::{BlockNo, Geometry};
use nv_entry::Entry;
use nv_log::Chain;

impl CellPlan {
    /// Gives each part of the log the block that it wants, where that is free, out of the lists of all CPUs. The time is that
    /// of the parts, with the logarithm of a home range for each block, and no memory is taken.
    pub fn fill(&mut self, geometry: &Geometry, chain: &Chain, lists: &mut Vec<FreeList>)
        requires known { length self.old.marks.marks.items ≡ part_total chain.now.state.entries }
        requires none { self.old.blocks.items ≡ [] }
        requires room { slot_total chain.now.state.entries ≤ vec_capacity self.old.blocks }
        // Each block that is wanted leaves the lists of all CPUs, and no other; no memory is taken.
        requires lists { AreListsOf geometry.now.numbers lists.old.items }
        // Callers see to it that no block is wanted twice.
        requires once { AreOnce (log_wants geometry.now.numbers.block self.old.marks.marks.items 0
            chain.now.state.entries) }
        // Each part of a log gets the block that it wants, where that is free.
        ensures blocks { self.new.blocks.items ≡ map (taken_from lists.old.items)
            (log_wants geometry.now.numbers.block self.old.marks.marks.items 0
            chain.now.state.entries) }
        ensures lists { AreTaken geometry.now.numbers (log_wants geometry.now.numbers.block
            self.old.marks.marks.items 0 chain.now.state.entries)
            lists.old.items lists.new.items }
        ensures index { self.new.index ≡ self.old.index }
        ensures marks { self.new.marks ≡ self.old.marks }
    {
        let mut first = 0;
        for t in 0..chain.len() {
            let entry = chain.entry_at(t);
            self.fill_entry(geometry, entry, first, lists);
            let count = entry.item.part_count() as usize;
            first += count;
        }
    }

    /// Gives the parts of an entry theirs, the first of which has that number.
    fn fill_entry(
        &mut self,
        geometry: &Geometry,
        entry: &Entry,
        first: usize,
        lists: &mut Vec<FreeList>,
    )
        requires known { first + part_count entry.now ≤ length self.old.marks.marks.items }
        requires room { vec_len self.old.blocks + slot_count entry.now
            ≤ vec_capacity self.old.blocks }
        requires lists { AreListsOf geometry.now.numbers lists.old.items }
        requires once { AreOnce (entry_wants geometry.now.numbers.block
            self.old.marks.marks.items first entry.now) }
        ensures given { AreGiven geometry.now.numbers (entry_wants geometry.now.numbers.block
            self.old.marks.marks.items first entry.now) lists.old.items lists.new.items
            self.old.blocks.items self.new.blocks.items }
        ensures capacity { vec_capacity self.new.blocks ≡ vec_capacity self.old.blocks }
        ensures index { self.new.index ≡ self.old.index }
        ensures marks { self.new.marks ≡ self.old.marks }
    {
        for place in 1..entry.item.part_count() {
            self.fill_part(geometry, entry, first, place, lists);
        }
    }

    /// Gives the part at a place its own.
    fn fill_part(
        &mut self,
        geometry: &Geometry,
        entry: &Entry,
        first: usize,
        place: u32,
        lists: &mut Vec<FreeList>,
    )
        requires place { place < part_count entry.now }
        requires known { first + place < length self.old.marks.marks.items }
        requires room { vec_len self.old.blocks < vec_capacity self.old.blocks }
        requires lists { AreListsOf geometry.now.numbers lists.old.items }
        ensures given { AreGiven geometry.now.numbers (part_wants geometry.now.numbers.block
            self.old.marks.marks.items first entry.now place ∷ []) lists.old.items
            lists.new.items self.old.blocks.items self.new.blocks.items }
        ensures capacity { vec_capacity self.new.blocks ≡ vec_capacity self.old.blocks }
        ensures index { self.new.index ≡ self.old.index }
        ensures marks { self.new.marks ≡ self.old.marks }
    {
        let wanted = self.wants(geometry.numbers.block, entry, first, place);
        let block = taken(geometry, wanted, lists);
        self.put(block);
    }
}

/// The block that is wanted, if it is free.
fn taken(geometry: &Geometry, wanted: Option<BlockNo>, lists: &mut Vec<FreeList>) -> Option<Block>
    requires { AreListsOf geometry.now.numbers lists.old.items }
    ensures block { result ≡ taken_from lists.old.items wanted }
    ensures lists { AreTaken geometry.now.numbers (wanted ∷ []) lists.old.items lists.new.items }
{
    match wanted {
        Some(number) => take_from_home(lists, geometry, number),
        None => None,
    }
}
