//! What a cell is made of beside its chain and its blocks.

ghost use Rattle.std.specs.Prelude.{◌≡◌, ℕ, ◌+◌, ◌<◌, ◌≤◌, ◌∷◌, ◌++◌, List, [], None, IfOk, count_by, if◌then◌else◌, is_some, length, option_and_then, take, vec_capacity, vec_len};
ghost use Rattle.std.specs.List.Sorted.{IsStrictlyIncreasing};
ghost use Rattle.nv_alloc.specs.Block.{AreSized, BlockValue};
ghost use Rattle.nv_base.specs.Memory.{out_of_memory};
ghost use Rattle.nv_base.specs.Refusals.{FailsOnly};
ghost use Rattle.nv_entry.specs.Covered.{part_count};
ghost use Rattle.nv_entry.specs.Data.{block_in};
ghost use Rattle.nv_entry.specs.Keys.{key_of, sets};
ghost use Rattle.nv_entry.specs.Log.{value_of};
ghost use Rattle.nv_cell.specs.Anew.{cell_by};
ghost use Rattle.nv_cell.specs.Cell.{page_block};
ghost use Rattle.nv_cell.specs.Marks.{is_there, mark_at};
ghost use Rattle.nv_cell.specs.Plan.{IsBare, IsFilled, IsPlan, page_room};

use crate::erase::dismantle_slots;
use crate::scan::Scan;
use crate::{CellIndex, InodeCell, Marks};
use nv_alloc::Block;
use nv_base::{BlockNo, Epoch, Fault, Gen};
use nv_entry::{Entry, Item, Part};
use nv_log::Chain;
use std::alloc::Global;

/// What a cell is made of beside its chain and its blocks, by its log and the living snapshots: the index, the marks, and
/// room for the blocks of its parts. All memory that it takes is taken here.
///
/// It ends in a cell, or in [`CellPlan::discard`].
pub struct CellPlan {
    pub(crate) index: CellIndex,
    pub(crate) marks: Marks,
    // Room for the blocks of the log's parts.
    pub(crate) blocks: Vec<Option<Block>>,
}

impl CellPlan {
    /// The plan of the first `tail` entries of a chain, whose blocks have `block` bytes, with the living snapshots, oldest
    /// first. The time is near linear in the entries, and in their parts and names.
    ///
    /// The only error is `OutOfMemory`.
    pub fn new(
        alloc: Global,
        block: u64,
        chain: &Chain,
        tail: usize,
        living: &[Epoch],
    ) -> Result<CellPlan, Fault>
        requires block { 0 < block }
        requires within { tail ≤ length chain.now.state.entries }
        // The only error is `OutOfMemory`; callers give rising snapshots.
        requires rising { IsStrictlyIncreasing living.now }
        // A plan has the index of a chain's first entries, and their parts' marks by the living snapshots.
        // A plan has room for all that follows from them, and for the block of each part.
        ensures ok { IfOk result (IsPlan block living.now (take tail chain.now.state.entries)
            (page_room chain.now)) }
        ensures bare { IfOk result (IsBare (take tail chain.now.state.entries)) }
        ensures err { FailsOnly out_of_memory result }
    {
        let mut scan = Scan::new(alloc, chain, tail)?;
        for t in 0..tail {
            scan.take_in(chain, block, living, tail, t)?;
        }
        let Scan {
            index,
            marks,
            ended: _,
        } = scan;
        // Each part of an entry has a slot for a block but the first.
        let slots = marks.marks.len();
        Ok(CellPlan {
            index,
            marks,
            blocks: Vec::with_capacity(alloc, slots)?,
        })
    }

    /// Which block the next slot is to get, by its part: its place in an entry, and the number of that entry's first
    /// part. None where the part is out, or no page.
    pub fn wants(&self, block: u64, entry: &Entry, first: usize, place: u32) -> Option<BlockNo>
        requires block { 0 < block }
        requires place { place < part_count entry.now }
        requires within { first + place < length self.now.marks.marks.items }
        // Which block a part is to have is told: none where it is out, or no page.
        ensures { result ≡ (if is_there (mark_at self.now.marks.marks.items (first + place))
            then page_block block (entry.now ∷ []) place else None) }
    {
        let mark = self.marks.marks[first + place as usize];
        if !mark.is_there() {
            return None;
        }
        block_at(block, entry, place)
    }

    /// Puts a block into the next slot, or none. Takes no memory.
    pub fn put(&mut self, block: Option<Block>)
        requires { vec_len self.old.blocks < vec_capacity self.old.blocks }
        // The next slot gets its block or none, without memory.
        ensures blocks { self.new.blocks.items ≡ self.old.blocks.items ++ block ∷ [] }
        ensures capacity { vec_capacity self.new.blocks ≡ vec_capacity self.old.blocks }
        ensures index { self.new.index ≡ self.old.index }
        ensures marks { self.new.marks ≡ self.old.marks }
    {
        self.blocks.push_reserved(block);
    }

    /// Lets the plan go, with the blocks that it has.
    pub fn discard(self) {
        let CellPlan {
            index: _,
            marks: _,
            blocks,
        } = self;
        dismantle_slots(blocks);
    }
}

/// The block that an entry says of its part at a place, if that is a page.
fn block_at(block: u64, entry: &Entry, place: u32) -> Option<BlockNo>
    requires block { 0 < block }
    requires place { place < part_count entry.now }
    ensures { result ≡ page_block block (entry.now ∷ []) place }
{
    let part = entry.item.part_at(place).unwrap();
    block_said(block, &entry.item, part)
}

/// The block that an item says of one of its parts, if that is a page.
fn block_said(block: u64, item: &Item, part: Part) -> Option<BlockNo>
    requires { 0 < block }
    ensures { result
        ≡ option_and_then block_in (value_of (sets block item.now (key_of item.now part))) }
{
    let value = item.setting(block, item.part_key(part)).value()?;
    value.block()
}

/// How many slots have a block.
fn held_in(slots: &[Option<Block>]) -> usize
    ensures { result ≡ count_by is_some slots.now }
{
    slots.iter().filter(|slot| slot.is_some()).count()
}

impl InodeCell {
    /// The cell of a plan that has got its blocks, with its chain, all of whose entries count. It has version 0. The time
    /// is linear in the entries and parts, and no memory is taken.
    pub fn rebuild(
        alloc: Global,
        block: u64,
        generation: Gen,
        plan: CellPlan,
        chain: Chain,
    ) -> InodeCell
        requires block { 0 < block }
        requires whole { chain.state.tail ≡ length chain.state.entries }
        requires pages { AreSized block chain.state.blocks }
        requires plan { (living : List ℕ) × (blocks : List BlockValue)
            × IsPlan block living chain.state.entries (page_room chain) plan
            × IsFilled block living blocks chain.state.entries plan }
        // A chain and a plan that has its blocks make exactly the cell anew.
        ensures state { (living : List ℕ) (blocks : List BlockValue)
            → IsPlan block living chain.state.entries (page_room chain) plan
            → IsFilled block living blocks chain.state.entries plan
            → result.state ≡ cell_by block generation living chain.state blocks }
        // A cell anew has the room of its chain and of its index; it is made without memory.
        ensures room { result.room ≡ record {
          pages = chain.spare;
          entries = 0;
          parts = 0;
          runs = plan.index.pages.room;
          name = plan.index.names.reserved;
          killed = 0;
        } }
    {
        chain.holds_together();
        let CellPlan {
            index,
            mut marks,
            blocks,
        } = plan;
        marks.recount(&chain);
        let held = held_in(&blocks);
        InodeCell {
            alloc,
            block,
            generation,
            version: 0,
            chain,
            index,
            marks,
            blocks,
            held,
            entries: 0,
            parts: 0,
            numbers: Vec::new(alloc),
            killed: Vec::new(alloc),
            ahead: 0,
        }
    }
}
