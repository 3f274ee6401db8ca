//! The inode cell.

ghost use Rattle.std.specs.Prelude.{◌≡◌, ◌+◌, ◌<◌, ◌≤◌, ◌^◌, ◌⊎◌, [], IfSome, None, Some, option_and_then, slice_index_or, length, map, vec_capacity, vec_len};
ghost use Rattle.std.specs.List.{sum_by};
ghost use Rattle.nv_base.specs.declared.limits.TheConstants.{LEAST_PAGE_ENTRIES, PAGE_ENTRIES};
ghost use Rattle.nv_cell.specs.Cell.{IsCell, KeepsAppendRoom, empty_cell, fresh_of, killed_by, log_of, mark_named, no_room, number_in, published, with_mark, without_part};
ghost use Rattle.nv_cell.specs.Effects.{BindNone, items_of};
ghost use Rattle.nv_cell.specs.Killed.{AreKilled};
ghost use Rattle.nv_cell.specs.Room.{IsReadyFor};
ghost use Rattle.nv_cell.specs.Slots.{emptied};
ghost use Rattle.nv_cell.specs.Weights.{page_runs_needed, weights_in};

use crate::number::find_part;
use crate::publish::{name_all, take_effect};
use crate::{CellIndex, KilledPart, Mark, Marks, NumberedPart};
use nv_alloc::Block;
use nv_base::Gen;
use nv_entry::PartId;
use nv_log::Chain;
use std::alloc::Global;
use std::marker::Model;
use std::mem;

/// An inode with its log, or an empty slot. Its index, and which of its parts are marked current, are at all times
/// those of one scan of its log; the counts of its pages are those of its marks.
///
/// A cell owns the blocks of its log pages and of its data, so it is no `Drop`.
pub struct InodeCell {
    pub(crate) alloc: Global,
    // Bytes of a block.
    pub(crate) block: u64,
    pub(crate) generation: Gen,
    pub(crate) version: u64,
    pub(crate) chain: Chain,
    pub(crate) index: CellIndex,
    pub(crate) marks: Marks,
    // The block of each page part that is not out, also of parts not yet published: each part of an entry has a slot
    // for it but the first, which is no page.
    pub(crate) blocks: Vec<Option<Block>>,
    // How many of these places have a block.
    pub(crate) held: usize,
    // For how many more entries, and parts of entries, there is room.
    pub(crate) entries: usize,
    pub(crate) parts: usize,
    // Room for the parts that a publish kills; empty between calls.
    pub(crate) numbers: Vec<NumberedPart>,
    pub(crate) killed: Vec<KilledPart>,
    // What the last publish saw ahead: kept so that the compiler does not leave the look out.
    pub(crate) ahead: usize,
}

impl Model for InodeCell {
    ghost use Rattle.nv_cell.specs.Cell.{CellValue};

    ghost Value = { CellValue };

    ghost use Rattle.nv_cell.specs.Fields.{AreFields, value_in};

    ghost view = { value_in };

    // The size of blocks is above 0, and each log page has it.
    // Each published part has a mark, which is current exactly where no later entry covers the part's key.
    // A block of the cell's block size is there exactly for file-page parts that are not out, also for those not
    // yet published; each part of an entry except the first has a part slot for it.
    // One number counts the blocks of its parts, also of those not yet published.
    // The index names at every key the part that one scan of the log finds.
    // The names of the index are bound as the log binds them.
    // Parts of entries end where the entries' part counts say.
    // Each entry's tally counts its parts' marks and says where its part slots end.
    // Each log page's tally counts its entries' tallies, and one number counts the parts that are not out.
    // Entries end one after another among the parts, and log pages among the entries.
    // There is room for as many parts, entries and log pages as are told; between calls the lists for killed parts
    // are empty.
    ghost invariant = { AreFields };
}

impl InodeCell {
    /// An empty slot, for an inode with blocks of `block` bytes and `page` entries a log page.
    pub fn new(alloc: Global, block: u64, page: usize, generation: Gen, version: u64) -> InodeCell
        requires block { 0 < block }
        requires least { LEAST_PAGE_ENTRIES ≤ page }
        requires most { page ≤ PAGE_ENTRIES }
        // An empty inode slot has no entry, mark or block.
        ensures state { result.state ≡ empty_cell block page generation version }
        ensures room { result.room ≡ no_room }
    {
        InodeCell {
            alloc,
            block,
            generation,
            version,
            chain: Chain::new(alloc, page),
            index: CellIndex::new(alloc),
            marks: Marks::new(alloc),
            blocks: Vec::new(alloc),
            held: 0,
            entries: 0,
            parts: 0,
            numbers: Vec::new(alloc),
            killed: Vec::new(alloc),
            ahead: 0,
        }
    }

    /// How many commits were published. It outlasts the inode.
    pub fn version(&self) -> u64
        ensures { result ≡ self.now.state.version }
    {
        self.version
    }

    /// What holds of each cell: its log is one, and its marks and blocks are those of its parts. Costs nothing.
    pub fn holds_together(&self)
        // What holds of each cell is told.
        ensures { IsCell self.now.state }
    {
        self.chain.holds_together();
    }

    /// The generation of the inode, or in an empty slot that of the next one.
    pub fn generation(&self) -> Gen
        ensures { result ≡ self.now.state.generation }
    {
        self.generation
    }

    /// Publishes all entries past the tail, and gives the parts that were current, or are newly published, and are not
    /// current after it, by entry in log order and then by part. They are marked killed. The entries use up at most the
    /// room for runs of pages that they ask for, and the reserved name only where they bind one. Takes no memory; the
    /// time is that of the entries and parts that change, times a logarithm at most, and for each Write after which the
    /// file has more or fewer runs of pages one move of the runs behind.
    pub fn publish(&mut self) -> Vec<KilledPart>
        requires some { self.old.state.chain.tail < length self.old.state.chain.entries }
        requires version { self.old.state.version < 2 ^ 62 }
        requires ready { IsReadyFor [] self.old }
        // A publish moves the tail over the appended entries and raises the version by one.
        // A publish marks what dies killed and what is new current, and changes no log page and no block.
        ensures state { self.new.state ≡ published self.old.state }
        // A publish kills only what was current or new and is not current after it.
        // A publish kills every new part that a later entry of it covers.
        // A publish kills every current part that is covered, a binding too.
        // The killed parts are told in log order and then by part.
        // Each killed part is told with its birth.
        ensures killed { result.items ≡ killed_by self.old.state }
        // A publish kills no more parts than `most_killed` tells before.
        ensures few { vec_len result ≤ weights_in self.old.state.block (log_of self.old.state)
            (items_of (fresh_of self.old.state)) }
        // What a publish kills is marked killed after it, and none is told twice.
        ensures marked { AreKilled (map (λ k. k.part) result.items) self.new.state }
        // A publish keeps the room to append.
        ensures room { KeepsAppendRoom self.old.room self.new.room }
        // The room for page runs falls at a publish by no more than the entries ask for.
        ensures runs { self.old.room.runs ≤ self.new.room.runs
            + sum_by page_runs_needed (items_of (fresh_of self.old.state)) }
        // The reserved name stays at a publish whose entries bind none.
        ensures name { BindNone (items_of (fresh_of self.old.state))
            → self.new.room.name ≡ self.old.room.name }
    {
        // Ids rise along all entries, so that each part has a name of its own.
        self.chain.holds_together();
        let tail = self.chain.tail();
        self.ahead = take_effect(
            &mut self.index,
            &mut self.numbers,
            &mut self.marks,
            &self.chain,
            &self.blocks,
            self.block,
            tail,
        );
        let mut killed = mem::replace(&mut self.killed, Vec::new(self.alloc));
        name_all(&mut killed, &self.numbers, &self.chain, &self.marks);
        self.numbers.clear();
        self.chain.publish_to(self.chain.len());
        self.version += 1;
        killed
    }

    /// The mark of a part of a published entry; none where the log has no such part. The time grows with the logarithm
    /// of the entries.
    /// Only tested: the time grows with the logarithm of the log.
    pub fn mark(&self, part: PartId) -> Option<Mark>
        // The mark of a part is told by its name, and none where the log has no such part.
        // A part is found where its entry's parts stand.
        ensures { result ≡ mark_named self.now.state part }
    {
        let found = find_part(&self.chain, &self.marks, part)?;
        self.marks.get(found.number)
    }

    /// Marks a killed part kept. Takes no memory; the time grows with the logarithm of the entries and pages.
    pub fn retire(&mut self, part: PartId)
        requires { mark_named self.old.state part ≡ Some Mark.Killed }
        // A killed part is marked kept, and nothing else changes.
        ensures state { self.new.state
            ≡ with_mark self.old.state (number_in self.old.state part) Mark.Kept }
        ensures room { self.new.room ≡ self.old.room }
    {
        let found = find_part(&self.chain, &self.marks, part).unwrap();
        self.marks.set(self.chain.ends(), found, Mark::Kept);
    }

    /// Puts a killed or kept part out, and hands out its block, which a page has and no other part. Takes no memory;
    /// the time grows with the logarithm of the entries and pages.
    pub fn release(&mut self, part: PartId) -> Option<Block>
        requires { (mark_named self.old.state part ≡ Some Mark.Killed)
            ⊎ (mark_named self.old.state part ≡ Some Mark.Kept) }
        // A part that goes out hands out its block.
        ensures block { result
            ≡ slice_index_or self.old.state.blocks (number_in self.old.state part) None }
        // A killed or kept part goes out, and nothing else changes.
        // A part that goes out is counted out once.
        ensures state { self.new.state
            ≡ without_part self.old.state (number_in self.old.state part) }
        ensures room { self.new.room ≡ self.old.room }
    {
        let found = find_part(&self.chain, &self.marks, part).unwrap();
        let slot = self.marks.slot(found);
        self.marks.set(self.chain.ends(), found, Mark::Out);
        let block = take_block(&mut self.blocks, slot);
        self.held -= usize::from(block.is_some());
        block
    }
}

/// Takes the block out of a slot, if there is one.
fn take_block(slots: &mut Vec<Option<Block>>, slot: Option<usize>) -> Option<Block>
    requires { IfSome slot (λ k. k < length slots.old.items) }
    ensures block { result
        ≡ option_and_then (λ k. slice_index_or slots.old.items k None) slot }
    ensures slots { slots.new.items ≡ emptied slots.old.items slot }
    ensures capacity { vec_capacity slots.new ≡ vec_capacity slots.old }
{
    slots[slot?].take()
}
