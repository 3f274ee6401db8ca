//! Entries and pages that are added past the tail.

ghost use Rattle.std.specs.Prelude.{◌≡◌, ◌+◌, ◌-◌, ◌<◌, ◌≤◌, ◌++◌, ◌∷◌, ◌↔◌, IsTrue, List, [], None, Some, drop, if◌then◌else◌, length, map, nat_lt, replicate, take, vec_capacity, vec_len};
ghost use Rattle.nv_alloc.specs.Block.{numbers_of};
ghost use Rattle.nv_entry.specs.Blocks.{item_blocks};
ghost use Rattle.nv_entry.specs.Covered.{part_count};
ghost use Rattle.nv_entry.specs.Keys.{parts_of};
ghost use Rattle.nv_entry.specs.declared.item.Item.{Item as ItemValue};
ghost use Rattle.nv_log.specs.Chain.{AppendsEntry, with_page};
ghost use Rattle.nv_cell.specs.Append.{IsWithinFile, MayAppend, after_append, appended, blocks_for, part_blocks};
ghost use Rattle.nv_cell.specs.Room.{AddsPage, IsReadyFor};
ghost use Rattle.nv_cell.specs.Tallies.{no_counts};

use crate::needs::pages_added;
use crate::{InodeCell, LogPageCounts};
use nv_alloc::{Block, BlockQueue};
use nv_base::limits::FILE_PAGES;
use nv_entry::{Entry, Item};

impl InodeCell {
    /// Adds a page of the log behind the others: a block of the cell's size. Takes no memory. What the cell is ready
    /// for, it stays ready for.
    pub fn add_page(&mut self, block: Block)
        requires reserved { 0 < self.old.room.pages }
        requires sized { length block.bytes ≡ self.old.state.block }
        // A log page is added behind the others, and nothing else changes except room.
        ensures state { self.new.state
            ≡ record self.old.state { chain = with_page block self.old.state.chain } }
        ensures room { self.new.room
            ≡ record self.old.room { pages = self.old.room.pages - 1 } }
        // A cell that is ready for items stays so with each log page.
        ensures pages { AddsPage self.old.state.chain self.new.state.chain }
        ensures ready { (items : List ItemValue) → IsReadyFor items self.old
            → IsReadyFor items self.new }
    {
        self.chain.holds_together();
        self.chain.add_page(block);
    }

    /// Whether there is room for an entry, and it may stand behind the last one.
    pub fn may_append(&self, entry: &Entry) -> bool
        // An entry may be appended where there is room for it and its parts, and its id and epoch follow.
        // An entry may be appended only where its pages are those of a file.
        ensures { IsTrue result ↔ MayAppend entry.now self.now }
    {
        if self.chain.room() == 0 {
            return false;
        }
        if self.entries == 0 {
            return false;
        }
        if self.parts < entry.item.part_count() as usize {
            return false;
        }
        self.chain.may_append(entry.id, entry.epoch) && is_within_file(&entry.item)
    }

    /// Appends an entry past the tail, with the blocks of its pages from the front of the queue. Takes no
    /// memory; the time is that of its parts. A cell that is ready for items of which this is the first is then
    /// ready for the others.
    pub fn append(&mut self, entry: Entry, queue: &mut BlockQueue)
        requires next { MayAppend entry self.old }
        requires size { queue.old.size ≡ self.old.state.block }
        requires blocks { numbers_of (blocks_for entry.item queue.old.blocks)
            ≡ item_blocks entry.item }
        // An entry goes past the tail, and its log page has counts.
        // An entry's blocks come from the front of the queue, whose rest stays.
        ensures state { self.new.state
            ≡ appended entry (blocks_for entry.item queue.old.blocks) self.old.state }
        // Room falls at an append by one entry and its parts.
        ensures room { self.new.room ≡ after_append (part_count entry) self.old.room }
        // A cell that is ready for items is ready for those that are left.
        ensures pages { AppendsEntry entry self.old.state.chain self.new.state.chain }
        ensures ready { (later : List ItemValue) → IsReadyFor (entry.item ∷ later) self.old
            → IsReadyFor later self.new }
        ensures queue { queue.new ≡ record queue.old {
          blocks = drop (length (item_blocks entry.item)) queue.old.blocks;
          room = queue.old.room + length (item_blocks entry.item);
        } }
    {
        // The chain's pages end where its entries say, and each block in the queue has the queue's size.
        self.chain.holds_together();
        queue.keeps_its_size();
        let parts = entry.item.part_count() as usize;
        push_slots(&mut self.blocks, &entry.item, queue);
        self.held += pages_added(&entry.item);
        self.chain.append(entry);
        count_pages(&mut self.marks.pages, self.chain.ends().len());
        self.entries -= 1;
        self.parts -= parts;
    }
}

/// Whether the pages of an item are pages that a file can have.
fn is_within_file(item: &Item) -> bool
    ensures { IsTrue result ↔ IsWithinFile item.now }
{
    match item {
        Item::Write { first, run, .. } => {
            u64::from(*first) + u64::from(run.len) <= u64::from(FILE_PAGES)
        }
        _ => true,
    }
}

/// Puts the front blocks of a queue on a list.
fn push_blocks(slots: &mut Vec<Option<Block>>, count: u32, queue: &mut BlockQueue)
    requires room { vec_len slots.old + count ≤ vec_capacity slots.old }
    requires there { count ≤ length queue.old.blocks }
    ensures slots { slots.new.items ≡ slots.old.items ++ map Some (take count queue.old.blocks) }
    ensures capacity { vec_capacity slots.new ≡ vec_capacity slots.old }
    ensures queue { queue.new ≡ record queue.old {
      blocks = drop count queue.old.blocks;
      room = queue.old.room + count;
    } }
{
    for _taken in 0..count {
        slots.push_reserved(queue.take_next());
    }
}

/// Puts places without a block on a list.
fn push_empty(slots: &mut Vec<Option<Block>>, count: u32)
    requires { vec_len slots.old + count ≤ vec_capacity slots.old }
    ensures slots { slots.new.items ≡ slots.old.items ++ replicate count None }
    ensures capacity { vec_capacity slots.new ≡ vec_capacity slots.old }
{
    for _pushed in 0..count {
        slots.push_reserved(None);
    }
}

/// Puts the block of each part of an item but the first on a list.
fn push_slots(slots: &mut Vec<Option<Block>>, item: &Item, queue: &mut BlockQueue)
    requires room { vec_len slots.old + (length (parts_of item.now) - 1) ≤ vec_capacity slots.old }
    requires within { IsWithinFile item.now }
    requires there { length (item_blocks item.now) ≤ length queue.old.blocks }
    ensures slots { slots.new.items
        ≡ slots.old.items ++ drop 1 (part_blocks item.now (blocks_for item.now queue.old.blocks)) }
    ensures capacity { vec_capacity slots.new ≡ vec_capacity slots.old }
    ensures queue { queue.new ≡ record queue.old {
      blocks = drop (length (item_blocks item.now)) queue.old.blocks;
      room = queue.old.room + length (item_blocks item.now);
    } }
{
    if let Item::Write { run, .. } = item {
        push_blocks(slots, run.len, queue);
    } else {
        push_empty(slots, item.part_count().saturating_sub(1));
    }
}

/// Opens the counts of one more page where the chain has one more with entries.
fn count_pages(pages: &mut Vec<LogPageCounts>, count: usize)
    requires { vec_len pages.old < count → vec_len pages.old < vec_capacity pages.old }
    ensures pages { pages.new.items ≡ (if nat_lt (length pages.old.items) count
        then pages.old.items ++ no_counts ∷ [] else pages.old.items) }
    ensures capacity { vec_capacity pages.new ≡ vec_capacity pages.old }
{
    if pages.len() < count {
        pages.push_reserved(LogPageCounts { live: 0, valid: 0 });
    }
}
