//! What callers ask of a cell before they change it. None of these takes memory, and each costs the same at any size
//! of the log.

ghost use Rattle.std.specs.Prelude.{◌≡◌, ◌+◌, ◌*◌, ◌<◌, ◌≤◌, ◌↔◌, IsTrue, nat_le, length};
ghost use Rattle.nv_base.specs.declared.limits.TheConstants.{LEAST_PAGE_ENTRIES, NUMBER, PAGE_ENTRIES};
ghost use Rattle.nv_entry.specs.Index.{names_of};
ghost use Rattle.nv_log.specs.Chain.{last_id, pages_for, room_of};
ghost use Rattle.nv_cell.specs.Cell.{block_total, log_of};
ghost use Rattle.nv_cell.specs.Readers.{IsCellOf, counts_of, is_gone, keeps_nothing};

use crate::{InodeCell, LogPageCounts};
use nv_base::limits::NUMBER;
use nv_base::{EntryId, Geometry};
use nv_entry::Item;
use nv_log::Chain;

impl InodeCell {
    /// The log as a chain of pages, with the entries past the tail.
    pub fn log(&self) -> &Chain
        ensures state { result.now.state ≡ self.now.state.chain }
        ensures spare { result.now.spare ≡ self.now.room.pages }
    {
        &self.chain
    }

    /// How many blocks the cell has: the pages of its log, and the blocks of its parts that are not out, those past the
    /// tail too.
    pub fn blocks(&self) -> u64
        // How many blocks a cell has is told, the pages of its log with them.
        // Blocks of parts past the tail count, and none of a part that is out.
        ensures { result ≡ block_total self.now.state }
    {
        self.chain.blocks().len() as u64 + self.held as u64
    }

    /// How many bytes a block has.
    /// Readers tell the sizes of blocks and of log pages.
    pub fn block_bytes(&self) -> u64
        ensures value { result ≡ self.now.state.block }
        ensures some { 0 < result }
    {
        self.block
    }

    /// How many entries a page of the log holds.
    pub fn entries_per_page(&self) -> usize
        ensures value { result ≡ self.now.state.chain.page }
        ensures least { LEAST_PAGE_ENTRIES ≤ result }
        ensures most { result ≤ PAGE_ENTRIES }
    {
        // A chain has pages of a lawful size.
        self.chain.holds_together();
        self.chain.entries_per_page()
    }

    /// Whether the cell's blocks and log pages have the sizes that the geometry gives them.
    pub fn made_for(&self, geometry: &Geometry) -> bool
        // Whether a cell's blocks and log pages have the sizes of a device is told.
        ensures { IsTrue result ↔ IsCellOf geometry.now.numbers self.now.state }
    {
        self.block == geometry.numbers.block
            && self.chain.entries_per_page() as u64 == geometry.numbers.page
    }

    /// How many names are bound.
    pub fn name_count(&self) -> usize
        // How many names are bound is told.
        ensures { result ≡ length (names_of (log_of self.now.state)) }
    {
        self.index.name_count()
    }

    /// How many entries were handed out to be read so far, as [`Chain::reads`] counts them.
    /// Only tested: how many entries were read is told as the log counts them.
    pub fn reads(&self) -> u64 {
        self.chain.reads()
    }

    /// How many more entries the pages that are there take.
    pub fn room(&self) -> usize
        // For how many entries there is room, and how many log pages more the log takes, is told.
        ensures { result ≡ room_of self.now.state.chain }
    {
        self.chain.room()
    }

    /// How many more pages the log takes to append so many entries.
    pub fn pages_for(&self, entries: usize) -> usize
        ensures value { result ≡ pages_for self.now.state.chain entries }
        ensures enough { entries
            ≤ room_of self.now.state.chain + result * self.now.state.chain.page }
        ensures few { result ≤ entries + 7 }
    {
        self.chain.pages_for(entries)
    }

    /// The id of the last entry, also past the tail. Ids rise: the next entry's is above it.
    pub fn last_id(&self) -> Option<EntryId>
        // Readers tell the last id, the tail and the log with all its entries and log pages.
        ensures { result ≡ last_id self.now.state.chain }
    {
        self.chain.last_id()
    }

    /// How many entries are published.
    pub fn tail(&self) -> usize
        ensures { result ≡ self.now.state.chain.tail }
    {
        self.chain.tail()
    }

    /// How many entries there are, those past the tail too.
    pub fn len(&self) -> usize
        ensures { result ≡ length self.now.state.chain.entries }
    {
        self.chain.len()
    }

    /// How many more pages may be added without memory.
    pub fn pages_room(&self) -> usize
        ensures { result ≡ self.now.room.pages }
    {
        self.chain.spare()
    }

    /// How many of a page's published entries have a current part, and how many one that is not out.
    /// No entry is one of a page that is not there.
    pub fn counts(&self, page: usize) -> LogPageCounts
        // How many published entries of a log page have a current part is told.
        // How many entries of a log page have a part that is current, killed or kept is told.
        ensures { result ≡ counts_of self.now.state page }
    {
        if page >= self.chain.ends().len() {
            return LogPageCounts { live: 0, valid: 0 };
        }
        self.marks.pages[page]
    }

    /// Whether the inode is gone, as the last published entry says.
    pub fn is_gone(&self) -> bool
        // Whether the inode is gone by its log is told.
        ensures { result ≡ is_gone (log_of self.now.state) }
    {
        match self.chain.last_published() {
            Some(last) => matches!(last.item, Item::Gone),
            None => false,
        }
    }

    /// Whether nothing keeps any part: all of them are out.
    pub fn keeps_nothing(&self) -> bool
        // Whether nothing of the inode is kept is told.
        ensures { result ≡ keeps_nothing self.now.state }
    {
        self.marks.there == 0
    }

    /// Whether the slot isn't handed out again, since its generation is the last one.
    pub fn is_withheld(&self) -> bool
        // Whether the inode slot has its last generation is told.
        ensures { result ≡ nat_le NUMBER self.now.state.generation }
    {
        self.generation.number() >= NUMBER
    }
}
