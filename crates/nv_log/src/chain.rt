//! A chain of log pages.

ghost use Rattle.std.specs.Prelude.{◌≡◌, ◌+◌, ◌-◌, ◌*◌, ◌<◌, ◌≤◌, ◌↔◌, ◌++◌, ◌==◌, IsTrue, IfSome, OnOk, Some, length, max, slice_get, slice_index};
ghost use Rattle.std.specs.List.Sorted.{IsStrictlyIncreasing};
ghost use Rattle.std.specs.Option.{ForSome, option_copied};
ghost use Rattle.nv_base.specs.Ids.{IsIdBefore};
ghost use Rattle.nv_base.specs.Refusals.{FailsOnlyWhere, KeepsOnErr};
ghost use Rattle.nv_log.specs.Chain.{AppendsEntry, IsChain, appended, empty_chain, end_of, entry_of, joined, last_epoch, last_id, last_of, log, log_pages, pages_for, place_of_id, room_of, start_of, with_page};
ghost use Rattle.nv_base.specs.Memory.{out_of_memory};

mod clean;
mod imaging;

use crate::commit_run::CommitRun;
use crate::reads::ReadCount;
use crate::{pages, search};
use nv_alloc::Block;
use nv_base::limits::{LEAST_PAGE_ENTRIES, PAGE_ENTRIES};
use nv_base::{EntryId, Epoch, Fault};
use nv_entry::Entry;
use std::alloc::Global;
use std::marker::Model;
use std::mem;

/// The log of an inode: its pages, each one block with at most so many entries, and the entries in append
/// order. The pages with entries stand first. Entries up to the tail count; those past it were appended and
/// not yet published.
///
/// A call takes constant time where its doc comment says no more: one that shows entries hands out a slice.
///
/// A chain owns its blocks, so it is no `Drop`: [`Chain::into_blocks`] takes it apart.
/// Only tested: a chain is `Send` and `Sync`.
pub struct Chain {
    // How many entries a page holds.
    page: usize,
    blocks: Vec<Block>,
    // Where each page with entries ends.
    ends: Vec<usize>,
    entries: Vec<Entry>,
    tail: usize,
    run: CommitRun,
    // How many pages there is room for, those that are there included.
    reserved: usize,
    reads: ReadCount,
}

impl Model for Chain {
    ghost use Rattle.nv_log.specs.Chain.{ChainValue};

    ghost Value = { ChainValue };

    ghost use Rattle.nv_log.specs.Fields.{AreFields, value_in};

    ghost view = { value_in };

    // A log page holds 2 to 63 entries.
    // No more log pages have entries than there are.
    // The log pages with entries stand first; each has one entry up to a page's number of them; the last ends where
    // all entries end.
    // Ids rise and epochs never fall along its entries, those past the tail too.
    // The tail is within its entries.
    // There is room for as many log pages as are reserved, for their ends and for their entries.
    // In its stretch of commits each entry is the first of its commit, and the commits follow one another.
    ghost invariant = { AreFields };
}

impl Chain {
    /// A chain without a page, of pages that hold `page` entries.
    pub fn new(alloc: Global, page: usize) -> Chain
        requires least { LEAST_PAGE_ENTRIES ≤ page }
        requires most { page ≤ PAGE_ENTRIES }
        // A new chain has no log pages, no entries and no room.
        ensures state { result.state ≡ empty_chain page }
        ensures spare { result.spare ≡ 0 }
    {
        Chain {
            page,
            blocks: Vec::new(alloc),
            ends: Vec::new(alloc),
            entries: Vec::new(alloc),
            tail: 0,
            run: CommitRun::empty(),
            reserved: 0,
            reads: ReadCount::new(),
        }
    }

    /// How many entries a page holds.
    pub fn entries_per_page(&self) -> usize
        ensures value { result ≡ self.now.state.page }
        ensures least { LEAST_PAGE_ENTRIES ≤ result }
    {
        self.page
    }

    /// The blocks of the pages.
    pub fn blocks(&self) -> &[Block]
        // Readers tell a log page's entries, the blocks and the number of entries.
        ensures { result.now ≡ self.now.state.blocks }
    {
        self.blocks.as_slice()
    }

    /// Where each page with entries ends, as a number of entries. These pages stand first, each has an entry,
    /// and the last ends where all entries end.
    pub fn ends(&self) -> &[usize]
        // The ends are those of the chain, which always is a chain.
        ensures value { result.now ≡ self.now.state.ends }
        // The ends of the log pages with entries rise, and the last is the number of entries.
        ensures rising { IsStrictlyIncreasing result.now }
        ensures last { 0 < length result.now
            → slice_index result.now (length result.now - 1) ≡ length self.now.state.entries }
        ensures chain { IsChain self.now.state }
    {
        self.ends.as_slice()
    }

    /// What holds of each chain: its entries stand on its pages in order, and their ids rise. Costs nothing.
    pub fn holds_together(&self)
        // What holds of each chain is told.
        ensures { IsChain self.now.state }
    {
        let _ends = self.ends();
    }

    /// How many entries there are, those past the tail too.
    pub fn len(&self) -> usize
        ensures { result ≡ length self.now.state.entries }
    {
        self.entries.len()
    }

    /// Whether there is no entry.
    pub fn is_empty(&self) -> bool
        ensures { result ≡ (length self.now.state.entries == 0) }
    {
        self.entries.is_empty()
    }

    /// How many entries count.
    pub fn tail(&self) -> usize
        ensures value { result ≡ self.now.state.tail }
        ensures within { result ≤ length self.now.state.entries }
    {
        self.tail
    }

    /// All entries, those past the tail too.
    pub fn entries(&self) -> &[Entry]
        ensures value { result.now ≡ self.now.state.entries }
        // Ids rise and epochs never fall along every chain.
        ensures chain { IsChain self.now.state }
    {
        self.read(&self.entries)
    }

    /// The entries that count.
    pub fn log(&self) -> &[Entry]
        // Only the log is shown as the log.
        ensures value { result.now ≡ log self.now.state }
        // The log is its log pages joined.
        ensures pages { result.now ≡ joined (log_pages self.now.state) }
    {
        self.read(&self.entries[..self.tail])
    }

    /// The place of the first entry of page `k`: of one that has none, where all entries end.
    pub fn page_start(&self, k: usize) -> usize
        // Where a log page starts and ends is told.
        ensures value { result ≡ start_of self.now.state k }
        ensures within { result ≤ end_of self.now.state k }
    {
        pages::start_of(&self.ends, self.entries.len(), k)
    }

    /// The place behind the last entry of page `k`.
    pub fn page_end(&self, k: usize) -> usize
        ensures value { result ≡ end_of self.now.state k }
        ensures within { result ≤ length self.now.state.entries }
    {
        pages::end_of(&self.ends, self.entries.len(), k)
    }

    /// The page in which the entry at a place stands. The time grows with the logarithm of the pages.
    /// Only tested: a log page is found by halving.
    pub fn page_of(&self, place: usize) -> usize
        requires { place < length self.now.state.entries }
        // The log page of an entry's place is told.
        ensures within { result < length self.now.state.ends }
        ensures start { start_of self.now.state result ≤ place }
        ensures end { place < end_of self.now.state result }
    {
        pages::page_of(&self.ends, self.entries.len(), place)
    }

    /// The place of the entry of that id, in append order. The time grows with the logarithm of the entries.
    /// Only tested: how far a commit run reaches.
    #[inline(always)]
    pub fn place_of(&self, id: EntryId) -> Option<usize>
        // An entry whose place a commit run tells is found.
        // A commit run tells the right place.
        ensures value { result ≡ place_of_id self.now.state.entries id }
        ensures within { IfSome result (λ place. place < length self.now.state.entries) }
    {
        search::place_of(&self.entries, self.run, id)
    }

    /// The entry of that id. The time grows with the logarithm of the entries.
    /// Only tested: the time to find an entry grows with the logarithm of the number of entries.
    pub fn entry(&self, id: EntryId) -> Option<&Entry>
        // An entry is found by its id, and its place is within the chain.
        ensures { option_copied result ≡ entry_of self.now.state id }
    {
        let place = self.place_of(id)?;
        self.reads.raise(1);
        Some(self.entry_at(place))
    }

    /// The entry at a place, also past the tail. It is not counted as read.
    pub fn entry_at(&self, place: usize) -> &Entry
        requires { place < length self.now.state.entries }
        // The entry at a place is told.
        ensures { slice_get self.now.state.entries place ≡ Some result.now }
    {
        &self.entries[place]
    }

    /// The last of the entries that count.
    pub fn last_published(&self) -> Option<&Entry>
        // The last entry that counts is told.
        ensures { option_copied result ≡ last_of (log self.now.state) }
    {
        let last = self.entries[..self.tail].last();
        self.reads.raise(usize::from(last.is_some()));
        last
    }

    /// The id of the last entry, also past the tail. Ids rise: the next entry's is above it.
    pub fn last_id(&self) -> Option<EntryId>
        // Readers tell the tail and the last entry's id and epoch.
        ensures { result ≡ last_id self.now.state }
    {
        self.entries.last().map(|entry| entry.id)
    }

    /// The epoch of the last entry, also past the tail. Epochs never fall: the next entry's is no lower.
    pub fn last_epoch(&self) -> Option<Epoch>
        ensures { result ≡ last_epoch self.now.state }
    {
        self.entries.last().map(|entry| entry.epoch)
    }

    /// Whether an entry of that id and epoch may stand next.
    pub fn may_append(&self, id: EntryId, epoch: Epoch) -> bool
        // Whether an entry may follow is told.
        ensures { IsTrue result ↔ (ForSome (last_id self.now.state) (λ last. IsIdBefore last id)
            × ForSome (last_epoch self.now.state) (λ last. last ≤ epoch)) }
    {
        match self.entries.last() {
            Some(last) => search::may_follow(last, id, epoch),
            None => true,
        }
    }

    /// How many more entries the pages that are there take.
    pub fn room(&self) -> usize
        // For how many more entries the log pages have room is told, also of empty ones.
        ensures { result ≡ room_of self.now.state }
    {
        let open = pages::open_page(self.page, &self.ends, self.entries.len());
        let held = self.entries.len() - self.page_start(open);
        self.page * (self.blocks.len() - open) - held
    }

    /// How many more pages the log takes to append so many entries: those of as many growths as make room for
    /// them. The time grows with an eighth of these pages.
    /// Only tested: reckoning the pages takes no memory.
    pub fn pages_for(&self, entries: usize) -> usize
        // A log doubles up to eight pages, then grows by eight.
        // A log takes the pages of as many growths as give room for the entries.
        ensures value { result ≡ pages_for self.now.state entries }
        ensures enough { entries ≤ room_of self.now.state + result * self.now.state.page }
        // A log takes at most seven pages more than it gets entries.
        ensures few { result ≤ entries + 7 }
    {
        let mut pages = 0;
        let mut room = self.room();
        while room < entries {
            let more = pages::growth(self.blocks.len() + pages);
            pages += more;
            room = room.saturating_add(more * self.page);
        }
        pages
    }

    /// How many more pages may be added without memory.
    pub fn spare(&self) -> usize
        ensures { result ≡ self.now.spare }
    {
        self.reserved - self.blocks.len()
    }

    /// Makes room for so many more pages, and for all entries that they and the pages that are there hold:
    /// `OutOfMemory` where there is none. It may take room for more than that, so that the time of many calls
    /// is linear in the pages that they make room for. What it changes is room alone.
    /// Only tested: many small reserves are linear in all.
    pub fn reserve(&mut self, pages: usize) -> Result<(), Fault>
        // Room for log pages, with their ends and entries, is made before a change.
        ensures state { self.new.state ≡ self.old.state }
        ensures ok { OnOk result (self.new.spare ≡ max self.old.spare pages) }
        // A refused growth changes nothing and comes only where room was missing.
        ensures err { FailsOnlyWhere out_of_memory (self.old.spare < pages) result }
        ensures same { KeepsOnErr result self.old self.new }
    {
        if pages <= self.reserved - self.blocks.len() {
            return Ok(());
        }
        let all = self.blocks.len().saturating_add(pages);
        let places = all.saturating_mul(self.page);
        self.entries
            .reserve(places.saturating_sub(self.entries.len()))?;
        self.ends.reserve(all.saturating_sub(self.ends.len()))?;
        self.blocks.reserve(pages)?;
        self.reserved = all;
        Ok(())
    }

    /// Adds a page behind the others.
    pub fn add_page(&mut self, block: Block)
        requires reserved { 0 < self.old.spare }
        // A log page goes behind the others and brings room for its entries.
        ensures state { self.new.state ≡ with_page block self.old.state }
        ensures room { room_of self.new.state ≡ room_of self.old.state + self.old.state.page }
        ensures spare { self.new.spare + 1 ≡ self.old.spare }
    {
        self.blocks.push_reserved(block);
    }

    /// Appends an entry, past the tail. It goes to the page of the last entry, and where that is full to the
    /// page after it.
    pub fn append(&mut self, entry: Entry)
        requires room { 0 < room_of self.old.state }
        // Callers append only an entry of a later id than the last one's, and of no earlier epoch.
        requires id { ForSome (last_id self.old.state) (λ last. IsIdBefore last entry.id) }
        requires epoch { ForSome (last_epoch self.old.state) (λ last. last ≤ entry.epoch) }
        // Where that page is full, the entry goes to the next one.
        ensures state { self.new.state ≡ appended entry self.old.state }
        // A chain is a list of log pages: an entry goes to the page of the last one.
        ensures pages { AppendsEntry entry self.old.state self.new.state }
        ensures spare { self.new.spare ≡ self.old.spare }
    {
        let open = pages::open_page(self.page, &self.ends, self.entries.len());
        self.run = self.run.with(&self.entries, entry.id);
        self.entries.push_reserved(entry);
        self.ends.truncate(open);
        self.ends.push_reserved(self.entries.len());
    }

    /// Moves the tail: the entries before it count.
    pub fn publish_to(&mut self, tail: usize)
        requires onward { self.old.state.tail ≤ tail }
        requires within { tail ≤ length self.old.state.entries }
        // Publishing moves the tail and nothing else.
        ensures state { self.new.state ≡ record self.old.state { tail = tail } }
        ensures spare { self.new.spare ≡ self.old.spare }
    {
        self.tail = tail;
    }

    /// Puts another chain in the place of this one, and hands out the blocks of all old pages. The time is
    /// linear in the old entries, which are let go.
    pub fn replace(&mut self, chain: Chain) -> Vec<Block>
        // A chain that takes another's place is that chain, and every old block is handed out.
        ensures chain { self.new ≡ chain }
        ensures blocks { result.items ≡ self.old.state.blocks }
    {
        let Chain {
            page,
            blocks,
            ends,
            entries,
            tail: published,
            run,
            reserved,
            reads: _,
        } = chain;
        self.page = page;
        self.ends = ends;
        self.entries = entries;
        self.tail = published;
        self.run = run;
        self.reserved = reserved;
        mem::replace(&mut self.blocks, blocks)
    }

    /// Takes the chain apart, and hands out the blocks of all pages. The time is linear in the entries, which
    /// are let go.
    pub fn into_blocks(self) -> Vec<Block>
        // A chain that is taken apart hands out every block.
        ensures { result.items ≡ self.state.blocks }
    {
        let Chain {
            page: _,
            blocks,
            ends: _,
            entries: _,
            tail: _,
            run: _,
            reserved: _,
            reads: _,
        } = self;
        blocks
    }

    /// How many entries were handed out to be read so far, up to the greatest number: each one of
    /// [`Chain::entry`] and [`Chain::last_published`], and those of [`Chain::entries`] and [`Chain::log`]. What goes by
    /// places, as changes do, by [`Chain::entry_at`], is not among them.
    /// Only tested: how many entries were read is counted, up to the greatest number.
    pub fn reads(&self) -> u64 {
        self.reads.get()
    }

    /// Counts the entries of a slice as read.
    fn read<'a>(&'a self, entries: &'a [Entry]) -> &'a [Entry]
        ensures { result.now ≡ entries.now }
    {
        self.reads.raise(entries.len());
        entries
    }
}
