//! What a cleaner does to a chain: flags say which pages or entries stay.

ghost use Rattle.std.specs.Prelude.{◌≡◌, ◌+◌, ◌-◌, ◌<◌, ◌≤◌, ◌++◌, IfOk, length, map, not, sum, vec_len};
ghost use Rattle.std.specs.Int.{div_ceil};
ghost use Rattle.std.specs.List.{count_by};
ghost use Rattle.nv_alloc.specs.Block.{AreSized};
ghost use Rattle.nv_entry.specs.Clean.{pages_by, select};
ghost use Rattle.nv_log.specs.Chain.{IsChain, compacted, flags_from, gone_of, joined, left_of, log, log_pages, pages_of, with_entries_left, with_pages_left};

use super::Chain;
use crate::commit_run::CommitRun;
use crate::{pages, removal};
use nv_alloc::{Block, BlockQueue};
use std::alloc::{AllocError, Global};
use std::mem;

impl Chain {
    /// How many entries that count each page with entries has. The time is linear in the pages.
    pub fn log_counts(&self, alloc: Global) -> Result<Vec<usize>, AllocError>
        ensures value { IfOk result (λ counts. counts.items ≡ map length (log_pages self.now.state)) }
        ensures total { IfOk result (λ counts. sum counts.items ≡ length (log self.now.state)) }
        ensures each { IfOk result (λ counts. length counts.items ≡ length self.now.state.ends) }
        // The counts that fast cleaning's walk is given cut the log into its log pages.
        ensures pages { IfOk result (λ counts. pages_by counts.items (log self.now.state)
            ≡ log_pages self.now.state) }
    {
        let mut counts = Vec::new(alloc);
        for k in 0..self.ends.len() {
            counts.push(self.page_end(k).min(self.tail) - self.page_start(k).min(self.tail))?;
        }
        Ok(counts)
    }

    /// Leaves the pages with entries that are flagged as staying, a flag for each, and those without an entry.
    /// The other pages go with their entries, and their blocks are put into the queue, in order. All entries
    /// of the pages that stay do so too, in their order and on their pages, and those of them that count still
    /// do. The time is linear in the entries and pages, and no memory is taken.
    /// Unlinking takes no memory.
    pub fn unlink_pages(&mut self, stays: &[bool], queue: &mut BlockQueue)
        requires flags { length stays.now ≡ length self.old.state.ends }
        requires room { count_by not stays.now ≤ queue.old.room }
        requires sized { AreSized queue.old.size (gone_of stays.now self.old.state.blocks) }
        // The tail stands behind the log's entries that are left.
        ensures state { self.new.state ≡ with_pages_left stays.now self.old.state }
        // Log pages that flags mark as staying keep their entries, in order, and the log keeps what they had of it.
        ensures pages { pages_of self.new.state ≡ select stays.now (pages_of self.old.state) }
        ensures log { log self.new.state ≡ joined (select stays.now (log_pages self.old.state)) }
        ensures spare { self.new.spare
            ≡ self.old.spare + length (gone_of stays.now self.old.state.blocks) }
        // The blocks of the other log pages go to the end of a queue, in order.
        ensures queue { queue.new ≡ record queue.old {
          blocks = queue.old.blocks ++ gone_of stays.now self.old.state.blocks;
          room = queue.old.room - length (gone_of stays.now self.old.state.blocks);
        } }
    {
        self.leave_pages(0, stays);
        removal::hand_out(&mut self.blocks, stays, queue);
    }

    /// Leaves the entries of the pages that stay, by flags from page `first` on. All blocks stay, so that
    /// those behind the pages that have entries left are without.
    fn leave_pages(&mut self, first: usize, stays: &[bool])
        ensures state { self.new.state ≡ with_entries_left (flags_from first stays.now) self.old.state }
        ensures spare { self.new.spare ≡ self.old.spare }
        ensures was { IsChain self.old.state }
    {
        self.tail = removal::take_pages(&mut self.entries, &mut self.ends, self.tail, first, stays);
        self.run = CommitRun::empty();
    }

    /// How many entries stay where the log keeps those that are flagged as staying, a flag for each. The time
    /// is linear in the flags.
    pub fn staying(&self, stays: &[bool]) -> usize
        requires { length stays.now ≡ self.now.state.tail }
        // How many entries stay is told before.
        ensures { result ≡ length (left_of stays.now self.now.state.entries) }
    {
        removal::staying(&self.entries, stays)
    }

    /// Leaves the entries of the log that are flagged as staying, a flag for each, and those past the tail.
    /// They move in their order to fresh pages, which take the place of the old ones, and the blocks of these
    /// are handed out. Those that stay and counted still do. The time is linear in the entries, and no memory
    /// is taken.
    pub fn compact(&mut self, stays: &[bool], pages: Vec<Block>) -> Vec<Block>
        requires flags { length stays.now ≡ self.old.state.tail }
        requires pages { vec_len pages
            ≡ div_ceil (length (left_of stays.now self.old.state.entries)) self.old.state.page }
        // All old blocks are handed out; compacting takes no memory.
        ensures blocks { result.items ≡ self.old.state.blocks }
        // Entries past the tail stay behind the log.
        // Entries that stay fill fresh log pages in order, ceil(staying / page) of them.
        ensures state { self.new.state ≡ compacted stays.now pages.items self.old.state }
        // Entries of the log that flags mark as staying stay in order, as the log.
        ensures log { log self.new.state ≡ select stays.now (log self.old.state) }
        ensures spare { self.new.spare ≡ 0 }
    {
        self.tail = removal::staying(&self.entries[..self.tail], stays);
        removal::take_entries(&mut self.entries, stays);
        pages::pack(&mut self.ends, self.page, self.entries.len());
        self.run = CommitRun::empty();
        self.reserved = pages.len();
        mem::replace(&mut self.blocks, pages)
    }
}
