//! What a cleaner does to a cell: entries leave that nothing keeps.

ghost use Rattle.std.specs.Prelude.{◌≡◌, ◌+◌, ◌-◌, ◌≤◌, ◌++◌, length, not, vec_len};
ghost use Rattle.std.specs.Int.{div_ceil};
ghost use Rattle.std.specs.List.{count_by};
ghost use Rattle.nv_alloc.specs.Block.{AreSized};
ghost use Rattle.nv_entry.specs.Clean.{select};
ghost use Rattle.nv_entry.specs.Leaving.{KeepsTheRest};
ghost use Rattle.nv_log.specs.Chain.{compacted, gone_of, left_of, log, with_pages_left};
ghost use Rattle.nv_cell.specs.Cell.{log_of};
ghost use Rattle.nv_cell.specs.Removal.{ArePublished, KeepsTheLast, MayGo, left_in, log_flags};

use crate::closing::close_parts;
use crate::{InodeCell, Stays};
use nv_alloc::{Block, BlockQueue};

impl InodeCell {
    /// Leaves the entries of the log that are flagged as staying, a flag for each, and those past the tail, and moves
    /// them to fresh pages, which take the place of the old ones: the blocks of these are handed out. The last
    /// published entry stays; each part of an entry that goes is out, and it hides no earlier one that stays
    /// ([`InodeCell::may_go`] tells). A scan of the log finds the same as before. The time is linear in the log's
    /// entries and parts, and no memory is taken.
    /// Only tested: neither removal takes memory; the time that it takes.
    pub fn compact(&mut self, stays: &[bool], pages: Vec<Block>) -> Vec<Block>
        requires flags { length stays.now ≡ self.old.state.chain.tail }
        requires pages { vec_len pages ≡ div_ceil
            (length (left_of stays.now self.old.state.chain.entries)) self.old.state.chain.page }
        // Callers let entries leave only whose parts are all out and that hide no earlier one which stays.
        requires may { MayGo stays.now self.old.state }
        requires sized { AreSized self.old.state.block pages.items }
        // A removal changes nothing else and hands out old log pages.
        ensures blocks { result.items ≡ self.old.state.chain.blocks }
        // Entries of the log leave, and the others stand on fresh log pages.
        // Entries that stay keep their marks and blocks.
        // An entry that leaves takes its parts with it.
        // The blocks of entries that stay keep their order.
        // The counts of log pages are those of what stays.
        ensures state { self.new.state ≡ left_in stays.now
            (compacted stays.now pages.items self.old.state.chain) self.old.state }
        ensures log { log_of self.new.state ≡ select stays.now (log_of self.old.state) }
        // What stays of a log has its values, index, page sources and names in order.
        ensures rest { KeepsTheRest self.old.state.block (log_of self.old.state) stays.now }
        // The last entry stays, and with it the id and the epoch that the next must follow.
        // No id comes again after a removal.
        // What the inode tells of itself, and whether it is gone, stays.
        ensures last { KeepsTheLast self.old.state self.new.state }
        ensures room { self.new.room ≡ record self.old.room { pages = 0 } }
    {
        self.chain.holds_together();
        close_parts(
            &mut self.marks.marks,
            &mut self.blocks,
            &self.chain,
            Stays::Entries(stays),
        );
        let old = self.chain.compact(stays, pages);
        self.marks.recount(&self.chain);
        old
    }

    /// Leaves the pages with entries that are flagged as staying, a flag for each, and those without an entry. The
    /// blocks of the others are put into the queue, in order: each of these ends at the tail or before it, none has the
    /// last published entry, each part of their entries is out, and none hides an earlier entry that stays
    /// ([`InodeCell::pages_may_go`] tells). A scan of the log finds the same as before. The time is linear in the log's
    /// entries and parts where all pages before the last one with entries are full, and no memory is taken.
    pub fn remove_pages(&mut self, stays: &[bool], queue: &mut BlockQueue)
        requires flags { length stays.now ≡ length self.old.state.chain.ends }
        // Whole log pages leave that end at the tail or before it, and their blocks go into the queue.
        requires published { ArePublished stays.now self.old.state.chain }
        requires may { MayGo (log_flags stays.now self.old.state.chain) self.old.state }
        // No entry moves to another log page; nothing else changes.
        requires room { count_by not stays.now ≤ queue.old.room }
        requires size { queue.old.size ≡ self.old.state.block }
        // The entries of these log pages leave as by `compact`.
        ensures state { self.new.state ≡ left_in (log_flags stays.now self.old.state.chain)
            (with_pages_left stays.now self.old.state.chain) self.old.state }
        ensures log { log_of self.new.state
            ≡ select (log_flags stays.now self.old.state.chain) (log_of self.old.state) }
        ensures rest { KeepsTheRest self.old.state.block (log_of self.old.state)
            (log_flags stays.now self.old.state.chain) }
        ensures last { KeepsTheLast self.old.state self.new.state }
        ensures room { self.new.room ≡ record self.old.room {
          pages = self.old.room.pages
              + length (gone_of stays.now self.old.state.chain.blocks);
        } }
        ensures queue { queue.new ≡ record queue.old {
          blocks = queue.old.blocks ++ gone_of stays.now self.old.state.chain.blocks;
          room = queue.old.room - length (gone_of stays.now self.old.state.chain.blocks);
        } }
    {
        self.chain.holds_together();
        close_parts(
            &mut self.marks.marks,
            &mut self.blocks,
            &self.chain,
            Stays::Pages(stays),
        );
        self.chain.unlink_pages(stays, queue);
        self.marks.recount(&self.chain);
    }
}
