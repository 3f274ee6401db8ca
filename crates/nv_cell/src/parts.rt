//! The parts of a cell's log: what keeps each, and the block of each page.

ghost use Rattle.std.specs.Prelude.{◌≡◌, ◌<◌, [], false, slice_index_or};
ghost use Rattle.std.specs.Option.{option_copied};
ghost use Rattle.nv_cell.specs.Cell.{block_named, log_of};
ghost use Rattle.nv_cell.specs.Readers.{has_killed, marks_by_entry, there_flags};

use crate::number::find_part;
use crate::read::block_at;
use crate::{InodeCell, Mark};
use nv_alloc::Block;
use nv_entry::PartId;

impl InodeCell {
    /// The marks of the parts of a published entry, by the entry's place in the log.
    /// Only tested: the times that these take.
    pub fn marks_of(&self, entry: usize) -> &[Mark]
        requires { entry < self.now.state.chain.tail }
        // The marks of an entry's parts are told.
        ensures { result.now ≡ slice_index_or
            (marks_by_entry (log_of self.now.state) self.now.state.marks) entry [] }
    {
        self.chain.holds_together();
        let first = self.marks.first(entry);
        let end = self.marks.ends.end(entry);
        &self.marks.marks[first..end]
    }

    /// Whether anything keeps a part of a published entry, by the entry's place in the log: one of its parts is not
    /// out. The time is the same at any size of the log.
    pub fn keeps_entry(&self, entry: usize) -> bool
        requires { entry < self.now.state.chain.tail }
        // Whether anything keeps a part of an entry is told.
        ensures { result ≡ slice_index_or (there_flags self.now.state) entry false }
    {
        self.chain.holds_together();
        self.marks.tallies[entry].there > 0
    }

    /// The block of a part of a published entry; none where the log has no such part, where it is no page, and where
    /// it is out. The time grows with the logarithm of the entries.
    pub fn block_of(&self, part: PartId) -> Option<&Block>
        // The block of a part is told.
        ensures { option_copied result ≡ block_named self.now.state part }
    {
        let found = find_part(&self.chain, &self.marks, part)?;
        block_at(&self.blocks, self.marks.slot(found))
    }

    /// Whether a part is killed: neither retired nor released since the publish that killed it. The time is linear in
    /// the parts.
    pub fn has_killed(&self) -> bool
        // Whether a part is killed is told.
        ensures { result ≡ has_killed self.now.state }
    {
        self.marks
            .marks
            .iter()
            .any(|mark| matches!(mark, Mark::Killed))
    }
}
