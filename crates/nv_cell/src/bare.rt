//! What is left of a cell once the machine has stopped.

ghost use Rattle.std.specs.Prelude.{◌≡◌, length};
ghost use Rattle.nv_cell.specs.Cell.{log_of};
ghost use Rattle.nv_cell.specs.Slots.{by_part, slot_total};

use crate::InodeCell;
use nv_alloc::Block;
use nv_base::Gen;
use nv_log::Chain;

/// An inode with its log and its blocks, without what is made anew of these: index, marks and counts.
///
/// It owns its blocks, so it is no `Drop`.
pub struct BareCell {
    pub generation: Gen,
    pub chain: Chain,
    /// The data blocks. In what is left of a cell each part of an entry has a place for one but the first.
    pub blocks: Vec<Option<Block>>,
}

impl InodeCell {
    /// How many places the blocks of published parts have. Those of parts that are not published stand behind them.
    pub fn published_slots(&self) -> usize
        // How many places for blocks the published entries have is told.
        ensures { result ≡ slot_total (log_of self.now.state) }
    {
        self.marks.first_slot(self.chain.tail())
    }

    /// What is left of the cell once the machine has stopped. Takes no memory.
    pub fn into_bare(self) -> BareCell
        // Its generation, its log and its blocks are left of a cell.
        ensures generation { result.generation ≡ self.state.generation }
        ensures chain { result.chain.state ≡ self.state.chain }
        ensures spare { result.chain.spare ≡ self.room.pages }
        ensures blocks { by_part self.state.chain.entries result.blocks.items ≡ self.state.blocks }
        ensures slots { length result.blocks.items ≡ slot_total self.state.chain.entries }
    {
        let InodeCell {
            alloc: _,
            block: _,
            generation,
            version: _,
            chain,
            index: _,
            marks: _,
            blocks,
            held: _,
            entries: _,
            parts: _,
            numbers: _,
            killed: _,
            ahead: _,
        } = self;
        BareCell {
            generation,
            chain,
            blocks,
        }
    }
}
