//! One cell that is lent.

use crate::Cells;
use nv_alloc::{Block, BlockQueue};
use nv_base::{Fault, Ino};
use nv_cell::{InodeCell, KilledPart};
use nv_entry::{Entry, Item, PartId};
use nv_log::Chain;

/// One cell that is lent.
#[derive(Drop)]
pub struct LastCell<'a> {
    pub ino: Ino,
    pub cell: &'a mut InodeCell,
}

impl Cells for LastCell<'_> {
    ghost use Rattle.std.specs.Prelude.{◌∷◌, []};

    ghost cells = { λ lent. (lent.ino, lent.cell.now) ∷ [] };

    ghost frame = { λ lent. (lent.cell.ghost_name ∷ [], []) };

    fn count(&self) -> usize {
        1
    }

    fn ino(&self, _k: usize) -> Ino {
        self.ino
    }

    fn cell(&self, _k: usize) -> &InodeCell {
        &*self.cell
    }

    fn ready(&mut self, _k: usize, items: &[Item]) -> Result<(), Fault> {
        self.cell.ready(items)
    }

    fn add_page(&mut self, _k: usize, block: Block) {
        self.cell.add_page(block);
    }

    fn append(&mut self, _k: usize, entry: Entry, queue: &mut BlockQueue) {
        self.cell.append(entry, queue);
    }

    fn publish(&mut self, _k: usize) -> Vec<KilledPart> {
        self.cell.publish()
    }

    fn retire(&mut self, _k: usize, part: PartId) {
        self.cell.retire(part);
    }

    fn release(&mut self, _k: usize, part: PartId) -> Option<Block> {
        self.cell.release(part)
    }

    fn erase(&mut self, _k: usize) -> Chain {
        self.cell.erase()
    }
}
