//! The cells of a call that stand among those of all slots.

ghost use Rattle.std.specs.Prelude.{◌≡◌, ℕ, ◌<◌, AllPairs, length, slice_index_or};

use crate::Cells;
use nv_alloc::{Block, BlockQueue};
use nv_base::{Fault, Ino};
use nv_cell::{InodeCell, KilledPart};
use nv_entry::{Entry, Item, PartId};
use nv_log::Chain;

/// The cells of all slots, of which those of some numbers, that rise, are lent to a call. What stands beside them is
/// the cells of all other slots.
/// Cells may be those of some inode slots of all; the others lie beside.
#[derive(Drop)]
pub struct SlotCells<'a> {
    pub cells: &'a mut [InodeCell],
    pub slots: &'a [Ino],
    // The inode slots that are lent rise, and each has a cell.
    pub ghost there: { (k : ℕ) → k < length slots.now
        → slice_index_or slots.now k 0 < length cells.now },
    pub ghost rising: { AllPairs (λ a b. a < b) slots.now },
}

impl SlotCells<'_> {
    /// The slot of the k-th cell.
    fn slot(&self, k: usize) -> usize
        requires { k < length self.now.slots.now }
        ensures is { result ≡ slice_index_or self.now.slots.now k 0 }
        ensures there { result < length self.now.cells.now }
    {
        self.slots[k].number() as usize
    }
}

impl Cells for SlotCells<'_> {
    ghost use Rattle.std.specs.Prelude.{◌∷◌};
    ghost use Rattle.nv_calls.specs.SlotCells.{lent_cells, other_cells};

    ghost cells = { λ lent. lent_cells lent.slots.now lent.cells.now };

    ghost frame = { λ lent. (
      lent.cells.ghost_name ∷ lent.slots.now,
      other_cells lent.slots.now lent.cells.now,
    ) };

    fn count(&self) -> usize {
        self.slots.len()
    }

    fn ino(&self, k: usize) -> Ino {
        self.slots[k]
    }

    fn cell(&self, k: usize) -> &InodeCell {
        let slot = self.slot(k);
        let cells = &*self.cells;
        &cells[slot]
    }

    fn ready(&mut self, k: usize, items: &[Item]) -> Result<(), Fault> {
        let slot = self.slot(k);
        let cells = &mut *self.cells;
        cells[slot].ready(items)
    }

    fn add_page(&mut self, k: usize, block: Block) {
        let slot = self.slot(k);
        let cells = &mut *self.cells;
        cells[slot].add_page(block);
    }

    fn append(&mut self, k: usize, entry: Entry, queue: &mut BlockQueue) {
        let slot = self.slot(k);
        let cells = &mut *self.cells;
        cells[slot].append(entry, queue);
    }

    fn publish(&mut self, k: usize) -> Vec<KilledPart> {
        let slot = self.slot(k);
        let cells = &mut *self.cells;
        cells[slot].publish()
    }

    fn retire(&mut self, k: usize, part: PartId) {
        let slot = self.slot(k);
        let cells = &mut *self.cells;
        cells[slot].retire(part);
    }

    fn release(&mut self, k: usize, part: PartId) -> Option<Block> {
        let slot = self.slot(k);
        let cells = &mut *self.cells;
        cells[slot].release(part)
    }

    fn erase(&mut self, k: usize) -> Chain {
        let slot = self.slot(k);
        let cells = &mut *self.cells;
        cells[slot].erase()
    }
}
