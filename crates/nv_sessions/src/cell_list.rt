//! Cells that are out of their places, by value.

ghost use Rattle.std.specs.Prelude.{◌≡◌, ◌↔◌, ◌++◌, ◌∷◌, ◌<◌, [], IfOk, IsSome, option_to_list, vec_capacity, vec_len};
ghost use Rattle.nv_base.specs.Memory.{out_of_memory};
ghost use Rattle.nv_base.specs.Refusals.{FailsOnly};
ghost use Rattle.nv_sessions.specs.Taken.{IsRoom};

use nv_alloc::{Block, BlockQueue};
use nv_base::{Fault, Ino};
use nv_calls::Cells;
use nv_cell::{InodeCell, KilledPart};
use nv_entry::{Entry, Item, PartId};
use nv_log::Chain;
use std::alloc::Global;

/// The most cells of a call.
const MOST: usize = 4;

/// A cell that is out of its place, with the number of its inode and the version of the place.
pub(crate) struct TakenCell {
    pub(crate) ino: Ino,
    pub(crate) before: u64,
    pub(crate) cell: InodeCell,
}

/// The cells of a call, by rising number, in room that was made before.
pub(crate) struct CellList {
    cells: Vec<TakenCell>,
}

impl CellList {
    /// No cells, in room for those of a call. The only error is `OutOfMemory`.
    pub(crate) fn new(alloc: Global) -> Result<CellList, Fault>
        ensures room { IfOk result IsRoom }
        ensures err { FailsOnly out_of_memory result }
    {
        Ok(CellList {
            cells: Vec::with_capacity(alloc, MOST)?,
        })
    }

    /// Puts a cell behind the others.
    pub(crate) fn push(&mut self, taken: TakenCell)
        requires room { vec_len self.old.cells < vec_capacity self.old.cells }
        ensures cells { self.new.cells.items ≡ self.old.cells.items ++ taken ∷ [] }
        ensures room { vec_capacity self.new.cells ≡ vec_capacity self.old.cells }
    {
        self.cells.push_reserved(taken);
    }

    /// Takes the last cell out, if there is one.
    pub(crate) fn pop(&mut self) -> Option<TakenCell>
        ensures cells { self.old.cells.items ≡ self.new.cells.items ++ option_to_list result }
        ensures some { IsSome result ↔ (0 < vec_len self.old.cells) }
        ensures room { vec_capacity self.new.cells ≡ vec_capacity self.old.cells }
    {
        self.cells.pop()
    }
}

impl Drop for CellList {
    /// Each block of the cells ends here.
    fn drop(self) {
        let CellList { mut cells } = self;
        while let Some(taken) = cells.pop() {
            let TakenCell {
                ino: _,
                before: _,
                cell,
            } = taken;
            cell.dismantle();
        }
        cells.destroy_empty();
    }
}

impl Cells for CellList {
    ghost use Rattle.std.specs.Prelude.{◌∷◌, [], vec_capacity};
    ghost use Rattle.nv_sessions.specs.Taken.{pairs, versions_of};

    ghost cells = { λ l. pairs l.cells.items };

    // The room, and the versions of the places.
    ghost frame = { λ l. (vec_capacity l.cells ∷ versions_of l.cells.items, []) };

    fn count(&self) -> usize {
        self.cells.len()
    }

    fn ino(&self, k: usize) -> Ino {
        self.cells[k].ino
    }

    fn cell(&self, k: usize) -> &InodeCell {
        &self.cells[k].cell
    }

    fn ready(&mut self, k: usize, items: &[Item]) -> Result<(), Fault> {
        self.cells[k].cell.ready(items)
    }

    fn add_page(&mut self, k: usize, block: Block) {
        self.cells[k].cell.add_page(block);
    }

    fn append(&mut self, k: usize, entry: Entry, queue: &mut BlockQueue) {
        self.cells[k].cell.append(entry, queue);
    }

    fn publish(&mut self, k: usize) -> Vec<KilledPart> {
        self.cells[k].cell.publish()
    }

    fn retire(&mut self, k: usize, part: PartId) {
        self.cells[k].cell.retire(part);
    }

    fn release(&mut self, k: usize, part: PartId) -> Option<Block> {
        self.cells[k].cell.release(part)
    }

    fn erase(&mut self, k: usize) -> Chain {
        self.cells[k].cell.erase()
    }
}
