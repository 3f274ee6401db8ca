//! The parts of a plan, made without memory.

ghost use Rattle.std.specs.Prelude.{◌≡◌, ◌+◌, ℕ, List, [], drop};
ghost use Rattle.nv_audit.specs.Image.{ImageValue};
ghost use Rattle.nv_audit.specs.Mounted.{cell_of};
ghost use Rattle.nv_mount.specs.Build.{AreFree, IsMade, IsNext};
ghost use Rattle.nv_mount.specs.Filling.{IsErasing, IsStaying};
ghost use Rattle.nv_mount.specs.View.{ViewValue};

use crate::Plan;
use crate::homes::{give_all, give_places, give_queue};
use crate::plan::SlotPlan;
use nv_alloc::{FreeList, InodePool};
use nv_base::Gen;
use nv_book::Book;
use nv_cell::{BareCell, CellPlan, InodeCell};
use nv_log::Chain;

impl Plan {
    /// Makes the cell of the next slot, of what is left of it. All its blocks go home, and from there those to the cell
    /// that its entries say. Takes no memory; the time is that of the slot's blocks, entries and parts, with a logarithm
    /// for each block.
    pub fn put(&mut self, bare: BareCell, lists: &mut Vec<FreeList>)
        requires { (image : ImageValue) × (view : ViewValue) × (made : ℕ) × (owed : List ℕ)
            × IsNext image view made owed self.old bare lists.old.items }
        // The next cell is the one that a mount makes, and other blocks of the slot are free.
        ensures { (image : ImageValue) (view : ViewValue) (made : ℕ) (owed : List ℕ)
            → IsNext image view made owed self.old bare lists.old.items
            → IsMade image view made owed self.new lists.new.items }
    {
        let cell = self.next_cell(bare, lists);
        self.cells.push_reserved(cell);
    }

    /// The cell of the next slot, whose plan is taken.
    fn next_cell(&mut self, bare: BareCell, lists: &mut Vec<FreeList>) -> InodeCell
        requires { (image : ImageValue) × (view : ViewValue) × (made : ℕ) × (owed : List ℕ)
            × IsNext image view made owed self.old bare lists.old.items }
        ensures made { (image : ImageValue) (view : ViewValue) (made : ℕ) (owed : List ℕ)
            → IsNext image view made owed self.old bare lists.old.items
            → (result.state ≡ cell_of image made) × AreFree image (made + 1) owed lists.new.items }
        ensures slots { self.new.slots.items ≡ drop 1 self.old.slots.items }
        ensures rest { self.new ≡ record self.old { slots = self.new.slots } }
    {
        let BareCell {
            generation,
            chain,
            blocks,
        } = bare;
        give_places(&self.geometry, lists, blocks);
        match self.slots.pop_front() {
            Some(SlotPlan::Cell(tail, plan)) => {
                self.staying_cell(generation, chain, tail, plan, lists)
            }
            Some(SlotPlan::Erased) => self.erased_cell(generation, chain, lists),
            None => unreachable!(),
        }
    }

    /// The cell of a log that is cut to its first `tail` entries.
    fn staying_cell(
        &mut self,
        generation: Gen,
        mut chain: Chain,
        tail: usize,
        mut plan: CellPlan,
        lists: &mut Vec<FreeList>,
    ) -> InodeCell
        requires { (image : ImageValue) × (view : ViewValue) × (ino : ℕ) × (owed : List ℕ)
            × (self.old.geometry.numbers ≡ image.numbers)
            × IsStaying image view ino owed self.old.pages generation tail chain plan
            lists.old.items }
        ensures made { (image : ImageValue) (view : ViewValue) (ino : ℕ) (owed : List ℕ)
            → self.old.geometry.numbers ≡ image.numbers
            → IsStaying image view ino owed self.old.pages generation tail chain plan
            lists.old.items
            → (result.state ≡ cell_of image ino) × AreFree image (ino + 1) owed lists.new.items }
        ensures rest { self.new ≡ self.old }
    {
        chain.cut(tail, &mut self.pages);
        give_queue(&self.geometry, lists, &mut self.pages);
        plan.fill(&self.geometry, &chain, lists);
        let block = self.geometry.numbers.block;
        InodeCell::rebuild(self.alloc, block, generation, plan, chain)
    }

    /// The cell of a slot whose inode is gone for good: an empty one of the next generation.
    fn erased_cell(&self, generation: Gen, chain: Chain, lists: &mut Vec<FreeList>) -> InodeCell
        requires { (image : ImageValue) × (view : ViewValue) × (ino : ℕ) × (owed : List ℕ)
            × (self.now.geometry.numbers ≡ image.numbers)
            × IsErasing image view ino owed generation chain lists.old.items }
        ensures { (image : ImageValue) (view : ViewValue) (ino : ℕ) (owed : List ℕ)
            → self.now.geometry.numbers ≡ image.numbers
            → IsErasing image view ino owed generation chain lists.old.items
            → (result.state ≡ cell_of image ino) × AreFree image (ino + 1) owed lists.new.items }
    {
        give_all(&self.geometry, lists, chain.into_blocks());
        let numbers = self.geometry.numbers;
        let page = numbers.page as usize;
        InodeCell::new(self.alloc, numbers.block, page, generation.next(), 0)
    }

    /// All parts, once all cells are made.
    pub fn finish(self) -> (Vec<InodeCell>, InodePool, Book)
        requires slots { self.slots.items ≡ [] }
        requires pages { self.pages.blocks ≡ [] }
        // Once all cells are made they are handed out, with the pool and the book.
        ensures cells { result.0.items ≡ self.cells.items }
        ensures pool { result.1 ≡ self.pool }
        ensures book { result.2 ≡ self.book }
    {
        let Plan {
            alloc: _,
            geometry: _,
            slots,
            cells,
            pages,
            pool,
            book,
        } = self;
        slots.destroy_empty();
        pages.dismantle();
        (cells, pool, book)
    }
}
