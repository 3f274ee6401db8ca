//! The parts of a world.

ghost use Rattle.std.specs.Prelude.{◌≡◌};

use crate::cells::dismantle_cells;
use nv_alloc::{FreeList, InodePool};
use nv_base::{Geometry, Items};
use nv_book::Book;
use nv_cell::InodeCell;
use nv_mount::dismantle_lists;

/// What a world has beside its actors: the numbers that it was made for, the cell of each inode slot, the free list of
/// each CPU, the pool of inode numbers, and the book. Cells and lists own blocks, which end with them.
pub struct Parts {
    pub geometry: Geometry,
    pub cells: Items<InodeCell>,
    pub lists: Items<FreeList>,
    pub pool: InodePool,
    pub book: Book,
}

impl Drop for Parts {
    /// Each block that the parts own ends here.
    fn drop(self) {
        let Parts {
            geometry: _,
            cells,
            lists,
            pool: _,
            book: _,
        } = self;
        dismantle_lists(lists.into_vec());
        dismantle_cells(cells.into_vec());
    }
}

impl Parts {
    /// The parts one by one, in the order of the fields.
    pub fn into_fields(self) -> (Geometry, Items<InodeCell>, Items<FreeList>, InodePool, Book)
        // The parts are given one by one.
        ensures { result ≡ (self.geometry, self.cells, self.lists, self.pool, self.book) }
    {
        let Parts {
            geometry,
            cells,
            lists,
            pool,
            book,
        } = self;
        (geometry, cells, lists, pool, book)
    }
}
