//! The nodes that the cells of a call hold.

ghost use Rattle.std.specs.Prelude.{◌≡◌, ◌≤◌, length, option_map};
ghost use Rattle.nv_calls.specs.Nodes.{cell_of};
ghost use Rattle.nv_calls.specs.Prepared.{handle_in};

use crate::view::{has_node, kind_in};
use crate::{Cells, Nodes};
use nv_base::{Gen, Handle, Ino, Kind};
use nv_cell::InodeCell;

/// The nodes of a call's cells, of any generation. A handle whose number is none of the cells' has no node.
///
/// Each question costs a search among the cells and at most one look-up. None takes memory.
/// The nodes of a call's cells are told: kind, names, size and look-ups, and whether a page has a block.
/// A handle of no cell, or of another generation, has no node.
/// Only tested: a node is found by a search among at most four cells, and at most one look-up.
#[derive(Drop)]
pub struct HeldNodes<'a, C: Cells> {
    cells: &'a C,
    // It is of at most four cells.
    ghost few: { length (C.cells cells.now) ≤ 4 },
}

impl<'a, C: Cells> HeldNodes<'a, C> {
    /// The nodes of the cells that are lent.
    pub fn new(cells: &'a C) -> HeldNodes<'a, C>
        requires { length (C.cells cells.now) ≤ 4 }
        ensures { result.cells.now ≡ cells.now }
    {
        HeldNodes { cells }
    }

    /// The cell of an inode.
    pub(crate) fn cell_of(&self, ino: Ino) -> Option<&InodeCell>
        ensures { option_map (λ cell. cell.now) result ≡ cell_of (C.cells self.now.cells.now) ino }
    {
        for k in 0..self.cells.count() {
            if self.cells.ino(k) == ino {
                return Some(self.cells.cell(k));
            }
        }
        None
    }

    /// The handle of an inode, with the generation of its cell; 0 where it has none.
    pub(crate) fn handle_in(&self, ino: Ino) -> Handle
        ensures { result ≡ handle_in (C.cells self.now.cells.now) ino }
    {
        let generation = match self.cell_of(ino) {
            Some(cell) => cell.generation(),
            None => Gen::new(0),
        };
        Handle { ino, generation }
    }
}

impl<C: Cells> Nodes for HeldNodes<'_, C> {
    ghost use Rattle.nv_calls.specs.Nodes.{has_page_in, nodes_in};

    ghost nodes_of = { λ all. nodes_in (C.cells all.cells.now) };

    ghost has_page = { λ all. has_page_in (C.cells all.cells.now) };

    fn kind(&self, handle: &Handle) -> Option<Kind> {
        let cell = self.cell_of(handle.ino)?;
        kind_in(cell, handle)
    }

    fn lookup(&self, dir: &Handle, name: &[u8]) -> Option<Handle> {
        let cell = self.cell_of(dir.ino)?;
        if !has_node(cell, dir) {
            return None;
        }
        cell.lookup(name)
    }

    fn names(&self, dir: &Handle) -> usize {
        let Some(cell) = self.cell_of(dir.ino) else {
            return 0;
        };
        if has_node(cell, dir) {
            cell.name_count()
        } else {
            0
        }
    }

    #[inline(always)]
    fn size(&self, file: &Handle) -> u64 {
        let Some(cell) = self.cell_of(file.ino) else {
            return 0;
        };
        // Each block that the cell has is of the size that it says.
        cell.holds_together();
        if has_node(cell, file) { cell.size() } else { 0 }
    }

    fn has_page(&self, file: &Handle, page: u32) -> bool {
        match self.cell_of(file.ino) {
            Some(cell) => cell.page_now(page).is_some(),
            None => false,
        }
    }
}
