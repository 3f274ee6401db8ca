//! What actors share.

ghost use Rattle.std.specs.Prelude.{◌≡◌, ◌<◌, ◌≤◌, ◌%◌, MatchOption, is_some, length};
ghost use Rattle.nv_machine.specs.World.{cell_at, no_cell, owner_at, with_owner};
ghost use Rattle.nv_core.specs.Shown.{shared_of};

use nv_alloc::{FreeList, InodePool};
use nv_base::{Geometry, Handle, Ino};
use nv_book::Book;
use nv_cell::InodeCell;
use nv_mount::dismantle_lists;
use nv_parts::dismantle_cells;

/// The free list of each CPU, the pool of inode numbers, the cell of each slot with the actor that holds its lock, the
/// book, and the actor that holds the commit lock. It owns blocks, so it is no `Drop`.
pub(crate) struct Shared {
    pub(crate) geometry: Geometry,
    pub(crate) lists: Vec<FreeList>,
    pub(crate) pool: InodePool,
    pub(crate) cells: Vec<InodeCell>,
    pub(crate) owners: Vec<Option<u64>>,
    pub(crate) book: Book,
    pub(crate) holder: Option<u64>,
}

impl Shared {
    /// How many slots there are.
    pub(crate) fn inodes(&self) -> u64
        ensures { result ≡ length self.now.cells.items }
    {
        self.cells.len() as u64
    }

    /// Bytes of a block.
    pub(crate) fn block(&self) -> u64
        ensures { result ≡ self.now.geometry.numbers.block }
    {
        self.geometry.numbers.block
    }

    /// The CPU of an actor.
    pub(crate) fn cpu_of(&self, actor: u64) -> u64
        requires { 0 < length self.now.lists.items }
        ensures value { result ≡ actor % length self.now.lists.items }
        ensures within { result < length self.now.lists.items }
    {
        actor % self.lists.len() as u64
    }

    /// Whether another actor holds the inode lock of a slot. A slot that is not there has none.
    pub(crate) fn is_locked(&self, ino: Ino) -> bool
        ensures { result ≡ is_some (owner_at (shared_of self.now) ino) }
    {
        match self.owners.get(ino.number() as usize) {
            Some(owner) => owner.is_some(),
            None => false,
        }
    }

    /// Gives a slot's lock to an actor, or to nobody.
    pub(crate) fn set_owner(&mut self, ino: Ino, owner: Option<u64>)
        requires { ino < length self.old.owners.items }
        ensures owner { shared_of self.new ≡ with_owner ino owner (shared_of self.old) }
        ensures rest { self.new ≡ record self.old { owners = self.new.owners } }
    {
        let place = ino.number() as usize;
        self.owners[place] = owner;
    }

    /// The cell of a slot that is there.
    pub(crate) fn cell(&self, ino: Ino) -> Option<&InodeCell>
        ensures cell { MatchOption result (cell_at (shared_of self.now) ino ≡ no_cell)
            (λ cell. cell_at (shared_of self.now) ino ≡ cell.now.state) }
        ensures range { MatchOption result (length self.now.cells.items ≤ ino)
            (λ cell. ino < length self.now.cells.items) }
    {
        self.cells.get(ino.number() as usize)
    }

    /// The handle of the inode that a slot has now, or will have.
    pub(crate) fn handle_of(&self, ino: Ino) -> Handle
        requires { ino < length self.now.cells.items }
        ensures { result ≡ record {
          ino = ino;
          generation = (cell_at (shared_of self.now) ino).generation;
        } }
    {
        let generation = self.cells[ino.number() as usize].generation();
        Handle { ino, generation }
    }

    /// Takes all apart with its blocks.
    pub(crate) fn dismantle(self) {
        let Shared {
            geometry: _,
            lists,
            pool: _,
            cells,
            owners: _,
            book: _,
            holder: _,
        } = self;
        dismantle_lists(lists);
        dismantle_cells(cells);
    }
}
