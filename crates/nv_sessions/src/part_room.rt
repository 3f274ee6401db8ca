//! Room for the parts of a world outside their locks.

ghost use Rattle.std.specs.Prelude.{◌≡◌, ◌≤◌, IfOk, [], vec_capacity};
ghost use Rattle.nv_base.specs.Memory.{out_of_memory};
ghost use Rattle.nv_base.specs.Refusals.{FailsOnly};

use crate::names::{Blocks, Commits};
use crate::unlocked_parts::{BesideCell, BesideList};
use nv_alloc::FreeList;
use nv_base::Fault;
use nv_cell::InodeCell;
use std::alloc::Global;

/// Room for parts that come out of their locks, and for what lies beside them.
pub struct PartRoom<C: Commits, B: Blocks> {
    pub(crate) cells: Vec<InodeCell>,
    pub(crate) cell_rests: Vec<BesideCell<C, B>>,
    pub(crate) lists: Vec<FreeList>,
    pub(crate) list_rests: Vec<BesideList<B>>,
}

impl<C: Commits, B: Blocks> PartRoom<C, B> {
    /// Room for so many cells and lists.
    pub(crate) fn new(alloc: Global, cells: usize, lists: usize) -> Result<PartRoom<C, B>, Fault>
        ensures cells { IfOk result (λ room.
            (room.cells.items ≡ []) × (cells ≤ vec_capacity room.cells)) }
        ensures cell_rests { IfOk result (λ room.
            (room.cell_rests.items ≡ []) × (cells ≤ vec_capacity room.cell_rests)) }
        ensures lists { IfOk result (λ room.
            (room.lists.items ≡ []) × (lists ≤ vec_capacity room.lists)) }
        ensures list_rests { IfOk result (λ room.
            (room.list_rests.items ≡ []) × (lists ≤ vec_capacity room.list_rests)) }
        ensures err { FailsOnly out_of_memory result }
    {
        let cell_rests = Vec::with_capacity(alloc, cells)?;
        let list_rests = Vec::with_capacity(alloc, lists)?;
        let cells: Vec<InodeCell> = Vec::with_capacity(alloc, cells)?;
        match Vec::with_capacity(alloc, lists) {
            Ok(lists) => Ok(PartRoom {
                cells,
                cell_rests,
                lists,
                list_rests,
            }),
            Err(error) => {
                cells.destroy_empty();
                Err(Fault::from(error))
            }
        }
    }
}
