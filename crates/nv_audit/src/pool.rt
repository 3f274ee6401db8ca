//! The pool of inode numbers.

ghost use Rattle.std.specs.Prelude.{◌≡◌, ◌↔◌, ℕ, ◌<◌, IsTrue, not};
ghost use Rattle.std.specs.Option.{option_copied, option_map};
ghost use Rattle.nv_alloc.specs.Numbers.{has};
ghost use Rattle.nv_cell.specs.Cell.{CellValue};
ghost use Rattle.nv_audit.specs.Pool.{IsPoolOf, cell_or_none, is_in_use, is_used};
ghost use Rattle.nv_audit.specs.Records.{states_of};

use crate::device_parts::has_inode;
use nv_alloc::InodePool;
use nv_base::{Geometry, Ino};
use nv_cell::InodeCell;

/// Whether the pool is that of a device between two calls: it has just the numbers whose slots have no inode and are not
/// withheld. Costs one pass over the slots.
pub fn is_pool_of(geometry: &Geometry, cells: &[InodeCell], pool: &InodePool) -> bool
    // A pool passes exactly where it has the numbers of slots without an inode.
    // The number of a withheld slot is in no pool that passes.
    ensures { IsTrue result ↔ IsPoolOf geometry.now.numbers (states_of cells.now) pool.now }
{
    pool.rises();
    pool.made_for(geometry) && are_unused(geometry.numbers.inodes, cells, pool)
}

/// Whether of the numbers below `inodes` the pool has just those that are not in use.
fn are_unused(inodes: u64, cells: &[InodeCell], pool: &InodePool) -> bool
    ensures { IsTrue result ↔ ((n : ℕ) → n < inodes
        → has pool.now.numbers n ≡ not (is_used (states_of cells.now) n)) }
{
    for number in 0..inodes {
        if pool.has(Ino::new(number)) == is_in_use(cells.get(number as usize)) {
            return false;
        }
    }
    true
}

/// Whether a slot, if there is one, has an inode or is withheld.
fn is_in_use(cell: Option<&InodeCell>) -> bool
    ensures { result ≡ is_in_use (cell_or_none
        (option_map (λ (c : CellValue). c.state) (option_copied cell.entry))) }
{
    match cell {
        Some(cell) => has_inode(cell) || cell.is_withheld(),
        None => false,
    }
}
