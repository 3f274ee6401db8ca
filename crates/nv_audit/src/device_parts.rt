//! The free lists and cells of a device between two calls.

ghost use Rattle.std.specs.Prelude.{◌≡◌, ◌↔◌, ℕ, ◌<◌, All, IsTrue, slice_index_or, true};
ghost use Rattle.nv_alloc.specs.FreeList.{IsHomeList};
ghost use Rattle.nv_cell.specs.Cell.{CellValue};
ghost use Rattle.nv_cell.specs.Readers.{has_inode, is_erased};
ghost use Rattle.nv_audit.specs.DeviceParts.{AreListsOf, AreSlotsOf, IsInRange, IsSlotOf};
ghost use Rattle.nv_audit.specs.Lists.{no_list};
ghost use Rattle.nv_audit.specs.Records.{states_of};

use nv_alloc::FreeList;
use nv_base::Geometry;
use nv_base::limits::NUMBER;
use nv_cell::InodeCell;

/// Whether there is a free list for each CPU, which is that of the CPU.
pub fn are_lists_of(geometry: &Geometry, lists: &[FreeList]) -> bool
    // Lists pass exactly where each CPU has one, which is that of the CPU.
    ensures { IsTrue result ↔ AreListsOf geometry.now.numbers lists.now }
{
    if lists.len() as u64 != geometry.numbers.cpus {
        return false;
    }
    for cpu in 0..lists.len() {
        if !lists[cpu].made_for(geometry, cpu as u64) {
            return false;
        }
    }
    true
}

/// Whether there is a cell for each inode slot, as a device has it between two calls.
pub fn are_slots_of(geometry: &Geometry, cells: &[InodeCell]) -> bool
    // Cells pass exactly where there is one for each inode slot, and each passes.
    ensures { IsTrue result ↔ AreSlotsOf geometry.now.numbers (states_of cells.now) }
{
    cells.len() as u64 == geometry.numbers.inodes && are_all_slots_of(geometry, cells)
}

fn are_all_slots_of(geometry: &Geometry, cells: &[InodeCell]) -> bool
    ensures { IsTrue result
        ↔ All (λ (c : CellValue). IsSlotOf geometry.now.numbers c.state) cells.now }
{
    for cell in cells {
        if !is_slot_of(geometry, cell) {
            return false;
        }
    }
    true
}

/// Whether a cell has the sizes of a device, its generation is in its range, its inode is not of the last one, and it keeps
/// something if its inode is gone. Costs a pass over the marks of a log whose inode is gone.
pub fn is_slot_of(geometry: &Geometry, cell: &InodeCell) -> bool
    // A cell passes exactly where it has a device's sizes and nothing of it is due.
    // Such a cell has a generation in its range, and one of the last has no page.
    ensures { IsTrue result ↔ IsSlotOf geometry.now.numbers cell.now.state }
{
    cell.made_for(geometry) && is_in_range(cell) && is_early(cell) && !is_erased(cell)
}

/// Whether the generation is in its range, and a slot of the last one has no page.
fn is_in_range(cell: &InodeCell) -> bool
    ensures { IsTrue result ↔ IsInRange cell.now.state }
{
    let number = cell.generation().number();
    if number == NUMBER {
        return cell.log().blocks().is_empty();
    }
    1 <= number && number < NUMBER
}

/// Whether the slot has no inode, or one that is not of the last generation.
fn is_early(cell: &InodeCell) -> bool
    ensures { IsTrue result
        ↔ (has_inode cell.now.state ≡ true → cell.now.state.generation < NUMBER) }
{
    !has_inode(cell) || !cell.is_withheld()
}

/// Whether the slot has an inode: its log has an entry.
pub(crate) fn has_inode(cell: &InodeCell) -> bool
    ensures { result ≡ has_inode cell.now.state }
{
    cell.log().tail() > 0
}

/// Whether the inode is gone and nothing of it is kept.
fn is_erased(cell: &InodeCell) -> bool
    ensures { result ≡ is_erased cell.now.state }
{
    cell.is_gone() && cell.keeps_nothing()
}
