//! Cells that end.

use nv_cell::InodeCell;

/// Takes all cells apart with their blocks.
pub fn dismantle_cells(mut cells: Vec<InodeCell>) {
    while let Some(cell) = cells.pop() {
        cell.dismantle();
    }
    cells.destroy_empty();
}
