//! What a cleaning answers.

ghost use Rattle.std.specs.Prelude.{◌≡◌};
ghost use Rattle.nv_clean.specs.Cleaned.{saved};

use nv_cell::InodeCell;

/// Which cleaning was made, and how many entries and pages the log lost.
#[derive(Clone, Copy, Debug, PartialEq, Eq)]
pub struct Cleaned {
    pub thorough: bool,
    pub entries: usize,
    pub pages: usize,
}

impl Cleaned {
    /// The answer of a cleaning that left this cell, by the entries and pages that its log had before.
    pub(crate) fn since(thorough: bool, entries: usize, pages: usize, cell: &InodeCell) -> Cleaned
        ensures { result ≡ saved thorough entries pages cell.now.state }
    {
        Cleaned {
            thorough,
            entries: entries.saturating_sub(cell.len()),
            pages: pages.saturating_sub(cell.log().blocks().len()),
        }
    }
}
