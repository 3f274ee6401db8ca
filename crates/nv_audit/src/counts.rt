//! The counts of a log's pages.

ghost use Rattle.std.specs.Prelude.{◌≡◌, ◌↔◌, ◌<◌, ◌≤◌, Bool, IfOk, IsTrue, count_by, length, take};
ghost use Rattle.nv_base.specs.Refusals.{FailsOnly};
ghost use Rattle.nv_base.specs.Memory.{out_of_memory};
ghost use Rattle.nv_cell.specs.Cell.{log_of};
ghost use Rattle.nv_entry.specs.Held.{retention_of};
ghost use Rattle.nv_audit.specs.Counts.{AreCounted, AreValidAs};
ghost use Rattle.nv_audit.specs.Retained.{marked_on};

use crate::retained::{marked_entries, retained_parts};
use nv_base::Fault;
use nv_cell::InodeCell;
use nv_entry::Retention;
use std::alloc::Global;

/// Whether the counts of each page are those that its entries have from scratch: how many of them have a current pair, and
/// how many one that is needed, pending or killed. `OutOfMemory` where memory for the parts of the log was refused.
///
/// Costs one pass over the log from its end with a look-up for each part and for each entry, for each part that is no
/// longer current a scan of the snapshots up to one that holds it, and for each pending part a look-up of its entry.
pub fn are_counted(
    alloc: Global,
    retention: &Retention<'_>,
    cell: &InodeCell,
) -> Result<bool, Fault>
    requires { retention.now.block ≡ cell.now.state.block }
    // Counts are passed exactly where those of each page are counted from scratch.
    // An entry is valid by its own parts: one is needed or pending.
    // A part is held before its death and not at it.
    ensures ok { IfOk result (λ are. IsTrue are
        ↔ AreCounted (retention_of retention.now) cell.now.state) }
    // The only error is `OutOfMemory`.
    ensures err { FailsOnly out_of_memory result }
{
    // The marks of a cell tell at all times which parts are current, so that no live entry is counted once more.
    cell.holds_together();
    let parts = retained_parts(alloc, retention, cell)?;
    let entries = marked_entries(alloc, cell.log().log(), &parts)?;
    Ok(are_valid_as(cell, &entries))
}

/// Whether of each page so many entries are valid as are marked.
fn are_valid_as(cell: &InodeCell, entries: &[bool]) -> bool
    requires { length entries.now ≡ length (log_of cell.now.state) }
    ensures { IsTrue result ↔ AreValidAs cell.now.state entries.now }
{
    for page in 0..cell.log().ends().len() {
        if cell.counts(page).valid != marked_on(cell, entries, page) {
            return false;
        }
    }
    true
}

/// How many published entries of a page are marked.
fn marked_on(cell: &InodeCell, entries: &[bool], page: usize) -> usize
    requires page { page < length cell.now.state.chain.ends }
    requires entries { length entries.now ≡ length (log_of cell.now.state) }
    ensures { result ≡ marked_on cell.now.state entries.now page }
{
    // A cell's log is a chain.
    cell.holds_together();
    let chain = cell.log();
    let start = chain.page_start(page).min(entries.len());
    let count = chain.page_end(page).min(entries.len()) - start;
    count_marked(&entries[start..], count)
}

/// How many of the first `count` are marked.
fn count_marked(entries: &[bool], count: usize) -> usize
    requires { count ≤ length entries.now }
    ensures { result ≡ count_by (λ (marked : Bool). marked) (take count entries.now) }
{
    entries[..count].iter().filter(|marked| **marked).count()
}
