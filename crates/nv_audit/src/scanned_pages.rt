//! The pages of a log, by one pass over it.

ghost use Rattle.std.specs.Prelude.{◌≡◌, ℕ, ◌+◌, ◌-◌, ◌<◌, ◌≤◌, ◌&&◌, IfOk, OnOk, Some, if◌then◌else◌, min, nat_le, nat_lt};
ghost use Rattle.std.specs.Option.{option_map};
ghost use Rattle.nv_base.specs.Memory.{out_of_memory};
ghost use Rattle.nv_base.specs.Refusals.{FailsOnly};
ghost use Rattle.nv_base.specs.declared.limits.TheConstants.{FILE_PAGES};
ghost use Rattle.nv_cell.specs.Index.{page_part};
ghost use Rattle.nv_entry.specs.Keys.{PageKey, pages_for};
ghost use Rattle.nv_entry.specs.Refs.{ref_after};
ghost use Rattle.nv_findex.specs.Pages.{AreWithin, ref_at};
ghost use Rattle.nv_audit.specs.Index.{ArePagesOf};

use nv_base::limits::FILE_PAGES;
use nv_base::{EntryId, Fault};
use nv_entry::{Entry, Item};
use nv_findex::FileIndex;
use std::alloc::Global;
use std::ops::Range;

/// An index of pages that names for each page the part that holds it now, if any does. `OutOfMemory` where room for its
/// runs was refused. Costs one pass over the log with what `set_pages` costs for each Write, and a look-up for each
/// SetSize.
pub(crate) fn scanned_pages(alloc: Global, block: u64, log: &[Entry]) -> Result<FileIndex, Fault>
    requires { 0 < block }
    ensures ok { IfOk result (λ pages. ArePagesOf block log.now pages) }
    ensures err { FailsOnly out_of_memory result }
{
    let mut pages = FileIndex::new(alloc);
    for entry in log {
        put_entry(&mut pages, block, entry)?;
    }
    Ok(pages)
}

/// Puts the pages that one more entry sets, and takes out those that it makes absent.
fn put_entry(pages: &mut FileIndex, block: u64, entry: &Entry) -> Result<(), Fault>
    requires block { 0 < block }
    requires within { AreWithin (ref_at pages.old.pages) }
    ensures within { AreWithin (ref_at pages.new.pages) }
    ensures ok { OnOk result ((page : ℕ) → option_map page_part (ref_at pages.new.pages page)
        ≡ ref_after block entry.now (PageKey page)
        (option_map page_part (ref_at pages.old.pages page))) }
    ensures err { FailsOnly out_of_memory result }
{
    match &entry.item {
        Item::Write { first, run, .. } => set_pages(pages, run_pages(*first, run.len), entry.id),
        Item::SetSize { size } => {
            pages.cut_from(first_past(block, *size));
            Ok(())
        }
        Item::Gone => {
            pages.cut_from(0);
            Ok(())
        }
        Item::Init { .. } | Item::SetMode { .. } | Item::Bind { .. } | Item::Unbind { .. } => {
            Ok(())
        }
    }
}

/// Sets the pages of a range to the places of an entry, from 0 on. `OutOfMemory` where room was refused. Costs two
/// look-ups and, where there are more or fewer runs than before, a move of the runs behind.
pub(crate) fn set_pages(
    pages: &mut FileIndex,
    range: Range<u32>,
    entry: EntryId,
) -> Result<(), Fault>
    requires { range.end ≤ FILE_PAGES }
    ensures ok { OnOk result ((page : ℕ) → ref_at pages.new.pages page
        ≡ (if nat_le range.start page && nat_lt page range.end
        then Some (record { entry = entry; place = page - range.start })
        else ref_at pages.old.pages page)) }
    ensures within { AreWithin (ref_at pages.old.pages) → AreWithin (ref_at pages.new.pages) }
    ensures err { FailsOnly out_of_memory result }
{
    if range.start < range.end {
        pages.reserve_for(1)?;
        pages.set_run(range.start, range.end - range.start, entry);
    }
    Ok(())
}

/// The pages of a run that a file can have.
pub(crate) fn run_pages(first: u32, len: u32) -> Range<u32>
    ensures start { result.start ≡ first }
    ensures end { result.end ≡ min (first + len) FILE_PAGES }
{
    first..first.saturating_add(len).min(FILE_PAGES)
}

/// The first page past a size, or the end of the greatest file.
pub(crate) fn first_past(block: u64, size: u64) -> u32
    requires { 0 < block }
    ensures { result ≡ min (pages_for block size) FILE_PAGES }
{
    size.div_ceil(block).min(u64::from(FILE_PAGES)) as u32
}
