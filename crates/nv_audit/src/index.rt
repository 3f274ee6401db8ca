//! The index of an inode.

ghost use Rattle.std.specs.Prelude.{◌≡◌, ◌↔◌, ◌<◌, IfOk, IfSome, IsTrue};
ghost use Rattle.std.specs.Option.{option_map};
ghost use Rattle.nv_base.specs.Memory.{out_of_memory};
ghost use Rattle.nv_base.specs.Refusals.{FailsOnly};
ghost use Rattle.nv_entry.specs.Keys.{key_named};
ghost use Rattle.nv_entry.specs.Refs.{scan_ref};
ghost use Rattle.nv_findex.specs.Pages.{IsRun};
ghost use Rattle.nv_audit.specs.Index.{ArePagesOf, HaveSamePages, both_end, first_from};

use crate::scanned_pages::scanned_pages;
use nv_base::Fault;
use nv_entry::{Entry, Key, PartRef, current_part};
use nv_findex::{FileIndex, PageRef, PageRun};
use std::alloc::Global;

/// Whether a part is the one that holds a key now, if any does. Costs one pass over the log.
pub fn is_part_of(block: u64, log: &[Entry], key: Key<'_>, part: Option<PartRef>) -> bool
    requires { 0 < block }
    // Whether a part is the one that holds a key by the log is told.
    ensures { IsTrue result ↔ (part ≡ scan_ref block log.now (key_named key.entry)) }
{
    is_same(part, current_part(block, log, key))
}

/// Whether an index of pages names for each page the part that holds it now, if any does. `OutOfMemory` where memory
/// for the runs of the log was refused.
///
/// Costs one pass over the log with two look-ups for each Write and one for each SetSize, and for a Write that makes
/// more or fewer runs a move of those behind; then a step for each run of pages.
pub fn are_pages_of(
    alloc: Global,
    block: u64,
    log: &[Entry],
    index: &FileIndex,
) -> Result<bool, Fault>
    requires { 0 < block }
    // A file index is passed exactly where it names for each page the part that holds it.
    // No page more is passed.
    // A cut takes out the pages past the size.
    ensures ok { IfOk result (λ are. IsTrue are ↔ ArePagesOf block log.now index.now) }
    // The only error is `OutOfMemory`.
    ensures err { FailsOnly out_of_memory result }
{
    let scanned = scanned_pages(alloc, block, log)?;
    Ok(have_same_pages(&scanned, index))
}

/// Whether each page lies in both at the same place, or in neither. A step goes over the pages that are of one run in
/// both.
fn have_same_pages(one: &FileIndex, other: &FileIndex) -> bool
    ensures { IsTrue result ↔ HaveSamePages one.now other.now }
{
    let mut page = 0;
    let mut place = 0;
    let mut other_place = 0;
    loop {
        let run = one.run_near(page, &mut place);
        let other_run = other.run_near(page, &mut other_place);
        if !begin_alike(page, &run, &other_run) {
            return false;
        }
        match both_end(run, other_run) {
            Some(end) => page = end,
            None => return true,
        }
    }
}

/// Whether two runs have the same page first from a page on, and at the same place, or none of them is there.
fn begin_alike(page: u32, run: &Option<PageRun>, other: &Option<PageRun>) -> bool
    requires run { IfSome run.now (λ run. IsRun run × (page < run.end)) }
    requires other { IfSome other.now (λ run. IsRun run × (page < run.end)) }
    ensures { IsTrue result
        ↔ (option_map (first_from page) run.now ≡ option_map (first_from page) other.now) }
{
    first_from(page, run) == first_from(page, other)
}

/// The first page of a run from a page on, and where it lies.
fn first_from(page: u32, run: &Option<PageRun>) -> Option<(u32, PageRef)>
    requires { IfSome run.now (λ run. IsRun run × (page < run.end)) }
    ensures { result ≡ option_map (first_from page) run.now }
{
    let run = run.as_ref()?;
    let first = run.first.max(page);
    Some((first, run.page_ref(first)))
}

/// Where the first of two runs ends.
fn both_end(run: Option<PageRun>, other: Option<PageRun>) -> Option<u32>
    ensures { result ≡ both_end run other }
{
    Some(run?.end.min(other?.end))
}

fn is_same(one: Option<PartRef>, other: Option<PartRef>) -> bool
    ensures { IsTrue result ↔ (one ≡ other) }
{
    match (one, other) {
        (None, None) => true,
        (Some(one), Some(other)) => {
            one.entry.commit == other.entry.commit
                && one.entry.place == other.entry.place
                && one.place == other.place
        }
        _ => false,
    }
}
