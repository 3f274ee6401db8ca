//! The entries of a log that hold the pages of a file.

ghost use Rattle.std.specs.Prelude.{◌≡◌, ℕ, ◌+◌, ◌-◌, ◌<◌, ◌≤◌, ◌&&◌, IfOk, None, Some, if◌then◌else◌, length, min, nat_le, nat_lt, slice_index_or};
ghost use Rattle.std.specs.Option.{option_or};
ghost use Rattle.std.specs.Vec.{vec_len};
ghost use Rattle.nv_base.specs.declared.limits.TheConstants.{FILE_PAGES};
ghost use Rattle.nv_reader.specs.Blocks.{page_writer};
ghost use Rattle.nv_reader.specs.Writers.{AreSkips, entry_at};

use nv_base::EntryId;
use nv_entry::{Entry, Item};
use std::alloc::{AllocError, Global};

/// An entry that holds a page, and where to look on: each page from that one up to `past` is held.
#[derive(Clone, Copy, Debug, PartialEq, Eq)]
pub(crate) struct Writer {
    pub(crate) entry: EntryId,
    pub(crate) past: usize,
}

/// The entries that hold the first `count` pages of a file.
///
/// Costs one pass over the log from its end, however many pages an entry writes: in all in the order of the entries and
/// `count` together, times the logarithm of `count`. What later entries hold is skipped, and each page that is gone
/// over skips at least as far as the run that went over it.
pub(crate) fn page_writers(
    alloc: Global,
    block: u64,
    log: &[Entry],
    count: usize,
) -> Result<Vec<Option<Writer>>, AllocError>
    requires block { 0 < block }
    requires count { count ≤ FILE_PAGES }
    ensures len { IfOk result (λ writers. vec_len writers ≡ count) }
    ensures writers { IfOk result (λ writers. (page : ℕ) → page < count
        → entry_at writers.items page ≡ page_writer block log.now page) }
{
    let mut writers = Vec::new(alloc);
    writers.resize(count, None)?;
    find_writers(&mut writers, block, log);
    Ok(writers)
}

/// Finds the entry of each page, from the last entry back: what a later entry says stands.
fn find_writers(writers: &mut [Option<Writer>], block: u64, log: &[Entry])
    requires block { 0 < block }
    requires small { length writers.old ≤ FILE_PAGES }
    requires empty { (page : ℕ) → slice_index_or writers.old page None ≡ None }
    ensures len { length writers.new ≡ length writers.old }
    ensures writers { (page : ℕ) → page < length writers.old
        → entry_at writers.new page ≡ page_writer block log.now page }
{
    // Pages from here on are absent by a later entry.
    let mut cut = writers.len();
    for i in (0..log.len()).rev() {
        let entry = &log[i];
        match &entry.item {
            Item::Write { first, run, .. } => fill(writers, &entry.id, *first, run.len, cut),
            Item::SetSize { size } => cut = lower(cut, size.div_ceil(block)),
            Item::Gone => cut = 0,
            Item::Init { .. } | Item::SetMode { .. } | Item::Bind { .. } | Item::Unbind { .. } => {}
        }
    }
}

/// The lower of two bounds.
fn lower(cut: usize, end: u64) -> usize
    ensures { result ≡ min cut end }
{
    cut.min(end as usize)
}

/// An entry holds the pages of its run below `cut` that no later entry holds.
fn fill(writers: &mut [Option<Writer>], entry: &EntryId, first: u32, len: u32, cut: usize)
    requires cut { cut ≤ length writers.old }
    requires skips { AreSkips writers.old }
    ensures len { length writers.new ≡ length writers.old }
    ensures skips { AreSkips writers.new }
    ensures writers { (page : ℕ) → entry_at writers.new page
        ≡ (if nat_le first page && nat_lt page (min (first + len) cut)
        then option_or (entry_at writers.old page) (Some entry.now)
        else entry_at writers.old page) }
{
    let mut page = first as usize;
    let end = (page + len as usize).min(cut);
    while page < end {
        let held = writers[page].unwrap_or(Writer {
            entry: *entry,
            past: page + 1,
        });
        // Each page up to the end of the run is held once all is filled.
        writers[page] = Some(Writer {
            past: held.past.max(end),
            ..held
        });
        page = held.past;
    }
}
