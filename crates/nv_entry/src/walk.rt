//! The walks of the cleaners, by plain scans.

ghost use Rattle.std.specs.Prelude.{◌≡◌, ◌+◌, ◌<◌, ◌≤◌, [], ◌++◌, IfOk, OnOk, drop, length, replicate, sum, take};
ghost use Rattle.std.specs.List.{list_any};
ghost use Rattle.nv_entry.specs.Clean.{entries_stay, hides, is_droppable, page_goes, pages_by, pages_stay, select};
ghost use Rattle.nv_entry.specs.Held.{retention_of};
ghost use Rattle.nv_entry.specs.declared.item.Entry.{Entry};

use crate::clean::hides;
use crate::{Entry, Item, Retention, is_kept};
use std::alloc::{AllocError, Global};

/// Which entries of a log thorough cleaning keeps, a flag for each. The walk goes from the head and takes an
/// entry out where it is droppable, with the earlier removals made. For each part of the log it costs a pass over
/// the log, the snapshots and the pending pairs.
pub fn thorough_keeps(
    alloc: Global,
    retention: &Retention<'_>,
    log: &[Entry],
) -> Result<Vec<bool>, AllocError>
    // Thorough cleaning takes out every droppable entry, with the earlier removals made.
    // Thorough cleaning takes out no other entry, and keeps the rest in order.
    ensures { IfOk result (λ kept. kept.items
        ≡ entries_stay (retention_of retention.now) [] log.now) }
{
    let mut kept = Vec::new(alloc);
    for i in 0..log.len() {
        let goes = may_go(retention, &kept, log, &log[i], &log[i + 1..]);
        kept.push(!goes)?;
    }
    Ok(kept)
}

/// Which pages of a log fast cleaning keeps, a flag for each, where `counts` says how many entries each page
/// has. The walk goes from the head and takes a page with entries out where all of them are droppable, with
/// those before in the page and the earlier pages gone. It costs as much as the thorough walk.
pub fn fast_keeps(
    alloc: Global,
    retention: &Retention<'_>,
    log: &[Entry],
    counts: &[usize],
) -> Result<Vec<bool>, AllocError>
    requires { sum counts.now ≡ length log.now }
    // Fast cleaning takes out just log pages droppable throughout, earlier ones gone.
    ensures { IfOk result (λ kept. kept.items
        ≡ pages_stay (retention_of retention.now) [] (pages_by counts.now log.now)) }
{
    let mut kept_pages = Vec::new(alloc);
    let mut kept = Vec::new(alloc);
    for count in counts {
        let goes = page_goes(retention, &kept, log, *count);
        push_flags(&mut kept, !goes, *count)?;
        kept_pages.push(!goes)?;
    }
    Ok(kept_pages)
}

/// Whether the page behind the entries that have a flag, of `count` entries, goes.
fn page_goes(retention: &Retention<'_>, kept: &[bool], log: &[Entry], count: usize) -> bool
    requires { length kept.now + count ≤ length log.now }
    ensures { result ≡ page_goes (retention_of retention.now) (select kept.now log.now)
        (take count (drop (length kept.now) log.now))
        (drop count (drop (length kept.now) log.now)) }
{
    let rest = &log[kept.len()..];
    for i in 0..count {
        if !may_go(retention, kept, log, &rest[i], &rest[i + 1..]) {
            return false;
        }
    }
    count > 0
}

fn push_flags(flags: &mut Vec<bool>, stays: bool, count: usize) -> Result<(), AllocError>
    ensures { OnOk result (flags.new.items ≡ flags.old.items ++ replicate count stays) }
{
    for _done in 0..count {
        flags.push(stays)?;
    }
    Ok(())
}

/// Whether the entry is droppable, where `later` are those behind it and of the first entries of the log
/// those stay that have a flag which says so.
fn may_go(
    retention: &Retention<'_>,
    kept: &[bool],
    log: &[Entry],
    entry: &Entry,
    later: &[Entry],
) -> bool
    requires { length kept.now ≤ length log.now }
    ensures { result ≡ is_droppable (retention_of retention.now) (select kept.now log.now)
        entry.now later.now }
{
    !later.is_empty()
        && !is_kept(retention, entry, later)
        && !hides_kept(retention.block, &entry.item, kept, log)
}

fn hides_kept(block: u64, item: &Item, kept: &[bool], log: &[Entry]) -> bool
    requires size { 0 < block }
    requires flags { length kept.now ≤ length log.now }
    ensures { result ≡ list_any (λ (earlier : Entry). hides block item.now earlier.item)
        (select kept.now log.now) }
{
    for i in 0..kept.len() {
        let earlier = &log[i];
        if kept[i] && hides(block, item, &earlier.item) {
            return true;
        }
    }
    false
}
