//! When the parts of a log died.

ghost use Rattle.std.specs.Prelude.{◌≡◌, ◌<◌, ◌++◌, IfOk, OnOk, reverse};
ghost use Rattle.nv_base.specs.Refusals.{FailsOnly};
ghost use Rattle.nv_base.specs.Memory.{out_of_memory};
ghost use Rattle.nv_entry.specs.Log.{pairs_of};
ghost use Rattle.nv_audit.specs.Deaths.{covers_of, deaths_in, deaths_of};
ghost use Rattle.nv_audit.specs.Owed.{died};

use crate::first_covers::FirstCovers;
use crate::logged::Logged;
use crate::parts::part_at;
use nv_base::{Epoch, Fault};
use nv_cell::InodeCell;
use nv_entry::{Entry, When, first_cover};
use std::alloc::{AllocError, Global};

/// When each part of a cell's log died, by number. It costs what [`deaths_in`] does.
pub(crate) fn deaths_of(alloc: Global, cell: &InodeCell) -> Result<Vec<Option<Epoch>>, Fault>
    ensures ok { IfOk result (λ deaths. deaths.items ≡ deaths_of cell.now.state) }
    ensures err { FailsOnly out_of_memory result }
{
    deaths_in(alloc, &Logged::of(cell))
}

/// A log of so many entries at most is scanned for each part: making a table costs more.
const SHORT_LOG: usize = 16;

/// When each part of a log died, by number: the epoch of the first entry behind it that covers its key, and none where it
/// is current. A short log costs what [`deaths_scanned`] does, and a longer one what [`deaths_looked_up`] does.
pub(crate) fn deaths_in(alloc: Global, logged: &Logged<'_>) -> Result<Vec<Option<Epoch>>, Fault>
    ensures ok { IfOk result (λ deaths. deaths.items ≡ deaths_in logged.now.block logged.now.log) }
    ensures err { FailsOnly out_of_memory result }
{
    if logged.log().len() <= SHORT_LOG {
        return Ok(deaths_scanned(alloc, logged)?);
    }
    deaths_looked_up(alloc, logged)
}

/// The same. Costs for each part a look at the entries behind it, up to the first that covers its key, and memory for each
/// part of the log.
fn deaths_scanned(alloc: Global, logged: &Logged<'_>) -> Result<Vec<Option<Epoch>>, AllocError>
    ensures { IfOk result (λ deaths. deaths.items ≡ deaths_in logged.now.block logged.now.log) }
{
    let block = logged.block_bytes();
    let log = logged.log();
    let mut deaths = Vec::with_capacity(alloc, SHORT_LOG)?;
    for place in 0..log.len() {
        push_scanned(&mut deaths, block, &log[place], &log[place + 1..])?;
    }
    Ok(deaths)
}

/// Puts the deaths of the parts of an entry to the end of a list, where these entries stand behind it.
fn push_scanned(
    deaths: &mut Vec<Option<Epoch>>,
    block: u64,
    entry: &Entry,
    later: &[Entry],
) -> Result<(), AllocError>
    requires { 0 < block }
    ensures { OnOk result (deaths.new.items
        ≡ deaths.old.items ++ died (pairs_of block entry.now later.now)) }
{
    for place in 0..entry.item.part_count() {
        let part = part_at(&entry.item, place);
        deaths.push(first_cover(block, When::Now, later, entry.item.part_key(part)))?;
    }
    Ok(())
}

/// The same, by a table of what later entries cover. Costs one pass over the log from its end, with a look-up for each part
/// and for each entry, and memory for each part of the log.
fn deaths_looked_up(alloc: Global, logged: &Logged<'_>) -> Result<Vec<Option<Epoch>>, Fault>
    ensures ok { IfOk result (λ deaths. deaths.items ≡ deaths_in logged.now.block logged.now.log) }
    ensures err { FailsOnly out_of_memory result }
{
    let log = logged.log();
    let mut covers = FirstCovers::new(alloc);
    let mut deaths = Vec::new(alloc);
    for place in (0..log.len()).rev() {
        let entry = &log[place];
        push_deaths(&mut deaths, &covers, logged, entry)?;
        covers.put(logged.block_bytes(), entry)?;
    }
    deaths.reverse();
    Ok(deaths)
}

/// Puts the deaths of the parts of an entry to the end of a list, the last part's first.
fn push_deaths(
    deaths: &mut Vec<Option<Epoch>>,
    covers: &FirstCovers<'_>,
    logged: &Logged<'_>,
    entry: &Entry,
) -> Result<(), AllocError>
    ensures { OnOk result (deaths.new.items ≡ deaths.old.items
        ++ reverse (covers_of logged.now.log covers.now entry.now)) }
{
    for place in (0..entry.item.part_count()).rev() {
        let part = part_at(&entry.item, place);
        deaths.push(covers.get(logged, entry.item.part_key(part)))?;
    }
    Ok(())
}
