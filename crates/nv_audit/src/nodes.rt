//! The trees of all slots by their logs, now and at each living snapshot.

ghost use Rattle.std.specs.Prelude.{◌≡◌, ◌↔◌, ◌≤◌, IfOk, IsTrue, drop, length};
ghost use Rattle.nv_base.specs.Refusals.{FailsOnly};
ghost use Rattle.nv_base.specs.Memory.{out_of_memory};
ghost use Rattle.nv_entry.specs.Index.{names_of};
ghost use Rattle.nv_entry.specs.Log.{seen};
ghost use Rattle.nv_entry.specs.Stored.{stored};
ghost use Rattle.nv_audit.specs.Histories.{AreHistories, IsHistoryBy};
ghost use Rattle.nv_audit.specs.Logged.{AreEmpty, AreLoggedTrees, node_of, slots_of};
ghost use Rattle.nv_audit.specs.Nodes.{AreTrees};
ghost use Rattle.nv_audit.specs.Records.{states_of};
ghost use Rattle.nv_audit.specs.Tree.{IsTree};

use crate::histories::{History, histories_of};
use crate::log_names::names_by;
use crate::logged::{Logged, logs_of};
use crate::{NamedNode, form_a_tree};
use nv_base::{Epoch, Fault, Kind};
use nv_cell::InodeCell;
use nv_entry::{Datum, Key, NameList, When, value_when};
use std::alloc::Global;

/// Whether the nodes of all cells form a tree of directories now and at each of these snapshots. It costs what
/// [`form_trees_of`] does, and takes a place in a list for each cell.
pub fn form_trees(alloc: Global, snapshots: &[Epoch], cells: &[InodeCell]) -> Result<bool, Fault>
    // Nodes pass just where they form a tree now and at each snapshot.
    // At a snapshot a directory has the names that it had there.
    ensures ok { IfOk result (λ form. IsTrue form ↔ AreTrees snapshots.now (states_of cells.now)) }
    // The only error is `OutOfMemory`.
    ensures err { FailsOnly out_of_memory result }
{
    let logs = logs_of(alloc, cells)?;
    form_trees_of(alloc, snapshots, &logs)
}

/// Whether the nodes of these logs form a tree of directories now and at each of these snapshots. Costs a step for each
/// slot, three passes over each log and one over all names, and for each of the snapshots one over the slots up to the
/// last one in use and over the logs that bind names, with a look-up for each entry of such a log.
pub(crate) fn form_trees_of(
    alloc: Global,
    snapshots: &[Epoch],
    logs: &[Logged<'_>],
) -> Result<bool, Fault>
    ensures ok { IfOk result (λ form. IsTrue form ↔ AreLoggedTrees snapshots.now logs.now) }
    ensures err { FailsOnly out_of_memory result }
{
    let used = slots_in_use(logs);
    form_trees_of_used(alloc, snapshots, &logs[..used])
}

/// How many slots there are up to the last one whose log is not empty.
fn slots_in_use(logs: &[Logged<'_>]) -> usize
    ensures within { result ≤ length logs.now }
    ensures unused { AreEmpty (drop result logs.now) }
{
    for place in (0..logs.len()).rev() {
        let logged = &logs[place];
        if !logged.log().is_empty() {
            return place + 1;
        }
    }
    0
}

/// Whether the nodes of the cells up to the last one in use form a tree now and at each of these snapshots.
fn form_trees_of_used(
    alloc: Global,
    snapshots: &[Epoch],
    logs: &[Logged<'_>],
) -> Result<bool, Fault>
    ensures ok { IfOk result (λ form. IsTrue form ↔ AreLoggedTrees snapshots.now logs.now) }
    ensures err { FailsOnly out_of_memory result }
{
    let histories = histories_of(alloc, logs)?;
    let now = form_a_tree_when(alloc, When::Now, logs, &histories)?;
    if !now {
        return Ok(false);
    }
    for snapshot in snapshots {
        let at = form_a_tree_when(alloc, When::At(*snapshot), logs, &histories)?;
        if !at {
            return Ok(false);
        }
    }
    Ok(true)
}

/// Whether they do now or at a snapshot, by the histories of the logs. Takes a node with its names for each slot, and a
/// mark and a place in a list.
fn form_a_tree_when(
    alloc: Global,
    when: When,
    logs: &[Logged<'_>],
    histories: &[History],
) -> Result<bool, Fault>
    requires { AreHistories logs.now histories.now }
    ensures ok { IfOk result (λ form. IsTrue form ↔ IsTree (slots_of when logs.now)) }
    ensures err { FailsOnly out_of_memory result }
{
    let slots = nodes_when(alloc, when, logs, histories)?;
    form_a_tree(alloc, &slots)
}

/// The nodes of all slots.
fn nodes_when(
    alloc: Global,
    when: When,
    logs: &[Logged<'_>],
    histories: &[History],
) -> Result<Vec<Option<NamedNode>>, Fault>
    requires { AreHistories logs.now histories.now }
    ensures ok { IfOk result (λ slots. slots.items ≡ slots_of when logs.now) }
    ensures err { FailsOnly out_of_memory result }
{
    let mut slots = Vec::new(alloc);
    for place in 0..logs.len() {
        slots.push(node_when(alloc, when, &logs[place], &histories[place])?)?;
    }
    Ok(slots)
}

/// The node of a slot.
fn node_when(
    alloc: Global,
    when: When,
    logged: &Logged<'_>,
    history: &History,
) -> Result<Option<NamedNode>, Fault>
    requires { IsHistoryBy logged.now.log history.now }
    ensures ok { IfOk result (λ node. node ≡ node_of when logged.now) }
    ensures err { FailsOnly out_of_memory result }
{
    match kind_when(when, logged, history) {
        Some(kind) => Ok(Some(NamedNode {
            generation: logged.generation(),
            kind,
            names: names_when(alloc, when, logged, history)?,
        })),
        None => Ok(None),
    }
}

/// Its kind.
fn kind_when(when: When, logged: &Logged<'_>, history: &History) -> Option<Kind>
    requires { IsHistoryBy logged.now.log history.now }
    ensures { result ≡ (stored logged.now.block (seen when logged.now.log)).kind }
{
    match when {
        When::Now => kind_now(logged),
        When::At(epoch) => history.kind_at(epoch),
    }
}

/// The kind that the whole log gives.
fn kind_now(logged: &Logged<'_>) -> Option<Kind>
    ensures { result ≡ (stored logged.now.block logged.now.log).kind }
{
    match value_when(logged.block_bytes(), When::Now, logged.log(), Key::Kind) {
        Some(Datum::Kind(kind)) => Some(kind),
        _ => None,
    }
}

/// Its names. A log that binds none is not gone over.
fn names_when(
    alloc: Global,
    when: When,
    logged: &Logged<'_>,
    history: &History,
) -> Result<NameList, Fault>
    requires { IsHistoryBy logged.now.log history.now }
    ensures ok { IfOk result (λ names. names ≡ names_of (seen when logged.now.log)) }
    ensures err { FailsOnly out_of_memory result }
{
    if !history.binds() {
        return Ok(NameList::from_vec(Vec::new(alloc)));
    }
    names_by(alloc, when, logged.log())
}
