//! Giving a node another name.

ghost use Rattle.std.specs.Prelude.{◌≡◌, IfOk, IsTrue, option_to_list};
ghost use Rattle.nv_base.specs.Names.{is_lawful_name, same_name};
ghost use Rattle.nv_base.specs.Refusals.{FailsOnly};
ghost use Rattle.nv_base.specs.Memory.{out_of_memory};
ghost use Rattle.nv_calls.specs.Plain.{same_handle};
ghost use Rattle.nv_calls.specs.Refusals.{is_directory};
ghost use Rattle.nv_calls.specs.calls.Rename.{move_plan, moved_refusal, own_place, rename_early, rename_late, rename_plan, replaced_plan, replaced_refusal};

use crate::calls::lookup;
use crate::names::name_of;
use crate::wants::{refuse_if, want_bound, want_directory, want_lawful, want_node};
use crate::{InodePlan, InodePlans, LookupResult, Nodes};
use nv_base::{Fault, Handle, Kind, Name};
use nv_entry::Item;
use std::alloc::{AllocError, Global};

/// Why a rename is refused before its names are compared with what the looks found.
pub fn check_early<N: Nodes>(
    nodes: &N,
    from: &Handle,
    old: &[u8],
    to: &Handle,
    new: &[u8],
) -> Result<(), Fault>
    // All tests of the first name come before any of the second.
    ensures { result ≡ rename_early (N.nodes_of nodes.now) from.now old.now to.now new.now }
{
    lookup::check(nodes, from, old)?;
    want_directory(nodes.kind(to))?;
    want_lawful(new)
}

/// Why a rename is refused, by what its names lead to.
pub fn check_late<N: Nodes>(
    nodes: &N,
    from: &Handle,
    old: &[u8],
    to: &Handle,
    new: &[u8],
    looked: &LookupResult,
) -> Result<(), Fault>
    // `rename` is refused by its first test that fails.
    // A rename is refused where the node that it moves is gone.
    ensures { result
        ≡ rename_late (N.nodes_of nodes.now) from.now old.now to.now new.now looked.now }
{
    let moved = want_bound(looked.first)?;
    if is_own_place(from, old, to, new) {
        return Ok(());
    }
    check_moved(nodes, from, to, looked.second, &moved)
}

/// Why a node may not move from one directory to another.
fn check_moved<N: Nodes>(
    nodes: &N,
    from: &Handle,
    to: &Handle,
    other: Option<Handle>,
    moved: &Handle,
) -> Result<(), Fault>
    ensures { result ≡ moved_refusal (N.nodes_of nodes.now) from.now to.now other moved.now }
{
    let kind = nodes.kind(moved);
    want_node(kind)?;
    refuse_if(
        is_directory(&kind) && !is_same(from, to),
        Fault::MoveDirectory,
    )?;
    check_replaced(nodes, &kind, other)
}

/// Why a node of a kind may not replace what a name leads to.
fn check_replaced<N: Nodes>(
    nodes: &N,
    moved: &Option<Kind>,
    other: Option<Handle>,
) -> Result<(), Fault>
    ensures { result ≡ replaced_refusal (N.nodes_of nodes.now) moved.now other }
{
    let Some(other) = other else {
        return Ok(());
    };
    let kind = nodes.kind(&other);
    let is_dir = is_directory(moved) || is_directory(&kind);
    want_node(kind)?;
    refuse_if(is_dir, Fault::Exists)
}

/// The first name leaves, the second goes last with what the first led to, and a file at the second goes; nothing
/// where both names are one.
pub fn plan(
    alloc: Global,
    from: Handle,
    old: &[u8],
    to: Handle,
    new: &[u8],
    looked: &LookupResult,
) -> Result<InodePlans, Fault>
    requires old_lawful { IsTrue (is_lawful_name old.now) }
    requires new_lawful { IsTrue (is_lawful_name new.now) }
    // `rename` has exactly the items of its plan, inode by inode.
    ensures ok { IfOk result (λ plan. plan ≡ rename_plan from old.now to new.now looked.now) }
    ensures err { FailsOnly out_of_memory result }
{
    if is_own_place(&from, old, &to, new) {
        return Ok(InodePlans::none());
    }
    let Some(moved) = looked.first else {
        return Ok(InodePlans::none());
    };
    let old = name_of(alloc, old)?;
    let new = name_of(alloc, new)?;
    let gone = plan_of_gone(alloc, looked.second)?;
    Ok(plan_of_names(alloc, from, old, to, new, moved, gone)?)
}

/// What the two directories append, and what goes; within one directory, both items in one log.
fn plan_of_names(
    alloc: Global,
    from: Handle,
    old: Name,
    to: Handle,
    new: Name,
    moved: Handle,
    gone: Option<InodePlan>,
) -> Result<InodePlans, AllocError>
    ensures { IfOk result (λ plan. plan
        ≡ move_plan (same_handle from to) from old to new moved (option_to_list gone)) }
{
    let unbind = Item::Unbind { name: old };
    let bind = Item::Bind {
        name: new,
        to: moved,
    };
    if is_same(&from, &to) {
        let first = Some(InodePlan::two(alloc, from, unbind, bind)?);
        let (second, third) = (None, gone);
        return Ok(InodePlans {
            first,
            second,
            third,
        });
    }
    let first = Some(InodePlan::one(alloc, from, unbind)?);
    let second = Some(InodePlan::one(alloc, to, bind)?);
    let third = gone;
    Ok(InodePlans {
        first,
        second,
        third,
    })
}

/// What a file appends whose name the moved one takes.
fn plan_of_gone(alloc: Global, other: Option<Handle>) -> Result<Option<InodePlan>, AllocError>
    ensures { IfOk result (λ gone. option_to_list gone ≡ replaced_plan other) }
{
    let Some(other) = other else {
        return Ok(None);
    };
    Ok(Some(InodePlan::one(alloc, other, Item::Gone)?))
}

/// Whether both names are one, in one directory.
pub fn is_own_place(from: &Handle, old: &[u8], to: &Handle, new: &[u8]) -> bool
    // A rename onto its own place is told, and passes its check.
    ensures { result ≡ own_place from.now old.now to.now new.now }
{
    is_same(from, to) && is_same_name(old, new)
}

pub(crate) fn is_same(a: &Handle, b: &Handle) -> bool
    ensures { result ≡ same_handle a.now b.now }
{
    a.ino == b.ino && a.generation == b.generation
}

fn is_same_name(a: &[u8], b: &[u8]) -> bool
    ensures { result ≡ same_name a.now b.now }
{
    a == b
}

fn is_directory(kind: &Option<Kind>) -> bool
    ensures { result ≡ is_directory kind.now }
{
    match kind {
        Some(Kind::Dir) => true,
        Some(Kind::File) | None => false,
    }
}
