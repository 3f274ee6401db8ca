//! Taking a file out of a directory.

ghost use Rattle.std.specs.Prelude.{◌≡◌, IfOk, IsTrue};
ghost use Rattle.nv_base.specs.Names.{is_lawful_name};
ghost use Rattle.nv_base.specs.Refusals.{FailsOnly};
ghost use Rattle.nv_base.specs.Memory.{out_of_memory};
ghost use Rattle.nv_calls.specs.calls.Unlink.{leave_plan, unlink_late};

use crate::names::name_of;
use crate::wants::{want_bound, want_file};
use crate::{InodePlan, InodePlans, Nodes};
use nv_base::{Fault, Handle};
use nv_entry::Item;
use std::alloc::Global;

/// Why an unlink is refused, by what the name leads to.
pub fn check_late<N: Nodes>(nodes: &N, bound: Option<Handle>) -> Result<(), Fault>
    // `unlink` is refused by its first test that fails.
    ensures { result ≡ unlink_late (N.nodes_of nodes.now) bound }
{
    let to = want_bound(bound)?;
    want_file(nodes.kind(&to))
}

/// The name leaves the directory, and what it leads to goes: of an unlink and of an rmdir.
pub fn plan(
    alloc: Global,
    dir: Handle,
    name: &[u8],
    bound: Option<Handle>,
) -> Result<InodePlans, Fault>
    requires { IsTrue (is_lawful_name name.now) }
    // `unlink` and `rmdir` have exactly the items of their plan.
    ensures ok { IfOk result (λ plan. plan ≡ leave_plan dir name.now bound) }
    ensures err { FailsOnly out_of_memory result }
{
    let Some(to) = bound else {
        return Ok(InodePlans::none());
    };
    let name = name_of(alloc, name)?;
    let unbind = InodePlan::one(alloc, dir, Item::Unbind { name })?;
    let gone = InodePlan::one(alloc, to, Item::Gone)?;
    Ok(InodePlans::two(unbind, gone))
}
