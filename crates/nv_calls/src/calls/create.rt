//! Making a file, and any new node.

ghost use Rattle.std.specs.Prelude.{◌≡◌, IfOk, IsTrue};
ghost use Rattle.nv_base.specs.Names.{is_lawful_name};
ghost use Rattle.nv_base.specs.Refusals.{FailsOnly};
ghost use Rattle.nv_base.specs.Memory.{out_of_memory};
ghost use Rattle.nv_calls.specs.calls.Create.{begin_plan, create_plan, create_refusal};

use crate::names::name_of;
use crate::wants::{refuse_if, want_directory, want_lawful};
use crate::{InodePlan, InodePlans, Nodes};
use nv_base::{Fault, Handle, Kind, Mode};
use nv_entry::Item;
use std::alloc::Global;

/// Why a create is refused.
pub fn check<N: Nodes>(nodes: &N, dir: &Handle, name: &[u8]) -> Result<(), Fault>
    // `create` is refused by its first test that fails.
    ensures { result ≡ create_refusal (N.nodes_of nodes.now) dir.now name.now }
{
    want_directory(nodes.kind(dir))?;
    want_lawful(name)?;
    refuse_if(nodes.lookup(dir, name).is_some(), Fault::Exists)
}

/// The name goes last in the directory, and a new file begins.
pub fn plan(
    alloc: Global,
    dir: Handle,
    name: &[u8],
    mode: Mode,
    made: Handle,
) -> Result<InodePlans, Fault>
    requires { IsTrue (is_lawful_name name.now) }
    // `create` has exactly the items of its plan.
    ensures ok { IfOk result (λ plan. plan ≡ create_plan dir name.now mode made) }
    ensures err { FailsOnly out_of_memory result }
{
    plan_new(alloc, Kind::File, dir, name, mode, made)
}

/// The name goes last in the directory, and a new inode of the kind begins.
pub(crate) fn plan_new(
    alloc: Global,
    kind: Kind,
    dir: Handle,
    name: &[u8],
    mode: Mode,
    made: Handle,
) -> Result<InodePlans, Fault>
    requires { IsTrue (is_lawful_name name.now) }
    ensures ok { IfOk result (λ plan. plan ≡ begin_plan kind dir name.now mode made) }
    ensures err { FailsOnly out_of_memory result }
{
    let name = name_of(alloc, name)?;
    let to = made;
    let bind = InodePlan::one(alloc, dir, Item::Bind { name, to })?;
    let init = InodePlan::one(alloc, made, Item::Init { kind, mode })?;
    Ok(InodePlans::two(bind, init))
}
