//! Making a directory.

ghost use Rattle.std.specs.Prelude.{◌≡◌, IfOk, IsTrue};
ghost use Rattle.nv_base.specs.Names.{is_lawful_name};
ghost use Rattle.nv_base.specs.Refusals.{FailsOnly};
ghost use Rattle.nv_base.specs.Memory.{out_of_memory};
ghost use Rattle.nv_calls.specs.calls.Mkdir.{mkdir_plan, mkdir_refusal};

use crate::calls::create;
use crate::{InodePlans, Nodes};
use nv_base::{Fault, Handle, Kind, Mode};
use std::alloc::Global;

/// Why a mkdir is refused: as a create.
pub fn check<N: Nodes>(nodes: &N, dir: &Handle, name: &[u8]) -> Result<(), Fault>
    // `mkdir` is refused by its first test that fails.
    ensures { result ≡ mkdir_refusal (N.nodes_of nodes.now) dir.now name.now }
{
    create::check(nodes, dir, name)
}

/// The name goes last in the directory, and a new directory begins.
pub fn plan(
    alloc: Global,
    dir: Handle,
    name: &[u8],
    mode: Mode,
    made: Handle,
) -> Result<InodePlans, Fault>
    requires { IsTrue (is_lawful_name name.now) }
    // `mkdir` has exactly the items of its plan.
    ensures ok { IfOk result (λ plan. plan ≡ mkdir_plan dir name.now mode made) }
    ensures err { FailsOnly out_of_memory result }
{
    create::plan_new(alloc, Kind::Dir, dir, name, mode, made)
}
