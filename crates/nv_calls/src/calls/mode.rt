//! Setting the mode of a node.

ghost use Rattle.std.specs.Prelude.{◌≡◌, IfOk};
ghost use Rattle.nv_calls.specs.calls.Mode.{mode_plan, mode_refusal};

use crate::wants::want_node;
use crate::{InodePlan, InodePlans, Nodes};
use nv_base::{Fault, Handle, Mode};
use nv_entry::Item;
use std::alloc::{AllocError, Global};

/// Why a mode is refused.
pub fn check<N: Nodes>(nodes: &N, handle: &Handle) -> Result<(), Fault>
    // `mode` is refused by its first test that fails.
    ensures { result ≡ mode_refusal (N.nodes_of nodes.now) handle.now }
{
    want_node(nodes.kind(handle))
}

/// The node gets the mode.
pub fn plan(alloc: Global, handle: Handle, mode: Mode) -> Result<InodePlans, AllocError>
    // `mode` has exactly the items of its plan.
    ensures { IfOk result (λ plan. plan ≡ mode_plan handle mode) }
{
    let planned = InodePlan::one(alloc, handle, Item::SetMode { mode })?;
    Ok(InodePlans::one(planned))
}
