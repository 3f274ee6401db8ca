//! Asking what a node is.

ghost use Rattle.std.specs.Prelude.{◌≡◌};
ghost use Rattle.nv_calls.specs.calls.Stat.{stat_refusal};

use crate::Nodes;
use crate::wants::want_node;
use nv_base::{Fault, Handle};

/// Why a stat is refused.
pub fn check<N: Nodes>(nodes: &N, handle: &Handle) -> Result<(), Fault>
    // `stat` is refused by its first test that fails.
    ensures { result ≡ stat_refusal (N.nodes_of nodes.now) handle.now }
{
    want_node(nodes.kind(handle))
}
