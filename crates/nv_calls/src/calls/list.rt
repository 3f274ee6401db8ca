//! Asking for the names of a directory.

ghost use Rattle.std.specs.Prelude.{◌≡◌};
ghost use Rattle.nv_calls.specs.calls.List.{list_refusal};

use crate::Nodes;
use crate::wants::want_directory;
use nv_base::{Fault, Handle};

/// Why a list is refused.
pub fn check<N: Nodes>(nodes: &N, dir: &Handle) -> Result<(), Fault>
    // `list` is refused by its first test that fails.
    ensures { result ≡ list_refusal (N.nodes_of nodes.now) dir.now }
{
    want_directory(nodes.kind(dir))
}
