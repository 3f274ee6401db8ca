//! Reading bytes of a file.

ghost use Rattle.std.specs.Prelude.{◌≡◌};
ghost use Rattle.nv_calls.specs.calls.Read.{read_refusal};

use crate::Nodes;
use crate::wants::want_file;
use nv_base::{Fault, Handle};

/// Why a read is refused.
pub fn check<N: Nodes>(nodes: &N, file: &Handle) -> Result<(), Fault>
    // `read` is refused by its first test that fails.
    ensures { result ≡ read_refusal (N.nodes_of nodes.now) file.now }
{
    want_file(nodes.kind(file))
}
