//! Looking a name up.

ghost use Rattle.std.specs.Prelude.{◌≡◌};
ghost use Rattle.nv_calls.specs.calls.Lookup.{lookup_refusal};

use crate::Nodes;
use crate::wants::{want_bound, want_directory, want_lawful};
use nv_base::{Fault, Handle};

/// Why a lookup is refused.
pub fn check<N: Nodes>(nodes: &N, dir: &Handle, name: &[u8]) -> Result<(), Fault>
    // `lookup` is refused by its first test that fails.
    ensures { result ≡ lookup_refusal (N.nodes_of nodes.now) dir.now name.now }
{
    want_directory(nodes.kind(dir))?;
    want_lawful(name)?;
    want_bound(nodes.lookup(dir, name))?;
    Ok(())
}
