//! Taking an empty directory out of a directory.

ghost use Rattle.std.specs.Prelude.{◌≡◌};
ghost use Rattle.nv_calls.specs.calls.Rmdir.{rmdir_late};

use crate::Nodes;
use crate::wants::{refuse_if, want_bound, want_directory};
use nv_base::{Fault, Handle};

/// Why an rmdir is refused, by what the name leads to.
pub fn check_late<N: Nodes>(nodes: &N, bound: Option<Handle>) -> Result<(), Fault>
    // `rmdir` is refused by its first test that fails.
    ensures { result ≡ rmdir_late (N.nodes_of nodes.now) bound }
{
    let to = want_bound(bound)?;
    want_directory(nodes.kind(&to))?;
    refuse_if(nodes.names(&to) > 0, Fault::NotEmpty)
}
