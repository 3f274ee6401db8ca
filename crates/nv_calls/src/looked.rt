//! What calls look up before they lock.

ghost use Rattle.std.specs.Prelude.{◌≡◌};
ghost use Rattle.nv_calls.specs.AllCalls.{looked};
ghost use Rattle.nv_calls.specs.Checked.{same_found, same_looked};
ghost use Rattle.nv_calls.specs.Refusals.{found, kind_of, look, passes, want_directory, want_lawful};
ghost use Rattle.nv_calls.specs.Updates.{blank_call};

use crate::wants::{want_directory, want_lawful};
use crate::{Nodes, Update};
use nv_base::{Fault, Handle};

/// What the names of a call lead to, the first and the second, as its looks found it: none where a name is
/// not bound or the look was refused.
#[derive(Clone, Copy, Debug, PartialEq, Eq)]
pub struct LookupResult {
    pub first: Option<Handle>,
    pub second: Option<Handle>,
}

/// A look at a name: what it leads to, if anything. `Stale` or `NotDirectory` where there is no directory,
/// and `BadName`.
pub fn look<N: Nodes>(nodes: &N, dir: &Handle, name: &[u8]) -> Result<Option<Handle>, Fault>
    // A look tells what a name leads to.
    ensures { result ≡ look (N.nodes_of nodes.now) dir.now name.now }
{
    want_directory(nodes.kind(dir))?;
    want_lawful(name)?;
    Ok(nodes.lookup(dir, name))
}

/// What a look finds, nothing where it is refused.
pub fn found<N: Nodes>(nodes: &N, dir: &Handle, name: &[u8]) -> Option<Handle>
    ensures { result ≡ found (N.nodes_of nodes.now) dir.now name.now }
{
    match look(nodes, dir, name) {
        Ok(to) => to,
        Err(_) => None,
    }
}

/// What a look finds of which the tests are known to pass. Tests nothing again.
pub(crate) fn bound<N: Nodes>(nodes: &N, dir: &Handle, name: &[u8]) -> Option<Handle>
    requires { want_directory (kind_of (N.nodes_of nodes.now dir.now))
        (want_lawful name.now passes) ≡ passes }
    ensures { result ≡ found (N.nodes_of nodes.now) dir.now name.now }
{
    nodes.lookup(dir, name)
}

/// What the names of a call lead to now.
#[inline(always)]
pub fn look_all<N: Nodes>(nodes: &N, call: &Update) -> LookupResult
    // The looks of a call tell what its names lead to.
    ensures { result ≡ looked (N.nodes_of nodes.now) (blank_call call.now) }
{
    match call {
        Update::Unlink { dir, name } | Update::Rmdir { dir, name } => LookupResult {
            first: found(nodes, dir, name.as_slice()),
            second: None,
        },
        Update::Rename { from, old, to, new } => LookupResult {
            first: found(nodes, from, old.as_slice()),
            second: found(nodes, to, new.as_slice()),
        },
        _ => LookupResult {
            first: None,
            second: None,
        },
    }
}

/// Whether the names of a call still lead to what its looks found.
pub fn is_as_looked<N: Nodes>(nodes: &N, before: &LookupResult, call: &Update) -> bool
    // Whether names lead to what looks found is told.
    ensures { result
        ≡ same_looked (looked (N.nodes_of nodes.now) (blank_call call.now)) before.now }
{
    let now = look_all(nodes, call);
    is_same(now.first, before.first) && is_same(now.second, before.second)
}

fn is_same(one: Option<Handle>, other: Option<Handle>) -> bool
    ensures { result ≡ same_found one other }
{
    match (one, other) {
        (None, None) => true,
        (Some(one), Some(other)) => one.ino == other.ino && one.generation == other.generation,
        _ => false,
    }
}
