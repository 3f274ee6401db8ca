//! How the check of a call ends it, before it takes any block.

ghost use Rattle.std.specs.Prelude.{◌≡◌, ◌<◌, ◌≤◌, IfOk};
ghost use Rattle.std.specs.Result.{result_err};
ghost use Rattle.nv_base.specs.declared.limits.TheConstants.{BLOCK_BYTES};
ghost use Rattle.nv_calls.specs.Checked.{ends_over};
ghost use Rattle.nv_calls.specs.Prepared.{makes};
ghost use Rattle.nv_calls.specs.Updates.{blocks_taken};

use crate::looked::is_as_looked;
use crate::planning::is_nothing;
use crate::refusal::{check_early, check_late};
use crate::{LookupResult, Nodes, Update};
use nv_base::Fault;

/// How a check ends a call: it is refused, or it looks again, since a name leads elsewhere than its look found, or it
/// is answered, since it commits nothing.
#[derive(Clone, Copy, Debug, PartialEq, Eq)]
pub enum CheckEnd {
    Refuses(Fault),
    BoundAnew,
    Answers,
}

/// How the check ends a call, or how many blocks the call takes for its pages where it goes on. It is given what the
/// looks of the call found, and whether it has a number for a new inode.
///
/// The tests have one order: those that stand before the names are compared with what the looks found, then the names,
/// then the other tests, then whether a call that makes an inode has a number, and last whether there is anything to
/// commit. Costs a few look-ups of handles, names and a page. Takes no memory.
/// Names are compared with what the looks found behind the early tests alone.
/// A call of which a name was bound anew goes no further.
/// A call that commits nothing is answered behind all tests.
pub fn ends_at_check<N: Nodes>(
    block: u64,
    nodes: &N,
    before: &LookupResult,
    update: &Update,
    has_number: bool,
) -> Result<u64, CheckEnd>
    requires some_bytes { 0 < block }
    requires few_bytes { block ≤ BLOCK_BYTES }
    // Want of a number refuses behind all other tests.
    ensures ends { result_err result
        ≡ ends_over block (N.nodes_of nodes.now) before.now has_number update.now }
    // Of a call that goes on it is told how many blocks it takes for its pages.
    ensures wanted { IfOk result (λ n. n
        ≡ blocks_taken block (N.nodes_of nodes.now) (N.has_page nodes.now) update.now) }
{
    check_early(nodes, update).map_err(CheckEnd::Refuses)?;
    if !is_as_looked(nodes, before, update) {
        return Err(CheckEnd::BoundAnew);
    }
    let wanted = check_late(block, nodes, before, update).map_err(CheckEnd::Refuses)?;
    if !has_number && makes_inode(update) {
        return Err(CheckEnd::Refuses(Fault::NoInode));
    }
    if is_nothing(update) {
        return Err(CheckEnd::Answers);
    }
    Ok(wanted)
}

fn makes_inode(update: &Update) -> bool
    ensures { result ≡ makes update.now }
{
    matches!(update, Update::Create { .. } | Update::Mkdir { .. })
}
