//! The counts of a log page, from scratch.

ghost use Rattle.std.specs.Prelude.{◌≡◌, ◌<◌, ◌≤◌, length};
ghost use Rattle.nv_entry.specs.Counts.{is_entry_kept, is_live, live_of, valid_of};
ghost use Rattle.nv_entry.specs.Held.{retention_of};

use crate::{Entry, Retention, is_kept};

/// How many of the first `count` entries have a current pair, where `log` is the log from a page's first
/// entry on and the page has `count` entries.
pub fn live(block: u64, log: &[Entry], count: usize) -> usize
    requires size { 0 < block }
    requires page { count ≤ length log.now }
    // The `live` count of a log page is that from scratch.
    ensures { result ≡ live_of block count log.now }
{
    let current = Retention {
        block,
        snapshots: &[],
        pending: &[],
    };
    valid(&current, log, count)
}

/// How many of them have a pair that is current, held by a living snapshot, or pending.
pub fn valid(retention: &Retention<'_>, log: &[Entry], count: usize) -> usize
    requires { count ≤ length log.now }
    // The `valid` count of a log page is that from scratch.
    ensures { result ≡ valid_of (retention_of retention.now) count log.now }
{
    let mut kept = 0;
    for i in 0..count {
        if is_kept(retention, &log[i], &log[i + 1..]) {
            kept += 1;
        }
    }
    kept
}
