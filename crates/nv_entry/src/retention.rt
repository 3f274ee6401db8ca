//! What keeps pairs that are no longer current.

ghost use Rattle.std.specs.Prelude.{◌<◌};

use crate::PartId;
use nv_base::Epoch;

/// What keeps pairs of a log that are no longer current: the living snapshots, in any order, and the pending
/// pairs. With it goes the size of blocks.
#[derive(Clone, Copy, Debug)]
pub struct Retention<'a> {
    /// Bytes of a block.
    pub block: u64,
    pub snapshots: &'a [Epoch],
    /// The pending pairs by name; where the counts of pages are asked, those that are killed and not yet retired too.
    pub pending: &'a [PartId],
    // A block has at least one byte.
    pub ghost has_bytes: { 0 < block },
}
