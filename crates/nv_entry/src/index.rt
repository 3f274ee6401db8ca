//! The index of a file, from scratch.

use nv_base::{BlockNo, EntryId};

/// Where a page of a file stands: the entry that set it, and its block.
#[derive(Clone, Copy, Debug, PartialEq, Eq)]
pub struct PageSource {
    pub entry: EntryId,
    pub block: BlockNo,
}
