//! What a call has taken.

use crate::runs::RunList;
use nv_base::Handle;

/// What the items of a call are made with.
#[derive(Debug, Drop)]
pub struct Allocation {
    /// The handle of a new inode, where the call makes one.
    pub made: Handle,
    /// Fresh blocks for its pages, in the order in which they were taken.
    pub runs: RunList,
}
