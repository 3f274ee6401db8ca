//! What an inode tells of itself.

use nv_base::{CommitNo, Kind, Mode};

/// What an inode tells of itself.
#[derive(Clone, Copy, Debug, PartialEq, Eq)]
pub struct Stat {
    pub kind: Kind,
    pub mode: Mode,
    /// Bytes of a file; 0 for a directory, whose log has no Write and no SetSize.
    pub size: u64,
    /// The last commit that changed it.
    pub commit: CommitNo,
}
