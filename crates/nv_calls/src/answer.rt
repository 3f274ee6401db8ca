//! What calls are answered.

use nv_base::{Bytes, CommitNo, Epoch, Handle, Kind, Mode};
use nv_entry::{NameList, Tree};

/// What a call is answered.
#[derive(Debug, Drop)]
pub enum Answer {
    /// The new inode, or the one that a name is bound to.
    Made(Handle),
    /// How many bytes were written, or how many records released.
    Count(u64),
    Nothing,
    Bytes(Bytes),
    /// A node's kind, mode, size in bytes (0 for a directory), and the commit that changed it last.
    Stat {
        kind: Kind,
        mode: Mode,
        size: u64,
        commit: CommitNo,
    },
    Names(NameList),
    /// The snapshot that was made.
    Snapshot(Epoch),
    /// The tree of a snapshot.
    Tree(Tree),
    /// Which cleaning was made of a log, and how many entries and pages the log lost.
    Cleaned {
        thorough: bool,
        entries: usize,
        pages: usize,
    },
}
