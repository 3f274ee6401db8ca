//! The calls.

use crate::SnapshotOrCleanerCall;
use nv_base::{Bytes, Handle, Mode};

/// A call, on files and directories or on snapshots. Names and texts are plain bytes: a name may be unlawful, and is
/// refused then.
#[derive(Debug, Drop)]
pub enum Call {
    /// Makes an empty file in a directory.
    Create {
        dir: Handle,
        name: Bytes,
        mode: Mode,
    },
    /// Makes an empty directory in a directory.
    Mkdir {
        dir: Handle,
        name: Bytes,
        mode: Mode,
    },
    /// Writes bytes into a file from an offset in bytes on. What lies between the end and the
    /// offset becomes zeros.
    Write {
        file: Handle,
        offset: u64,
        text: Bytes,
    },
    /// Reads at most `count` bytes of a file from an offset on, none past its end.
    Read {
        file: Handle,
        offset: u64,
        count: u64,
    },
    /// Cuts a file at a size, or adds zeros up to it.
    Size {
        file: Handle,
        size: u64,
    },
    /// Sets the mode of a node.
    Mode {
        handle: Handle,
        mode: Mode,
    },
    /// Asks for a node's kind, mode, size and last commit.
    Stat {
        handle: Handle,
    },
    /// Asks for the names of a directory in order.
    List {
        dir: Handle,
    },
    /// Asks for the handle that a directory binds a name to.
    Lookup {
        dir: Handle,
        name: Bytes,
    },
    /// Takes a file's name out of a directory; the file goes.
    Unlink {
        dir: Handle,
        name: Bytes,
    },
    /// Takes the name of an empty directory out of a directory; the empty directory goes.
    Rmdir {
        dir: Handle,
        name: Bytes,
    },
    /// Gives a node another name, in the same directory or in another. A file at the new name goes.
    Rename {
        from: Handle,
        old: Bytes,
        to: Handle,
        new: Bytes,
    },
    SnapshotOrCleaner(SnapshotOrCleanerCall),
}
