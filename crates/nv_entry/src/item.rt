//! The entries of a log.

ghost use Rattle.std.specs.Prelude.{◌+◌, ◌<◌, ◌^◌};

use nv_base::{BlockNo, EntryId, Epoch, Handle, Kind, Mode, Name};

/// Consecutive blocks: `len` of them from `start` on.
#[derive(Clone, Copy, Debug, PartialEq, Eq)]
pub struct BlockRun {
    pub start: BlockNo,
    pub len: u32,
    // The number past the last block of a block run is below 2^64.
    pub ghost in_range: { start + len < 2 ^ 64 },
}

/// What an entry says of its inode.
#[derive(Debug, Drop)]
pub enum Item {
    /// The inode begins, with no bytes or names.
    Init {
        kind: Kind,
        mode: Mode,
    },
    /// The pages from `first` on stand in the blocks of the run, one page a block; the file has `size`
    /// bytes.
    Write {
        first: u32,
        run: BlockRun,
        size: u64,
    },
    /// The file has `size` bytes; pages past them are absent.
    SetSize {
        size: u64,
    },
    /// The inode has another mode.
    SetMode {
        mode: Mode,
    },
    /// The directory binds the name to another inode.
    Bind {
        name: Name,
        to: Handle,
    },
    /// The directory no longer has the name.
    Unbind {
        name: Name,
    },
    /// The inode is gone.
    Gone,
}

/// An entry of an inode's log. Along one log ids rise and epochs never fall.
#[derive(Debug, Drop)]
pub struct Entry {
    pub id: EntryId,
    pub epoch: Epoch,
    pub item: Item,
}
