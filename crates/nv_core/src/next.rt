//! The steps of a call that stand before it is ready and after its commit, and how it is to end.

use nv_base::{Fault, Ino};
use nv_book::Record;
use nv_clean::{Cleaned, Unlinkable, Wanted};
use nv_entry::Tree;
use nv_reader::Showing;
use nv_steps::Manner;

/// The step of a call that comes next, while its hand is with the actor alone. In a loop with its place: of a
/// directory, of a slot that the call locks, of how many lists were asked.
///
/// A call that is ready enters next; which step of a commit comes next, the commit tells.
#[derive(Drop)]
pub(crate) enum Next {
    Number,
    Look(usize),
    Lock(usize),
    Check,
    TakeBlocks(u64),
    TakeLogPages(u64),
    Ready,
    Unlock(usize),
    Give(u64),
    ReturnNumber,
    Visit,
    SnapshotOrCleaner(SnapshotOrCleanerStep),
}

/// A drain that goes on: how many records it has released, and how many more it may release behind the next one.
#[derive(Clone, Copy, Debug, PartialEq, Eq)]
pub(crate) struct Draining {
    pub(crate) released: u64,
    pub(crate) left: u64,
}

/// Which log is to be cleaned, and how.
#[derive(Clone, Copy, Debug, PartialEq, Eq)]
pub(crate) struct ToClean {
    pub(crate) manner: Manner,
    pub(crate) ino: Ino,
}

/// What a fast cleaning is to unlink from the log of an inode.
#[derive(Drop)]
pub(crate) struct UnlinkPlan {
    pub(crate) ino: Ino,
    pub(crate) walk: Unlinkable,
}

/// What a thorough cleaning is to leave of the log of an inode.
#[derive(Drop)]
pub(crate) struct CompactPlan {
    pub(crate) ino: Ino,
    pub(crate) walk: Wanted,
}

/// The log pages that a thorough cleaning takes first: how many lists were asked, and how many pages are still wanted.
#[derive(Drop)]
pub(crate) struct FreshPages {
    pub(crate) asked: u64,
    pub(crate) left: u64,
    pub(crate) plan: CompactPlan,
}

/// The step of a call on snapshots, or of a cleaner. It makes a snapshot, or drops one; it pins one, shows its nodes inode
/// by inode, and unpins it, with what it has seen; or it picks a deferred record, locks its inode and releases it. A
/// snapshot is given by its number.
///
/// A cleaner locks the slot of its inode and plans what goes of its log, by a walk that the later steps keep. It unlinks
/// pages, or takes fresh ones and moves to them the entries that stay. A number without a slot is planned too.
#[derive(Drop)]
pub(crate) enum SnapshotOrCleanerStep {
    Make,
    Drop(u64),
    Pin(u64),
    Show(u64, Showing),
    Unpin(u64, Tree),
    Pick(Draining),
    LockPicked(Draining, Record),
    Release(Draining, Record),
    LockCleaned(ToClean),
    PlanCleaning(Manner, Option<Ino>),
    Fresh(FreshPages),
    Unlink(UnlinkPlan),
    Compact(CompactPlan),
}

/// How a call is to end: with its answer, refused, or not yet, since a name was bound anew after the looks; a drain
/// goes on to the next record, as long as it may release more; a cleaner ends with what its cleaning took out.
#[derive(Clone, Copy, Debug, PartialEq, Eq)]
pub(crate) enum Ending {
    Answers,
    Refuses(Fault),
    BoundAnew,
    Drains(Draining),
    Cleans(Cleaned),
}
