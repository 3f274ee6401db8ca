//! The snapshots that have a name.

ghost use Rattle.std.specs.Prelude.{◌≡◌, [], Err, None, OnErr, is_ok, length, slice_index_or, slice_set};
ghost use Rattle.nv_mount_beside.specs.Memory.{IsOrNoMemory};
ghost use Rattle.nv_mounted.specs.Dialogues.{IsHad, undo, undoing};
ghost use Rattle.nv_mounted.specs.KeptTrees.{ask_kept_tree};
ghost use Rattle.nv_mounted.specs.Side.{with_side};
ghost use Rattle.nv_mounted.specs.Snapshots.{ask_snapshot, drop_epoch, epoch_of, has_name, making, named_snapshots};
ghost use Rattle.nv_mounted.specs.Snapshots.{node_in, place_named, plain_result};

use crate::asks::ask_done;
use crate::found::{Found, NODES, found_at, number_in};
use crate::kept_tree::{KeptTree, ask_kept_tree};
use crate::listing::{Listing, Named};
use crate::world::Core;
use nv_base::{Bytes, Epoch};
use nv_calls::{Answer, Call, SnapshotOrCleanerCall};
use nv_fuse::{Attributes, Errno, ListedKind};
use nv_mount_beside::{FIRST, Nodes, Refusal, copied};
use std::alloc::Global;
use std::marker::Model;

/// A snapshot with its name.
#[derive(Debug, Drop)]
pub struct Snapshot {
    pub name: Bytes,
    pub epoch: Epoch,
    /// Its nodes as they stood when it was made.
    pub all: KeptTree,
}

/// The snapshots that have a name, by the order in which they were made, and where one was dropped nothing.
#[derive(Debug, Drop)]
pub struct Snapshots {
    rows: Vec<Option<Snapshot>>,
}

impl Model for Snapshots {
    ghost use Rattle.std.specs.Prelude.{List, Option};
    ghost use Rattle.nv_mounted.specs.declared.snapshots.Snapshot.{Snapshot as SnapshotValue};

    ghost Value = { List (Option SnapshotValue) };

    ghost view = { λ s. s.rows.items };
}

/// Whether a snapshot stands at a place and has a name.
fn has_name(row: &Option<Snapshot>, name: &[u8]) -> bool
    ensures { result ≡ has_name name.now row.now }
{
    match row {
        Some(there) => there.name.as_slice() == name,
        None => false,
    }
}

impl Snapshots {
    pub(crate) fn new(alloc: Global) -> Snapshots
        // At first no snapshot has a name.
        ensures { result ≡ [] }
    {
        Snapshots {
            rows: Vec::new(alloc),
        }
    }

    /// The place of the snapshot with a name.
    pub(crate) fn named(&self, name: &[u8]) -> Result<usize, Refusal>
        // It is the first with this name.
        ensures { result ≡ place_named name.now self.now }
    {
        for at in 0..self.rows.len() {
            if has_name(&self.rows[at], name) {
                return Ok(at);
            }
        }
        Err(Refusal::Errno(Errno::Missing))
    }

    /// Whether a snapshot has a name.
    fn has(&self, name: &[u8]) -> bool
        ensures { result ≡ is_ok (place_named name.now self.now) }
    {
        self.named(name).is_ok()
    }

    /// How many places there are.
    fn count(&self) -> u64
        ensures { result ≡ length self.now }
    {
        self.rows.len() as u64
    }

    /// The epoch of the snapshot at a place.
    pub(crate) fn epoch(&self, at: usize) -> Result<Epoch, Refusal>
        // A place where none stands has none.
        ensures { result ≡ epoch_of (slice_index_or self.now at None) }
    {
        if at < self.rows.len() {
            if let Some(there) = &self.rows[at] {
                return Ok(there.epoch);
            }
        }
        Err(Refusal::Errno(Errno::Missing))
    }

    /// The snapshot at a place has no name from now on.
    pub(crate) fn remove(&mut self, at: usize)
        // Nothing stands at its place then.
        ensures { self.new ≡ slice_set self.old at None }
    {
        if at < self.rows.len() {
            self.rows[at] = None;
        }
    }

    /// The node of a snapshot with a number.
    pub(crate) fn node(&self, number: u64) -> Result<Found<'_>, Refusal>
        // The number tells the snapshot and the place in its tree.
        ensures { plain_result result ≡ node_in self.now number }
    {
        let number = number.saturating_sub(FIRST);
        let (snapshot, at) = (number / NODES, (number % NODES) as usize);
        if snapshot < self.rows.len() as u64 {
            if let Some(there) = &self.rows[snapshot as usize] {
                return found_at(snapshot, at, &there.all);
            }
        }
        Err(Refusal::Errno(Errno::Stale))
    }

    /// The names of the snapshots.
    pub(crate) fn names(&self, alloc: Global) -> Result<Listing, Refusal>
        // They are told in the order in which they were made, each with the number of its root.
        ensures { IsOrNoMemory result (named_snapshots 0 self.now) }
    {
        let mut names = Vec::new(alloc);
        for at in 0..self.rows.len() {
            if let Some(there) = &self.rows[at] {
                names.push(Named {
                    node: number_in(at as u64, 0)?,
                    kind: ListedKind::Directory,
                    name: Bytes::from_vec(there.name.as_slice().to_vec(alloc)?),
                })?;
            }
        }
        Ok(Listing::from_vec(names))
    }

    /// Makes a snapshot with a name, reads its tree, and keeps what stands beside the world of its nodes. Tells the
    /// attributes of its root.
    pub(crate) fn make<C: Core>(
        &mut self,
        core: &mut C,
        alloc: Global,
        nodes: &Nodes,
        file: &[u8],
    ) -> Result<Attributes, Refusal>
        // It stands behind all others with its name then.
        ensures had { IsHad C.Tells (making self.old nodes.now file.now) core.old
            (with_side self.new result) core.new }
        // Where it is refused none has a name that had none before.
        ensures err { OnErr result (self.new ≡ self.old) }
    {
        if self.has(file) {
            return Err(Refusal::Errno(Errno::Exists));
        }
        let name = copied(alloc, file)?;
        let at = self.count();
        let number = number_in(at, 0)?;
        self.rows.reserve(1)?;
        let epoch = ask_snapshot(core)?;
        let all = keep_or_drop(core, alloc, nodes, epoch)?;
        let root = found_at(at, 0, &all)?;
        let attributes = root.attributes(number)?;
        self.rows.push(Some(Snapshot { name, epoch, all }))?;
        Ok(attributes)
    }
}

/// Makes a snapshot.
fn ask_snapshot<C: Core>(core: &mut C) -> Result<Epoch, Refusal>
    // One call makes it.
    ensures { IsHad C.Tells ask_snapshot core.old result core.new }
{
    match core.call(Call::SnapshotOrCleaner(SnapshotOrCleanerCall::Snap))? {
        Answer::Snapshot(epoch) => Ok(epoch),
        _ => Err(Refusal::Errno(Errno::InputOutput)),
    }
}

/// The tree of a snapshot, and what is kept of its nodes. Where either is refused, the snapshot is dropped.
fn keep_or_drop<C: Core>(
    core: &mut C,
    alloc: Global,
    nodes: &Nodes,
    epoch: Epoch,
) -> Result<KeptTree, Refusal>
    // Nothing is left of a snapshot that is refused so.
    ensures { IsHad C.Tells (undoing (drop_epoch epoch) (ask_kept_tree nodes.now epoch)) core.old
        result core.new }
{
    match ask_kept_tree(core, alloc, nodes, epoch) {
        Ok(all) => Ok(all),
        Err(refusal) => drop_refused(core, epoch, refusal),
    }
}

/// Drops a snapshot for whose nodes a refusal was told.
fn drop_refused<C: Core>(core: &mut C, epoch: Epoch, refusal: Refusal) -> Result<KeptTree, Refusal>
    // The refusal is told where the snapshot was dropped.
    ensures { IsHad C.Tells (undo (drop_epoch epoch) refusal) core.old result core.new }
{
    drop_snapshot(core, epoch)?;
    Err(refusal)
}

/// Drops a snapshot.
pub(crate) fn drop_snapshot<C: Core>(core: &mut C, epoch: Epoch) -> Result<(), Refusal>
    // One call drops it.
    ensures { IsHad C.Tells (drop_epoch epoch) core.old result core.new }
{
    ask_done(
        core,
        Call::SnapshotOrCleaner(SnapshotOrCleanerCall::Drop(epoch)),
    )
}
