//! Snapshots as directories: each directory that is made in `/.snapshots` is a snapshot of all, to be read and not
//! changed.

ghost use Rattle.std.specs.Prelude.{◌≡◌, Ok};
ghost use Rattle.nv_mount_beside.specs.Memory.{IsOrNoMemory};
ghost use Rattle.nv_mounted.specs.Dialogues.{IsHad};
ghost use Rattle.nv_mounted.specs.Side.{Does};
ghost use Rattle.nv_mounted.specs.Listings.{open_one};
ghost use Rattle.nv_mounted.specs.Snapshots.{drain, drop_snapshot, list_snapshots, make_snapshot, read_snapshots, snapshot_attributes};
ghost use Rattle.nv_mounted.specs.Snapshots.{snapshot_child, snapshot_get_attributes, snapshot_lookup, snapshot_open, snapshot_read};
ghost use Rattle.nv_mounted.specs.Snapshots.{snapshot_read_directory, snapshots_attributes};

use crate::directories::contents;
use crate::found::{SNAPSHOTS_NODE, number_in};
use crate::listing::listed;
use crate::mount::{Mount, root};
use crate::snapshots::drop_snapshot;
use crate::world::Core;
use nv_base::limits::DRAIN;
use nv_base::{Kind, Mode};
use nv_calls::{Call, SnapshotOrCleanerCall};
use nv_fuse::{Attributes, Errno, OpenFile};
use nv_mount_answers::Shape;
use nv_mount_beside::{Outcome, Refusal, attributes, entry, opened_file};

impl<C: Core> Mount<C> {
    /// The attributes of the directory of snapshots.
    pub(crate) fn snapshots_attributes(&self) -> Result<Attributes, Refusal>
        // It is a directory that all may read, with the root's times and owner.
        ensures { result ≡ snapshots_attributes self.now.side }
    {
        let shape = Shape {
            kind: Kind::Dir,
            mode: Mode::checked(0o755).unwrap(),
            size: 0,
        };
        attributes(SNAPSHOTS_NODE, shape, self.side.at(&root()).kept, false)
    }

    /// The attributes of a node of a snapshot.
    fn snapshot_attributes(&self, number: u64) -> Result<Attributes, Refusal>
        // They are those that it had when the snapshot was made, without set-user-id and set-group-id.
        ensures { result ≡ snapshot_attributes self.now.side number }
    {
        if number == SNAPSHOTS_NODE {
            return self.snapshots_attributes();
        }
        let found = self.side.snapshots.node(number)?;
        found.attributes(number)
    }

    /// The number of the node of a snapshot, or of the snapshot, with a name.
    fn snapshot_child(&self, number: u64, name: &[u8]) -> Result<u64, Refusal>
        // The directory of snapshots has their names, and a directory of one those that it had.
        ensures { result ≡ snapshot_child self.now.side number name.now }
    {
        if number == SNAPSHOTS_NODE {
            let at = self.side.snapshots.named(name)?;
            return number_in(at as u64, 0);
        }
        let found = self.side.snapshots.node(number)?;
        found.child(name)
    }

    /// The node of a snapshot, or the snapshot, with a name.
    pub(crate) fn snapshot_lookup(&self, number: u64, name: &[u8]) -> Result<Outcome, Refusal>
        // Its number leads to its attributes.
        ensures { result ≡ snapshot_lookup self.now.side number name.now }
    {
        let child = self.snapshot_child(number, name)?;
        Ok(Outcome::Found(entry(self.snapshot_attributes(child)?)))
    }

    pub(crate) fn snapshot_get_attributes(&self, number: u64) -> Result<Outcome, Refusal>
        // They are those that it had when the snapshot was made.
        ensures { result ≡ snapshot_get_attributes self.now.side number }
    {
        Ok(Outcome::Node(self.snapshot_attributes(number)?))
    }

    /// Opens a file of a snapshot.
    pub(crate) fn snapshot_open(&self, number: u64) -> Result<Outcome, Refusal>
        // Nothing is counted.
        ensures { result ≡ snapshot_open self.now.side number }
    {
        self.snapshot_attributes(number)?;
        Ok(Outcome::Opened(opened_file()))
    }

    pub(crate) fn snapshot_read(
        &self,
        number: u64,
        offset: u64,
        size: u32,
    ) -> Result<Outcome, Refusal>
        // The bytes are those that the file had when the snapshot was made.
        ensures { IsOrNoMemory result (snapshot_read self.now.side number offset size) }
    {
        let found = self.side.snapshots.node(number)?;
        Ok(Outcome::Contents(found.bytes(self.alloc, offset, size)?))
    }

    /// Lists names of a directory of a snapshot from an offset on.
    pub(crate) fn snapshot_read_directory(
        &self,
        number: u64,
        offset: u64,
        room: u32,
    ) -> Result<Outcome, Refusal>
        // The names are those that the directory had when the snapshot was made.
        ensures { IsOrNoMemory result (snapshot_read_directory self.now.side number offset room) }
    {
        let found = self.side.snapshots.node(number)?;
        let names = found.names(self.alloc)?;
        contents(self.alloc, names.as_slice(), offset, room)
    }

    /// Opens the directory of snapshots.
    pub(crate) fn open_snapshots(&mut self) -> Result<Outcome, Refusal>
        // A directory is open once more, under the lowest free number.
        ensures { Does C.Tells (open_one self.old.side) self.old.core self.old.side result
            self.new.core self.new.side }
    {
        let file = self.side.directories.open()?;
        Ok(Outcome::Opened(OpenFile { file, flags: 0 }))
    }

    /// Lists snapshots from an offset on: those that had a name when the open directory was read from its beginning.
    pub(crate) fn read_snapshots(
        &mut self,
        file: u64,
        offset: u64,
        room: u32,
    ) -> Result<Outcome, Refusal>
        // The names are those that were read last from the beginning.
        ensures { Does C.Tells (read_snapshots self.old.side file offset room) self.old.core
            self.old.side result self.new.core self.new.side }
    {
        if !self.side.directories.is_open(file) {
            return Err(Refusal::Errno(Errno::Stale));
        }
        if offset == 0 {
            return self.list_snapshots(file, offset, room);
        }
        match self.side.directories.names(file) {
            Some(names) => contents(self.alloc, names, offset, room),
            None => self.list_snapshots(file, offset, room),
        }
    }

    /// Reads the names of the snapshots, keeps them, and lists them from an offset on.
    fn list_snapshots(&mut self, file: u64, offset: u64, room: u32) -> Result<Outcome, Refusal>
        // The names are kept where they are listed.
        ensures { Does C.Tells (list_snapshots self.old.side file offset room) self.old.core
            self.old.side result self.new.core self.new.side }
    {
        let names = self.side.snapshots.names(self.alloc)?;
        let contents = listed(self.alloc, names.as_slice(), offset, room)?;
        self.side.directories.set(file, names);
        Ok(Outcome::Contents(contents))
    }

    /// Makes a snapshot with a name, reads its tree, and keeps owners and times of its nodes.
    pub(crate) fn make_snapshot(&mut self, name: &[u8]) -> Result<Outcome, Refusal>
        // The world makes it, and it stands behind all others with its name.
        ensures { Does C.Tells (make_snapshot self.old.side name.now) self.old.core self.old.side
            result self.new.core self.new.side }
    {
        let snapshots = &mut self.side.snapshots;
        let attributes = snapshots.make(&mut self.core, self.alloc, &self.side.nodes, name)?;
        Ok(Outcome::Found(entry(attributes)))
    }

    /// Drops the snapshot with a name, and drains what it held.
    pub(crate) fn drop_snapshot(&mut self, name: &[u8]) -> Result<Outcome, Refusal>
        // The world drops the one with this name, which has none then.
        ensures { Does C.Tells (drop_snapshot self.old.side name.now) self.old.core self.old.side
            result self.new.core self.new.side }
    {
        let at = self.side.snapshots.named(name)?;
        let epoch = self.side.snapshots.epoch(at)?;
        drop_snapshot(&mut self.core, epoch)?;
        self.side.snapshots.remove(at);
        drain(&mut self.core);
        Ok(Outcome::Done)
    }
}

/// Releases what no snapshot holds any more. A refused drain changes nothing, and the next one releases it.
fn drain<C: Core>(core: &mut C)
    // One call is made, whatever its answer.
    ensures { IsHad C.Tells drain core.old (Ok tt) core.new }
{
    let _released = core.call(Call::SnapshotOrCleaner(SnapshotOrCleanerCall::Drain(DRAIN)));
}
