//! Requests about a node: look-up, attributes, opening and release.

ghost use Rattle.std.specs.Prelude.{◌≡◌};
ghost use Rattle.nv_mounted.specs.Dialogues.{IsHad};
ghost use Rattle.nv_mounted.specs.Entries.{is_hidden, is_snapshots, lookup};
ghost use Rattle.nv_mounted.specs.Side.{Does};
ghost use Rattle.nv_mounted.specs.Talks.{get_attributes, lookup_name, open_node};

use crate::asks::{ask_handle, ask_shape};
use crate::mount::Mount;
use crate::shown::ask_attributes;
use crate::world::Core;
use nv_base::Handle;
use nv_calls::Call;
use nv_fuse::Errno;
use nv_mount_beside::{
    HIDDEN, Outcome, Refusal, SNAPSHOTS, copied, entry, is_root, node, opened_file,
};

/// Whether a name is that of the directory of snapshots.
fn is_snapshots(dir: &Handle, name: &[u8]) -> bool
    ensures { result ≡ is_snapshots dir.now name.now }
{
    is_root(dir) && name == SNAPSHOTS
}

/// Whether a name is that of the directory of hidden files.
fn is_hidden(dir: &Handle, name: &[u8]) -> bool
    ensures { result ≡ is_hidden dir.now name.now }
{
    is_root(dir) && name == HIDDEN
}

impl<C: Core> Mount<C> {
    /// The node with a name of a directory.
    pub(crate) fn lookup(&mut self, dir: u64, name: &[u8]) -> Result<Outcome, Refusal>
        // In the root the directory of snapshots is found, and that of hidden files is not.
        ensures had { IsHad C.Tells (lookup self.old.side dir name.now)
            self.old.core result self.new.core }
        ensures side { self.new.side ≡ self.old.side }
    {
        let dir = node(dir)?;
        if is_snapshots(&dir, name) {
            let attributes = self.snapshots_attributes()?;
            return Ok(Outcome::Found(entry(attributes)));
        }
        if is_hidden(&dir, name) {
            return Err(Refusal::Errno(Errno::Missing));
        }
        self.lookup_name(&dir, name)
    }

    /// The node with a name that is not the mount's.
    fn lookup_name(&mut self, dir: &Handle, name: &[u8]) -> Result<Outcome, Refusal>
        // A look-up tells the node, and a stat its attributes.
        ensures had { IsHad C.Tells (lookup_name self.old.side dir.now name.now)
            self.old.core result self.new.core }
        ensures side { self.new.side ≡ self.old.side }
    {
        let name = copied(self.alloc, name)?;
        let handle = ask_handle(&mut self.core, Call::Lookup { dir: *dir, name })?;
        let attributes = ask_attributes(&mut self.core, &self.side, &handle)?;
        Ok(Outcome::Found(entry(attributes)))
    }

    /// The attributes of a node.
    pub(crate) fn get_attributes(&mut self, number: u64) -> Result<Outcome, Refusal>
        // A stat tells them.
        ensures had { IsHad C.Tells (get_attributes self.old.side number)
            self.old.core result self.new.core }
        ensures side { self.new.side ≡ self.old.side }
    {
        let handle = node(number)?;
        let attributes = ask_attributes(&mut self.core, &self.side, &handle)?;
        Ok(Outcome::Node(attributes))
    }

    /// Opens a file.
    pub(crate) fn open(&mut self, number: u64) -> Result<Outcome, Refusal>
        // Where the node is there, it is open once more.
        ensures { Does C.Tells (open_node self.old.side number) self.old.core self.old.side result
            self.new.core self.new.side }
    {
        let handle = node(number)?;
        ask_shape(&mut self.core, &handle)?;
        let beside = self.side.at(&handle).opened();
        self.side.put(&handle, beside);
        Ok(Outcome::Opened(opened_file()))
    }
}
