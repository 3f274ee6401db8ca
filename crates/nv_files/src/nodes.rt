//! Calls on nodes and their names.

ghost use Rattle.nv_entry.specs.Tree.{root};
ghost use Rattle.nv_files.specs.Paths.{IsLed};
ghost use Rattle.nv_files.specs.Stands.{Leads};
ghost use Rattle.nv_files.specs.Told.{IsTold, IsToldOrStarved};

use crate::answers::{Stat, names_of, stat_of};
use crate::files::Files;
use nv_base::{Fault, Handle, Mode, Name};
use nv_calls::{Answer, Call};
use nv_core::root;
use nv_entry::NameList;

impl Files {
    /// Makes an empty file in a directory.
    pub fn create(&mut self, dir: Handle, name: &[u8], mode: Mode) -> Result<Handle, Fault>
        // A `create` tells the handle that the world with numbers makes, which is new.
        // Its refusals are those of that world, in its order, or want of memory, and nothing has changed then.
        ensures { Leads
            (IsToldOrStarved (Call.Create dir name.now mode) result (λ made. Answer.Made made))
            self.old self.new }
    {
        let name = self.copy_of(name)?;
        self.find(Call::Create { dir, name, mode })
    }

    /// Makes an empty directory in a directory.
    pub fn mkdir(&mut self, dir: Handle, name: &[u8], mode: Mode) -> Result<Handle, Fault>
        // A `mkdir` tells the handle that the world with numbers makes, or is refused as there.
        ensures { Leads
            (IsToldOrStarved (Call.Mkdir dir name.now mode) result (λ made. Answer.Made made))
            self.old self.new }
    {
        let name = self.copy_of(name)?;
        self.find(Call::Mkdir { dir, name, mode })
    }

    /// Finds what a directory binds a name to.
    pub fn lookup(&mut self, dir: Handle, name: &[u8]) -> Result<Handle, Fault>
        // A `lookup` tells the handle that the name is bound to, or is refused as in the world with numbers.
        ensures { Leads (IsToldOrStarved (Call.Lookup dir name.now) result
            (λ to. Answer.Made to)) self.old self.new }
    {
        let name = self.copy_of(name)?;
        self.find(Call::Lookup { dir, name })
    }

    /// Finds the node at a path: its names are looked up one after another, from the root on.
    pub fn path(&mut self, names: &[Name]) -> Result<Handle, Fault>
        // A path tells the handle to which its names lead from the root on. It is refused `NotDirectory` below a file and
        // `Missing` at a name that nothing has, or for want of memory. Nothing changes.
        ensures { Leads (IsLed root names.now result) self.old self.new }
    {
        let mut at = root();
        for name in names {
            at = self.lookup(at, name.bytes())?;
        }
        Ok(at)
    }

    /// Lists the names of a directory in the order in which they were bound.
    pub fn list(&mut self, dir: Handle) -> Result<NameList, Fault>
        // A `list` tells the names that the world with numbers has there, or is refused as there.
        ensures { Leads (IsToldOrStarved (Call.List dir) result
            (λ names. Answer.Names names)) self.old self.new }
    {
        let answer = self.call(Call::List { dir })?;
        Ok(names_of(answer))
    }

    /// Tells a node's kind, mode, size and last commit. Takes no memory.
    pub fn stat(&mut self, handle: Handle) -> Result<Stat, Fault>
        // A `stat` tells kind, mode, size and last commit of the node in the world with numbers, or is refused as there.
        ensures { Leads (IsTold (Call.Stat handle) result
            (λ stat. Answer.Stat stat.kind stat.mode stat.size stat.commit)) self.old self.new }
    {
        let answer = self.call(Call::Stat { handle })?;
        Ok(stat_of(answer))
    }

    /// Sets the mode of a node.
    pub fn mode(&mut self, handle: Handle, mode: Mode) -> Result<(), Fault>
        // A `mode` leaves the mode as the world with numbers does, or is refused as there.
        ensures { Leads (IsToldOrStarved (Call.Mode handle mode) result
            (λ _. Answer.Nothing)) self.old self.new }
    {
        self.change(Call::Mode { handle, mode })
    }

    /// Takes a file's name out of a directory; the file goes.
    pub fn unlink(&mut self, dir: Handle, name: &[u8]) -> Result<(), Fault>
        // An `unlink` leaves what the world with numbers leaves, or is refused as there.
        ensures { Leads (IsToldOrStarved (Call.Unlink dir name.now) result
            (λ _. Answer.Nothing)) self.old self.new }
    {
        let name = self.copy_of(name)?;
        self.change(Call::Unlink { dir, name })
    }

    /// Takes the name of an empty directory out of a directory; the empty directory goes.
    pub fn rmdir(&mut self, dir: Handle, name: &[u8]) -> Result<(), Fault>
        // An `rmdir` leaves what the world with numbers leaves, or is refused as there.
        ensures { Leads (IsToldOrStarved (Call.Rmdir dir name.now) result
            (λ _. Answer.Nothing)) self.old self.new }
    {
        let name = self.copy_of(name)?;
        self.change(Call::Rmdir { dir, name })
    }

    /// Gives a node another name, in the same directory or in another. A file at the new name goes.
    pub fn rename(
        &mut self,
        from: Handle,
        name: &[u8],
        to: Handle,
        new_name: &[u8],
    ) -> Result<(), Fault>
        // A `rename` leaves what the world with numbers leaves, or is refused as there.
        ensures { Leads
            (IsToldOrStarved (Call.Rename from name.now to new_name.now) result (λ _. Answer.Nothing))
            self.old self.new }
    {
        let old = self.copy_of(name)?;
        let new = self.copy_of(new_name)?;
        self.change(Call::Rename { from, old, to, new })
    }
}
