//! The calls that change nodes.

ghost use Rattle.std.specs.Prelude.{◌≡◌, ◌+◌, ◌-◌, ◌<◌, ◌^◌, IfErr, IfOk};
ghost use Rattle.nv_base.specs.Refusals.{KeepsOnErr};
ghost use Rattle.nv_sessions.specs.Refusing.{MayRefuseChange, failed_in};
ghost use Rattle.nv_sessions.specs.Sessions.{IsChangedBy, IsCommittedBy, IsGivenBack, with_held};

use crate::locked_parts::LockedParts;
use crate::names::{Blocks, Commits};
use crate::no_text::NoText;
use crate::seen::Seen;
use crate::session::Session;
use nv_base::{Bytes, Fault, Handle, Mode};
use nv_calls::{Source, Update};
use std::sync::Wait;

impl<C: Commits, B: Blocks> Session<C, B> {
    /// Makes an empty file in a directory. `Stale`, `NotDirectory`, `BadName`, `Exists`, `NoInode`, `NoSpace`,
    /// `OutOfMemory`, `CommitLimit`.
    pub fn create<R: Wait>(
        &mut self,
        rt: &R,
        service: &LockedParts<C, B>,
        dir: Handle,
        name: Bytes,
        mode: Mode,
    ) -> Result<Seen, Fault>
        // An answer is a commit.
        ensures ok { IfOk result (IsCommittedBy C.commit self.old self.new
            (Update.Create dir name mode)) }
        ensures same { KeepsOnErr result (with_held self.new.held self.old) self.new }
        // The hand is empty afterwards, except where a list or the pool refused what is left.
        ensures held { IsGivenBack self.new.held }
        ensures err { IfErr result (MayRefuseChange (Update.Create dir name mode)) }
    {
        self.change(rt, service, Update::Create { dir, name, mode }, &mut NoText)
    }

    /// Makes an empty directory in a directory, with the errors of [`create`](Session::create).
    pub fn mkdir<R: Wait>(
        &mut self,
        rt: &R,
        service: &LockedParts<C, B>,
        dir: Handle,
        name: Bytes,
        mode: Mode,
    ) -> Result<Seen, Fault>
        ensures ok { IfOk result (IsCommittedBy C.commit self.old self.new
            (Update.Mkdir dir name mode)) }
        ensures same { KeepsOnErr result (with_held self.new.held self.old) self.new }
        ensures held { IsGivenBack self.new.held }
        ensures err { IfErr result (MayRefuseChange (Update.Mkdir dir name mode)) }
    {
        self.change(rt, service, Update::Mkdir { dir, name, mode }, &mut NoText)
    }

    /// Writes so many bytes of a source into a file from an offset in bytes on. What lies between the end and the offset
    /// becomes zeros. A write of no bytes commits nothing. `Stale`, `NotFile`, `WriteTooBig`, `FileTooBig`, `NoSpace`,
    /// `OutOfMemory`, `Read` where the source failed, `CommitLimit`.
    ///
    /// The source is asked under the lock of this file alone.
    /// Only tested: a source that fails at its k-th part refuses the write and changes no file.
    /// Only tested: its source is asked under that file's lock alone.
    pub fn write<S: Source, R: Wait>(
        &mut self,
        rt: &R,
        service: &LockedParts<C, B>,
        file: Handle,
        offset: u64,
        count: u64,
        source: &mut S,
    ) -> Result<Seen, Fault>
        requires failures { S.failed source.old < 2 ^ 64 - 1 }
        // A write of a byte or more and a rename between two places likewise.
        // Other ones are answered, and leave what the session has.
        ensures ok { IfOk result (IsChangedBy C.commit self.old self.new
            (Update.Write file offset count)) }
        ensures same { KeepsOnErr result (with_held self.new.held self.old) self.new }
        ensures held { IsGivenBack self.new.held }
        ensures err { IfErr result (MayRefuseChange (Update.Write file offset count)) }
        // On Ok no read of the source failed.
        // It is refused by `Read` only where one read failed.
        ensures reads { S.failed source.new ≡ S.failed source.old + failed_in result }
    {
        let update = Update::Write {
            file,
            offset,
            count,
        };
        self.change(rt, service, update, source)
    }

    /// Cuts a file at a size, or adds zeros up to it. `Stale`, `NotFile`, `FileTooBig`, `NoSpace`, `OutOfMemory`,
    /// `CommitLimit`.
    pub fn size<R: Wait>(
        &mut self,
        rt: &R,
        service: &LockedParts<C, B>,
        file: Handle,
        size: u64,
    ) -> Result<Seen, Fault>
        ensures ok { IfOk result (IsCommittedBy C.commit self.old self.new
            (Update.Size file size)) }
        ensures same { KeepsOnErr result (with_held self.new.held self.old) self.new }
        ensures held { IsGivenBack self.new.held }
        ensures err { IfErr result (MayRefuseChange (Update.Size file size)) }
    {
        self.change(rt, service, Update::Size { file, size }, &mut NoText)
    }

    /// Sets the mode of a node. `Stale`, `NoSpace`, `OutOfMemory`, `CommitLimit`.
    pub fn mode<R: Wait>(
        &mut self,
        rt: &R,
        service: &LockedParts<C, B>,
        handle: Handle,
        mode: Mode,
    ) -> Result<Seen, Fault>
        ensures ok { IfOk result (IsCommittedBy C.commit self.old self.new
            (Update.Mode handle mode)) }
        ensures same { KeepsOnErr result (with_held self.new.held self.old) self.new }
        ensures held { IsGivenBack self.new.held }
        ensures err { IfErr result (MayRefuseChange (Update.Mode handle mode)) }
    {
        self.change(rt, service, Update::Mode { handle, mode }, &mut NoText)
    }

    /// Takes a file's name out of a directory; the file goes. `Stale`, `NotDirectory`, `BadName`, `Missing`, `NotFile`,
    /// `NoSpace`, `OutOfMemory`, `CommitLimit`; `Contended` where other calls bound the name anew eight times.
    pub fn unlink<R: Wait>(
        &mut self,
        rt: &R,
        service: &LockedParts<C, B>,
        dir: Handle,
        name: Bytes,
    ) -> Result<Seen, Fault>
        ensures ok { IfOk result (IsCommittedBy C.commit self.old self.new
            (Update.Unlink dir name)) }
        ensures same { KeepsOnErr result (with_held self.new.held self.old) self.new }
        ensures held { IsGivenBack self.new.held }
        ensures err { IfErr result (MayRefuseChange (Update.Unlink dir name)) }
    {
        self.change(rt, service, Update::Unlink { dir, name }, &mut NoText)
    }

    /// Takes the name of an empty directory out of a directory; the empty directory goes. Its errors are those of
    /// [`unlink`](Session::unlink), with `NotDirectory` for `NotFile`, and `NotEmpty`.
    pub fn rmdir<R: Wait>(
        &mut self,
        rt: &R,
        service: &LockedParts<C, B>,
        dir: Handle,
        name: Bytes,
    ) -> Result<Seen, Fault>
        ensures ok { IfOk result (IsCommittedBy C.commit self.old self.new
            (Update.Rmdir dir name)) }
        ensures same { KeepsOnErr result (with_held self.new.held self.old) self.new }
        ensures held { IsGivenBack self.new.held }
        ensures err { IfErr result (MayRefuseChange (Update.Rmdir dir name)) }
    {
        self.change(rt, service, Update::Rmdir { dir, name }, &mut NoText)
    }

    /// Gives a node another name, in the same directory or in another; a file at the new name goes. A rename onto its own
    /// place commits nothing. Its errors are those of [`unlink`](Session::unlink), with `MoveDirectory` and `Exists` for
    /// `NotFile`.
    pub fn rename<R: Wait>(
        &mut self,
        rt: &R,
        service: &LockedParts<C, B>,
        from: Handle,
        old: Bytes,
        to: Handle,
        new: Bytes,
    ) -> Result<Seen, Fault>
        ensures ok { IfOk result (IsChangedBy C.commit self.old self.new
            (Update.Rename from old to new)) }
        ensures same { KeepsOnErr result (with_held self.new.held self.old) self.new }
        ensures held { IsGivenBack self.new.held }
        ensures err { IfErr result (MayRefuseChange (Update.Rename from old to new)) }
    {
        let update = Update::Rename { from, old, to, new };
        self.change(rt, service, update, &mut NoText)
    }
}
