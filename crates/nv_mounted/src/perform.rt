//! Which operation of the mount a request asks for.

ghost use Rattle.std.specs.Prelude.{◌≡◌};
ghost use Rattle.nv_mounted.specs.Answers.{IsAnsweredBy, answer_in_snapshot, answer_of, answering};
ghost use Rattle.nv_mounted.specs.Answers.{leads_to_snapshot, names_hidden, reaches_hidden};

use crate::found::{SNAPSHOTS_NODE, is_of_snapshots};
use crate::mount::Mount;
use crate::rename::is_same;
use crate::world::Core;
use nv_fuse::{Errno, Header, Operation, Request};
use nv_mount_answers::Time;
use nv_mount_beside::{Outcome, Refusal, agreement, node};

/// Whether a rename leads into a snapshot, where nothing changes.
fn leads_to_snapshot(operation: &Operation<'_>) -> bool
    // Other operations have no second directory.
    ensures { result ≡ leads_to_snapshot operation.now }
{
    match *operation {
        Operation::Rename { to, .. } | Operation::Rename2 { to, .. } => is_of_snapshots(to),
        _ => false,
    }
}

impl<C: Core> Mount<C> {
    /// Does what a request asks for.
    pub(crate) fn perform(&mut self, now: Time, request: &Request<'_>) -> Result<Outcome, Refusal>
        // A request is answered by its operation, as one table tells.
        ensures { IsAnsweredBy C.Tells C.HasRoom
            (answering self.old.side now request.now.header request.now.operation)
            now self.old.core self.old.side result self.new.core self.new.side }
    {
        let number = request.header.node;
        if is_of_snapshots(number) {
            return self.perform_on_snapshots(now, number, &request.operation);
        }
        if leads_to_snapshot(&request.operation) {
            return Err(Refusal::Errno(Errno::ReadOnly));
        }
        if self.reaches_hidden(number, &request.operation) {
            return Err(Refusal::Errno(Errno::Stale));
        }
        self.perform_on_node(now, &request.header, &request.operation)
    }

    /// Whether a number names the directory of hidden files, which no name leads to.
    fn names_hidden(&self, number: u64) -> bool
        // A number that names none is refused later.
        ensures { result ≡ names_hidden self.now.side number }
    {
        match node(number) {
            Ok(handle) => is_same(&handle, &self.side.hidden),
            Err(_refusal) => false,
        }
    }

    /// Whether a request is about the directory of hidden files, or renames into it.
    fn reaches_hidden(&self, number: u64, operation: &Operation<'_>) -> bool
        // What is forgotten has no answer.
        ensures { result ≡ reaches_hidden self.now.side number operation.now }
    {
        match *operation {
            Operation::Forget { .. } | Operation::ForgetMany { .. } => false,
            Operation::Rename { to, .. } | Operation::Rename2 { to, .. } => {
                self.names_hidden(number) || self.names_hidden(to)
            }
            _ => self.names_hidden(number),
        }
    }

    /// Does what a request about a node of the world asks for.
    fn perform_on_node(
        &mut self,
        now: Time,
        header: &Header,
        operation: &Operation<'_>,
    ) -> Result<Outcome, Refusal>
        // Each operation has its row.
        ensures { IsAnsweredBy C.Tells C.HasRoom
            (answer_of self.old.side now header.now operation.now)
            now self.old.core self.old.side result self.new.core self.new.side }
    {
        let number = header.node;
        match *operation {
            Operation::Init { flags, .. } => Ok(Outcome::Agreed(agreement(flags))),
            Operation::Destroy => Ok(Outcome::Done),
            Operation::Statfs => Ok(self.statfs(now)),
            Operation::Lookup { name } => self.lookup(number, name),
            Operation::Forget { .. } => Ok(Outcome::Silent),
            Operation::ForgetMany { .. } => Ok(Outcome::Silent),
            Operation::Mknod { mode, name, .. } => self.mknod(now, header, mode, name),
            Operation::Mkdir { mode, name, .. } => self.mkdir(now, header, mode, name),
            Operation::Unlink { name } => self.unlink(now, number, name),
            Operation::Rmdir { name } => self.rmdir(now, number, name),
            Operation::Rename { to, old, new } => self.rename(now, number, old, to, new, 0),
            Operation::Rename2 {
                to,
                flags,
                old,
                new,
            } => self.rename(now, number, old, to, new, flags),
            Operation::Link { .. } => Err(Refusal::Errno(Errno::NotPermitted)),
            Operation::Create { mode, name, .. } => self.create(now, header, mode, name),
            Operation::GetAttributes { .. } => self.get_attributes(number),
            Operation::SetAttributes(set) => self.set_attributes(now, number, &set),
            Operation::Open { .. } => self.open(number),
            Operation::Read { offset, size, .. } => self.read(number, offset, size),
            Operation::Write { offset, bytes, .. } => self.write(now, number, offset, bytes),
            Operation::Flush { .. } => Ok(Outcome::Done),
            Operation::Fsync { .. } => Ok(Outcome::Done),
            Operation::Release { .. } => self.release_file(now, number),
            Operation::Fallocate {
                offset,
                size,
                mode,
                ..
            } => self.fallocate(now, number, offset.checked_add(size), mode),
            Operation::OpenDirectory { .. } => self.open_directory(number),
            Operation::ReadDirectory { file, offset, size } => {
                self.read_directory(number, file, offset, size)
            }
            Operation::FsyncDirectory { .. } => Ok(Outcome::Done),
            Operation::ReleaseDirectory { file, .. } => {
                self.side.directories.close(file);
                Ok(Outcome::Done)
            }
            Operation::Malformed => Err(Refusal::Errno(Errno::Invalid)),
            Operation::Other => Err(Refusal::Errno(Errno::NotImplemented)),
        }
    }

    /// Does what a request about snapshots asks for. They are read only, except that they are made and dropped.
    fn perform_on_snapshots(
        &mut self,
        now: Time,
        number: u64,
        operation: &Operation<'_>,
    ) -> Result<Outcome, Refusal>
        // What a snapshot has is told as it was, and only snapshots are made and dropped there.
        ensures { IsAnsweredBy C.Tells C.HasRoom
            (answer_in_snapshot self.old.side number operation.now)
            now self.old.core self.old.side result self.new.core self.new.side }
    {
        match *operation {
            Operation::Statfs => Ok(self.statfs(now)),
            Operation::Lookup { name } => self.snapshot_lookup(number, name),
            Operation::Forget { .. } => Ok(Outcome::Silent),
            Operation::ForgetMany { .. } => Ok(Outcome::Silent),
            Operation::Mkdir { name, .. } if number == SNAPSHOTS_NODE => self.make_snapshot(name),
            Operation::Rmdir { name } if number == SNAPSHOTS_NODE => self.drop_snapshot(name),
            Operation::GetAttributes { .. } => self.snapshot_get_attributes(number),
            Operation::Open { .. } => self.snapshot_open(number),
            Operation::Read { offset, size, .. } => self.snapshot_read(number, offset, size),
            Operation::Flush { .. } => Ok(Outcome::Done),
            Operation::Fsync { .. } => Ok(Outcome::Done),
            Operation::Release { .. } => Ok(Outcome::Done),
            Operation::OpenDirectory { .. } if number == SNAPSHOTS_NODE => self.open_snapshots(),
            Operation::OpenDirectory { .. } => self.snapshot_open(number),
            Operation::ReadDirectory { file, offset, size } if number == SNAPSHOTS_NODE => {
                self.read_snapshots(file, offset, size)
            }
            Operation::ReadDirectory { offset, size, .. } => {
                self.snapshot_read_directory(number, offset, size)
            }
            Operation::FsyncDirectory { .. } => Ok(Outcome::Done),
            Operation::ReleaseDirectory { file, .. } if number == SNAPSHOTS_NODE => {
                self.side.directories.close(file);
                Ok(Outcome::Done)
            }
            Operation::ReleaseDirectory { .. } => Ok(Outcome::Done),
            Operation::Malformed => Err(Refusal::Errno(Errno::Invalid)),
            Operation::Other => Err(Refusal::Errno(Errno::NotImplemented)),
            _ => Err(Refusal::Errno(Errno::ReadOnly)),
        }
    }
}
