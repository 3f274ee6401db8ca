//! Calls that are given as values.

ghost use Rattle.std.specs.Prelude.{◌≡◌, IfErr, IfOk, OnOk};
ghost use Rattle.nv_base.specs.Refusals.{KeepsOnErr};
ghost use Rattle.nv_sessions.specs.ByValue.{IsAnswerTo, IsMadeAs, after_snapshot_or_cleaner};
ghost use Rattle.nv_sessions.specs.Refusing.{MayRefuse, MayRefuseSnapshotOrCleaner};
ghost use Rattle.nv_sessions.specs.Sessions.{IsGivenBack, with_held};

use crate::locked_parts::LockedParts;
use crate::names::{Blocks, Commits};
use crate::seen::Seen;
use crate::session::Session;
use nv_base::Fault;
use nv_calls::{Call, SnapshotOrCleanerCall};
use nv_parts::Text;
use std::sync::Wait;

impl<C: Commits, B: Blocks> Session<C, B> {
    /// Makes a call that is given as a value, with the answer and the errors of the method of its name.
    pub fn call<R: Wait>(
        &mut self,
        rt: &R,
        service: &LockedParts<C, B>,
        call: Call,
    ) -> Result<Seen, Fault>
        // A call as a value leaves what the method of its name leaves.
        // A call on snapshots or of a cleaner is answered by its kind.
        ensures ok { IfOk result (IsMadeAs C.commit C.opened self.old self.new call) }
        ensures same { KeepsOnErr result (with_held self.new.held self.old) self.new }
        // The hand is empty afterwards, except where a list or the pool refused what is left.
        ensures held { IsGivenBack self.new.held }
        // It is refused as that method is.
        ensures err { IfErr result (MayRefuse call) }
    {
        match call {
            Call::Create { dir, name, mode } => self.create(rt, service, dir, name, mode),
            Call::Mkdir { dir, name, mode } => self.mkdir(rt, service, dir, name, mode),
            Call::Write { file, offset, text } => {
                let bytes = text.as_slice();
                let count = bytes.len() as u64;
                self.write(rt, service, file, offset, count, &mut Text { bytes })
            }
            Call::Read {
                file,
                offset,
                count,
            } => self.read(rt, service, file, offset, count),
            Call::Size { file, size } => self.size(rt, service, file, size),
            Call::Mode { handle, mode } => self.mode(rt, service, handle, mode),
            Call::Stat { handle } => self.stat(rt, service, handle),
            Call::List { dir } => self.list(rt, service, dir),
            Call::Lookup { dir, name } => self.lookup(rt, service, dir, name),
            Call::Unlink { dir, name } => self.unlink(rt, service, dir, name),
            Call::Rmdir { dir, name } => self.rmdir(rt, service, dir, name),
            Call::Rename { from, old, to, new } => self.rename(rt, service, from, old, to, new),
            Call::SnapshotOrCleaner(call) => self.maintain(rt, service, call),
        }
    }

    /// Makes a call on snapshots, or a cleaner, that is given as a value, with the answer and the errors of the
    /// method of its name.
    fn maintain<R: Wait>(
        &mut self,
        rt: &R,
        service: &LockedParts<C, B>,
        call: SnapshotOrCleanerCall,
    ) -> Result<Seen, Fault>
        ensures other { IfOk result (IsAnswerTo call) }
        ensures left { OnOk result
            (self.new ≡ after_snapshot_or_cleaner call self.new.held self.old) }
        ensures same { KeepsOnErr result (with_held self.new.held self.old) self.new }
        ensures held { IsGivenBack self.new.held }
        ensures err { IfErr result (MayRefuseSnapshotOrCleaner call) }
    {
        match call {
            SnapshotOrCleanerCall::Snap => self.snap(rt, service),
            SnapshotOrCleanerCall::Drop(snapshot) => self.drop_snap(rt, service, snapshot),
            SnapshotOrCleanerCall::Show(snapshot) => self.show(rt, service, snapshot),
            SnapshotOrCleanerCall::Drain(number) => self.drain(rt, service, number),
            SnapshotOrCleanerCall::Fast(ino) => self.fast(rt, service, ino),
            SnapshotOrCleanerCall::Thorough(ino) => self.thorough(rt, service, ino),
            SnapshotOrCleanerCall::Auto(ino) => self.auto(rt, service, ino),
        }
    }
}
