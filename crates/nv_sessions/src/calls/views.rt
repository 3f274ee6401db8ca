//! The calls that read one node.

ghost use Rattle.std.specs.Prelude.{IfErr, IfOk};
ghost use Rattle.nv_base.specs.Refusals.{KeepsOnErr};
ghost use Rattle.nv_machine.specs.World.{empty_hand};
ghost use Rattle.nv_sessions.specs.Refusing.{MayRefuseView};
ghost use Rattle.nv_sessions.specs.RunCalls.{IsReadRun, told_as, viewing};
ghost use Rattle.nv_sessions.specs.SessionRuns.{IsSessionRun};
ghost use Rattle.nv_sessions.specs.Sessions.{IsGivenBack, IsViewedBy};

use crate::locked_parts::LockedParts;
use crate::names::{Blocks, Commits};
use crate::seen::Seen;
use crate::session::Session;
use crate::view_guards::hold_view;
use nv_base::{Bytes, Fault, Handle};
use nv_calls::{Call, list_on, lookup_on, read_on, stat_on};
use std::sync::Wait;

impl<C: Commits, B: Blocks> Session<C, B> {
    /// Reads at most `count` bytes of a file from an offset on, none past its end. `Stale`, `NotFile`; `OutOfMemory` where
    /// room for the bytes was refused.
    pub fn read<R: Wait>(
        &mut self,
        rt: &R,
        service: &LockedParts<C, B>,
        file: Handle,
        offset: u64,
        count: u64,
    ) -> Result<Seen, Fault>
        // A read told the bytes of a cell's own blocks, in one turn of the machine, or is refused by such a turn.
        ensures run { IsReadRun service.now.geometry.numbers self.old.number file.ino
            (Call.Read file offset count) (told_as result) }
        // The view is of that call, and of no older version than was seen.
        // Its version is seen from then on; of all other inodes what was seen stays.
        ensures ok { IfOk result (IsViewedBy C.opened self.old self.new file.ino
            (Call.Read file offset count)) }
        ensures same { KeepsOnErr result self.old self.new }
        // The hand is empty afterwards, except where a list or the pool refused what is left.
        ensures held { IsGivenBack self.new.held }
        // Each refusal is one of the call's list, or a part that does not fit.
        ensures err { IfErr result (MayRefuseView (Call.Read file offset count)) }
    {
        self.keeps_only_what_was_refused();
        let guard = hold_view(rt, service, &self.seat.notes, file.ino)?;
        let found = read_on(
            file.ino,
            guard.part(),
            Call::Read {
                file,
                offset,
                count,
            },
        );
        self.see(rt, service, guard, found)
    }

    /// Asks for a node's kind, mode, size and last commit. `Stale`.
    pub fn stat<R: Wait>(
        &mut self,
        rt: &R,
        service: &LockedParts<C, B>,
        handle: Handle,
    ) -> Result<Seen, Fault>
        // Any other view is a run of one turn, to its answer or refusal, on a cell that was found.
        ensures run { IsSessionRun service.now.geometry.numbers self.old.number empty_hand
            (viewing (Call.Stat handle)) (told_as result) empty_hand }
        ensures ok { IfOk result (IsViewedBy C.opened self.old self.new handle.ino
            (Call.Stat handle)) }
        ensures same { KeepsOnErr result self.old self.new }
        ensures held { IsGivenBack self.new.held }
        ensures err { IfErr result (MayRefuseView (Call.Stat handle)) }
    {
        self.keeps_only_what_was_refused();
        let guard = hold_view(rt, service, &self.seat.notes, handle.ino)?;
        let found = stat_on(handle.ino, guard.part(), Call::Stat { handle });
        self.see(rt, service, guard, found)
    }

    /// Asks for the names of a directory in order. `Stale`, `NotDirectory`; `OutOfMemory` where room for the names was
    /// refused.
    pub fn list<R: Wait>(
        &mut self,
        rt: &R,
        service: &LockedParts<C, B>,
        dir: Handle,
    ) -> Result<Seen, Fault>
        ensures run { IsSessionRun service.now.geometry.numbers self.old.number empty_hand
            (viewing (Call.List dir)) (told_as result) empty_hand }
        ensures ok { IfOk result (IsViewedBy C.opened self.old self.new dir.ino (Call.List dir)) }
        ensures same { KeepsOnErr result self.old self.new }
        ensures held { IsGivenBack self.new.held }
        ensures err { IfErr result (MayRefuseView (Call.List dir)) }
    {
        self.keeps_only_what_was_refused();
        let guard = hold_view(rt, service, &self.seat.notes, dir.ino)?;
        let found = list_on(dir.ino, guard.part(), Call::List { dir });
        self.see(rt, service, guard, found)
    }

    /// Asks for the handle that a directory binds a name to. `Stale`, `NotDirectory`, `BadName`, `Missing`.
    pub fn lookup<R: Wait>(
        &mut self,
        rt: &R,
        service: &LockedParts<C, B>,
        dir: Handle,
        name: Bytes,
    ) -> Result<Seen, Fault>
        ensures run { IsSessionRun service.now.geometry.numbers self.old.number empty_hand
            (viewing (Call.Lookup dir name)) (told_as result) empty_hand }
        ensures ok { IfOk result (IsViewedBy C.opened self.old self.new dir.ino
            (Call.Lookup dir name)) }
        ensures same { KeepsOnErr result self.old self.new }
        ensures held { IsGivenBack self.new.held }
        ensures err { IfErr result (MayRefuseView (Call.Lookup dir name)) }
    {
        self.keeps_only_what_was_refused();
        let guard = hold_view(rt, service, &self.seat.notes, dir.ino)?;
        let found = lookup_on(dir.ino, guard.part(), Call::Lookup { dir, name });
        self.see(rt, service, guard, found)
    }
}
