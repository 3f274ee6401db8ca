//! Names that go, and files that are open when their name goes.

ghost use Rattle.std.specs.Prelude.{◌≡◌};
ghost use Rattle.nv_mount_beside.specs.Memory.{IsOrNoMemory};
ghost use Rattle.nv_mounted.specs.Dialogues.{IsHad};
ghost use Rattle.nv_mounted.specs.Side.{Does};
ghost use Rattle.nv_mounted.specs.Talks.{goes, hidden_name_for, hidden_now, hide, is_open_file, is_unopened, let_go, release, release_file};
ghost use Rattle.nv_mounted.specs.Talks.{release_opened, rmdir, take_away, touched_if, unlink};

use crate::asks::{ask_done, ask_handle, ask_shape, lookup, rename, rmdir, unlink};
use crate::mount::Mount;
use crate::side::Side;
use crate::world::Core;
use nv_base::{Bytes, Handle, Kind};
use nv_calls::Call;
use nv_mount_answers::{Shape, Time};
use nv_mount_beside::{Beside, Outcome, Refusal, hidden_name, name, node, number};
use std::alloc::Global;

/// Whether a node is a file that is open.
fn is_open_file(side: &Side, handle: &Handle, shape: Shape) -> bool
    // Directories are never open so.
    ensures { result ≡ is_open_file side.now handle.now shape }
{
    shape.kind == Kind::File && side.at(handle).opens > 0
}

/// The hidden directory has changed, if a file went.
fn touch_if(side: &mut Side, gone: bool, now: Time)
    // Else nothing changes.
    ensures { side.new ≡ touched_if gone now side.old }
{
    if gone {
        let hidden = side.hidden;
        side.touch(now, &hidden);
    }
}

/// A file that has gone among the hidden ones has no name.
pub(crate) fn hide_now(side: &mut Side, now: Time, handle: &Handle)
    // Only what stands beside it changes: its name, and the time of its attributes.
    ensures { side.new ≡ hidden_now now handle.now side.old }
{
    let beside = side.at(handle).named(false).renamed(now);
    side.put(handle, beside);
}

/// The name of a file among the hidden ones.
pub(crate) fn hidden_name_for(alloc: Global, handle: &Handle) -> Result<Bytes, Refusal>
    // It is the number of the node in decimal.
    ensures { IsOrNoMemory result (hidden_name_for handle.now) }
{
    hidden_name(alloc, number(handle)?)
}

impl<C: Core> Mount<C> {
    /// Takes a file's name away. A file that is open moves among the hidden ones, and goes when it is released last.
    pub(crate) fn unlink(&mut self, now: Time, dir: u64, file: &[u8]) -> Result<Outcome, Refusal>
        // An open file is hidden, and any other goes.
        ensures { Does C.Tells (unlink self.old.side now dir file.now) self.old.core self.old.side
            result self.new.core self.new.side }
    {
        let dir = node(dir)?;
        let looked = name(self.alloc, &dir, file)?;
        let old = name(self.alloc, &dir, file)?;
        let handle = ask_handle(&mut self.core, lookup(&dir, looked))?;
        let shape = ask_shape(&mut self.core, &handle)?;
        self.take_away(now, &dir, old, &handle, shape)?;
        self.side.touch(now, &dir);
        Ok(Outcome::Done)
    }

    /// Takes the name of a node away, or hides it.
    fn take_away(
        &mut self,
        now: Time,
        dir: &Handle,
        name: Bytes,
        handle: &Handle,
        shape: Shape,
    ) -> Result<(), Refusal>
        // An open file is hidden, and any other goes.
        ensures { Does C.Tells (take_away self.old.side now dir.now name handle.now shape)
            self.old.core self.old.side result self.new.core self.new.side }
    {
        if is_open_file(&self.side, handle, shape) {
            return self.hide(now, dir, name, handle);
        }
        ask_done(&mut self.core, unlink(dir, name))
    }

    /// Takes the name of an empty directory away.
    pub(crate) fn rmdir(&mut self, now: Time, dir: u64, file: &[u8]) -> Result<Outcome, Refusal>
        // The world takes it away.
        ensures { Does C.Tells (rmdir self.old.side now dir file.now) self.old.core self.old.side
            result self.new.core self.new.side }
    {
        let dir = node(dir)?;
        let name = name(self.alloc, &dir, file)?;
        ask_done(&mut self.core, rmdir(&dir, name))?;
        self.side.touch(now, &dir);
        Ok(Outcome::Done)
    }

    /// Moves an open file among the hidden ones.
    pub(crate) fn hide(
        &mut self,
        now: Time,
        from: &Handle,
        old: Bytes,
        handle: &Handle,
    ) -> Result<(), Refusal>
        // It stands there under its number, and has no name from then on.
        ensures { Does C.Tells (hide self.old.side now from.now old handle.now)
            self.old.core self.old.side result self.new.core self.new.side }
    {
        let new = hidden_name_for(self.alloc, handle)?;
        ask_done(&mut self.core, rename(from, old, &self.side.hidden, new))?;
        hide_now(&mut self.side, now, handle);
        Ok(())
    }

    /// A file is released as [`Mount::release`] does. Where it goes, the hidden directory has changed.
    pub(crate) fn release_file(&mut self, now: Time, number: u64) -> Result<Outcome, Refusal>
        // A file that goes is a change of the hidden directory.
        ensures { Does C.Tells (release_file self.old.side now number) self.old.core self.old.side
            result self.new.core self.new.side }
    {
        let gone = self.goes(number);
        let done = self.release(number)?;
        touch_if(&mut self.side, gone, now);
        Ok(done)
    }

    /// Whether a file goes at its release.
    fn goes(&self, number: u64) -> bool
        // It does where it is open once and has no name.
        ensures { result ≡ goes self.now.side number }
    {
        match node(number) {
            Ok(handle) => {
                let beside = self.side.at(&handle);
                beside.opens == 1 && beside.nameless
            }
            Err(_refusal) => false,
        }
    }

    /// An open file is closed once more. A number that is not open changes nothing: that of a file that is gone names a slot
    /// in which a newer one may be.
    pub(crate) fn release(&mut self, number: u64) -> Result<Outcome, Refusal>
        // Only a node that is open is released.
        ensures { Does C.Tells (release self.old.side number) self.old.core self.old.side result
            self.new.core self.new.side }
    {
        if self.is_unopened(number) {
            return Ok(Outcome::Done);
        }
        self.release_opened(number)
    }

    /// Whether a number names a node that is not open.
    fn is_unopened(&self, number: u64) -> bool
        // A number that names none is refused later.
        ensures { result ≡ is_unopened self.now.side number }
    {
        match node(number) {
            Ok(handle) => self.side.at(&handle).opens == 0,
            Err(_refusal) => false,
        }
    }

    /// An open file is closed once more. Without a name and closed as often as it was opened it goes.
    fn release_opened(&mut self, number: u64) -> Result<Outcome, Refusal>
        // Opens are counted down, and a file without a name goes at 0.
        ensures { Does C.Tells (release_opened self.old.side number) self.old.core self.old.side
            result self.new.core self.new.side }
    {
        let handle = node(number)?;
        let beside = self.side.at(&handle).released();
        self.let_go(number, beside)?;
        self.side.put(&handle, beside);
        Ok(Outcome::Done)
    }

    /// A file that is neither open nor has a name goes.
    fn let_go(&mut self, number: u64, beside: Beside) -> Result<(), Refusal>
        // It is taken from among the hidden ones, and any other file stays.
        ensures had { IsHad C.Tells (let_go self.old.side number beside)
            self.old.core result self.new.core }
        ensures side { self.new.side ≡ self.old.side }
    {
        if beside.opens > 0 || !beside.nameless {
            return Ok(());
        }
        let name = hidden_name(self.alloc, number)?;
        ask_done(&mut self.core, unlink(&self.side.hidden, name))
    }
}
