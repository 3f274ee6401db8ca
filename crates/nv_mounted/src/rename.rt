//! Names that move.

ghost use Rattle.std.specs.Prelude.{◌≡◌, MatchResult};
ghost use Rattle.nv_calls.specs.Plain.{same_handle};
ghost use Rattle.nv_mount_beside.specs.Memory.{no_memory};
ghost use Rattle.nv_mounted.specs.Asks.{ask};
ghost use Rattle.nv_mounted.specs.Dialogues.{IsHad};
ghost use Rattle.nv_mounted.specs.Renames.{all_touched, ask_way, both_touched, leaves_directory, move_freely, move_name, move_or_take_back, move_over_directory, move_over_open, moved_by, moved_now, moves_over, rename, replace_directory, replace_open, taken_back, there_told, way_over, way_past};
ghost use Rattle.nv_mounted.specs.Side.{Does};

use crate::asks::{ask_done, ask_handle, ask_shape, copy_of, lookup, rename, rmdir};
use crate::hidden::{hidden_name_for, hide_now};
use crate::mount::Mount;
use crate::side::Side;
use crate::world::Core;
use nv_base::{Bytes, Fault, Handle, Kind};
use nv_calls::{Answer, Call};
use nv_fuse::Errno;
use nv_mount_answers::Time;
use nv_mount_beside::{Outcome, Refusal, name, node};
use std::alloc::Global;

/// The flag by which nothing may stand at the new name.
const NO_REPLACE: u32 = 1;

/// What stands in the way of a rename.
#[derive(Clone, Copy, Debug)]
pub enum Way {
    /// Nothing: the world does it, also over a file that is not open.
    Free,
    /// Both names are of one node, so that nothing is to be done.
    Same,
    /// An empty directory, which goes first.
    Directory,
    /// An open file, which goes among the hidden ones.
    Open(Handle),
}

/// The moves of a file over an open one.
#[derive(Debug, Drop)]
struct Moves {
    /// The open file goes among the hidden ones.
    away: Call,
    /// The other file goes to its name.
    over: Call,
    /// The open file comes back.
    back: Call,
}

/// The node that a look-up tells, if there is one.
fn ask_there<C: Core>(core: &mut C, call: Call) -> Result<Option<Handle>, Refusal>
    // A name that is missing is no refusal.
    ensures { IsHad C.Tells (ask call there_told) core.old result core.new }
{
    match core.call(call) {
        Ok(Answer::Made(handle)) => Ok(Some(handle)),
        Ok(_other) => Err(Refusal::Errno(Errno::InputOutput)),
        Err(Fault::Missing) => Ok(None),
        Err(fault) => Err(Refusal::Fault(fault)),
    }
}

/// Whether two handles are one.
pub(crate) fn is_same(one: &Handle, other: &Handle) -> bool
    ensures { result ≡ same_handle one.now other.now }
{
    one == other
}

/// Whether a directory moves to another one.
fn leaves_directory(kind: Kind, from: &Handle, to: &Handle) -> bool
    ensures { result ≡ leaves_directory kind from.now to.now }
{
    kind == Kind::Dir && !is_same(from, to)
}

/// What stands in the way of a node that moves, or why there is none.
fn ask_way<C: Core>(
    core: &mut C,
    side: &Side,
    moved: &Handle,
    from: &Handle,
    to: &Handle,
    new: Bytes,
    flags: u32,
) -> Result<Way, Refusal>
    // A look-up tells the other node, and no directory moves to another one.
    ensures { IsHad C.Tells (ask_way side.now moved.now from.now to.now new flags)
        core.old result core.new }
{
    let find_new = lookup(to, new);
    let shape = ask_shape(core, moved)?;
    if leaves_directory(shape.kind, from, to) {
        return Err(Refusal::Errno(Errno::CrossDevice));
    }
    let there = ask_there(core, find_new)?;
    way_past(core, side, moved, shape.kind, flags, there)
}

/// What stands in the way, by who stands at the new name.
fn way_past<C: Core>(
    core: &mut C,
    side: &Side,
    moved: &Handle,
    kind: Kind,
    flags: u32,
    there: Option<Handle>,
) -> Result<Way, Refusal>
    // A stat tells whether it is a file or a directory.
    ensures { IsHad C.Tells (way_past side.now moved.now kind flags there)
        core.old result core.new }
{
    let Some(there) = there else {
        return Ok(Way::Free);
    };
    if flags == NO_REPLACE {
        return Err(Refusal::Errno(Errno::Exists));
    }
    if is_same(&there, moved) {
        return Ok(Way::Same);
    }
    let other = ask_shape(core, &there)?;
    way_over(side, &there, kind, other.kind)
}

/// What stands in the way, by both kinds.
fn way_over(side: &Side, there: &Handle, kind: Kind, other: Kind) -> Result<Way, Refusal>
    // Only a file replaces a file, and only a directory a directory.
    ensures { result ≡ way_over side.now there.now kind other }
{
    match (kind, other) {
        (Kind::File, Kind::Dir) => Err(Refusal::Errno(Errno::IsDirectory)),
        (Kind::Dir, Kind::File) => Err(Refusal::Errno(Errno::NotDirectory)),
        (Kind::Dir, Kind::Dir) => Ok(Way::Directory),
        (Kind::File, Kind::File) => {
            if side.at(there).opens > 0 {
                return Ok(Way::Open(*there));
            }
            Ok(Way::Free)
        }
    }
}

/// Moves a name where no directory and no open file is in the way.
fn move_name<C: Core>(
    alloc: Global,
    core: &mut C,
    from: &Handle,
    old: &[u8],
    to: &Handle,
    new: &[u8],
) -> Result<(), Refusal>
    // The world moves it.
    ensures { IsHad C.Tells (move_name from.now old.now to.now new.now)
        core.old result core.new }
{
    let old = copy_of(alloc, old)?;
    let new = copy_of(alloc, new)?;
    ask_done(core, rename(from, old, to, new))
}

/// Moves a directory over an empty one of the same parent, which goes first, and is gone too where the move is refused.
fn move_over_directory<C: Core>(
    alloc: Global,
    core: &mut C,
    from: &Handle,
    old: &[u8],
    to: &Handle,
    new: &[u8],
) -> Result<(), Refusal>
    // The world takes the empty one away and moves the other.
    ensures { IsHad C.Tells (move_over_directory from.now old.now to.now new.now)
        core.old result core.new }
{
    let old = copy_of(alloc, old)?;
    let gone = copy_of(alloc, new)?;
    let new = copy_of(alloc, new)?;
    ask_done(core, rmdir(to, gone))?;
    ask_done(core, rename(from, old, to, new))
}

/// The moves of a file over an open one, which has a name among the hidden ones.
fn moves_over(
    alloc: Global,
    hidden_dir: &Handle,
    hidden: Bytes,
    from: &Handle,
    old: &[u8],
    to: &Handle,
    new: &[u8],
) -> Result<Moves, Refusal>
    // Each is a rename.
    ensures { MatchResult result
        (λ moves. moves ≡ moves_over hidden_dir.now hidden from.now old.now to.now new.now)
        (λ refusal. refusal ≡ no_memory) }
{
    let over = rename(from, copy_of(alloc, old)?, to, copy_of(alloc, new)?);
    let hidden_again = copy_of(alloc, hidden.as_slice())?;
    let back = rename(hidden_dir, hidden_again, to, copy_of(alloc, new)?);
    let away = rename(to, copy_of(alloc, new)?, hidden_dir, hidden);
    Ok(Moves { away, over, back })
}

/// A node has moved.
fn move_now(side: &mut Side, now: Time, moved: &Handle)
    // Only the time of its attributes changes.
    ensures { side.new ≡ moved_now now moved.now side.old }
{
    let beside = side.at(moved).renamed(now);
    side.put(moved, beside);
}

/// Both directories of a rename have changed, and the node that moved.
fn touch_all(side: &mut Side, now: Time, moved: &Handle, from: &Handle, to: &Handle)
    // The node comes last.
    ensures { side.new ≡ all_touched now moved.now from.now to.now side.old }
{
    touch_both(side, now, from, to);
    move_now(side, now, moved);
}

/// Both directories of a rename have changed.
fn touch_both(side: &mut Side, now: Time, from: &Handle, to: &Handle)
    // One after the other is touched.
    ensures { side.new ≡ both_touched now from.now to.now side.old }
{
    side.touch(now, from);
    side.touch(now, to);
}

impl<C: Core> Mount<C> {
    /// Gives a node another name. An open file at the new name moves among the hidden ones.
    pub(crate) fn rename(
        &mut self,
        now: Time,
        from: u64,
        old: &[u8],
        to: u64,
        new: &[u8],
        flags: u32,
    ) -> Result<Outcome, Refusal>
        // What stands in the way is told by the world, and the move is made.
        ensures { Does C.Tells (rename self.old.side now from old.now to new.now flags)
            self.old.core self.old.side result self.new.core self.new.side }
    {
        let from = node(from)?;
        let to = node(to)?;
        if flags > NO_REPLACE {
            return Err(Refusal::Errno(Errno::Invalid));
        }
        let old_name = name(self.alloc, &from, old)?;
        let new_name = name(self.alloc, &to, new)?;
        let moved = ask_handle(&mut self.core, lookup(&from, old_name))?;
        let (core, side) = (&mut self.core, &self.side);
        let way = ask_way(core, side, &moved, &from, &to, new_name, flags)?;
        self.move_by(now, &moved, &from, old, &to, new, way)
    }

    /// Makes the move on a way.
    fn move_by(
        &mut self,
        now: Time,
        moved: &Handle,
        from: &Handle,
        old: &[u8],
        to: &Handle,
        new: &[u8],
        way: Way,
    ) -> Result<Outcome, Refusal>
        // Where both names are of one node, nothing is done.
        ensures { Does C.Tells
            (moved_by self.old.side now moved.now from.now old.now to.now new.now way)
            self.old.core self.old.side result self.new.core self.new.side }
    {
        match way {
            Way::Same => Ok(Outcome::Done),
            Way::Free => self.move_freely(now, moved, from, old, to, new),
            Way::Directory => self.replace_directory(now, moved, from, old, to, new),
            Way::Open(there) => self.replace_open(now, moved, from, old, to, new, &there),
        }
    }

    /// Moves a name where no directory and no open file is in the way.
    fn move_freely(
        &mut self,
        now: Time,
        moved: &Handle,
        from: &Handle,
        old: &[u8],
        to: &Handle,
        new: &[u8],
    ) -> Result<Outcome, Refusal>
        // Once it was moved it and both directories have changed.
        ensures { Does C.Tells
            (move_freely self.old.side now moved.now from.now old.now to.now new.now)
            self.old.core self.old.side result self.new.core self.new.side }
    {
        move_name(self.alloc, &mut self.core, from, old, to, new)?;
        touch_all(&mut self.side, now, moved, from, to);
        Ok(Outcome::Done)
    }

    /// Moves a directory over an empty one.
    fn replace_directory(
        &mut self,
        now: Time,
        moved: &Handle,
        from: &Handle,
        old: &[u8],
        to: &Handle,
        new: &[u8],
    ) -> Result<Outcome, Refusal>
        // Once it was moved it and both directories have changed.
        ensures { Does C.Tells
            (replace_directory self.old.side now moved.now from.now old.now to.now new.now)
            self.old.core self.old.side result self.new.core self.new.side }
    {
        move_over_directory(self.alloc, &mut self.core, from, old, to, new)?;
        touch_all(&mut self.side, now, moved, from, to);
        Ok(Outcome::Done)
    }

    /// Moves a file over an open one.
    fn replace_open(
        &mut self,
        now: Time,
        moved: &Handle,
        from: &Handle,
        old: &[u8],
        to: &Handle,
        new: &[u8],
        there: &Handle,
    ) -> Result<Outcome, Refusal>
        // Both directories have changed then, also where the open file stays hidden.
        ensures { Does C.Tells
            (replace_open self.old.side now moved.now from.now old.now to.now new.now there.now)
            self.old.core self.old.side result self.new.core self.new.side }
    {
        let done = self.move_over_open(now, moved, from, old, to, new, there)?;
        touch_both(&mut self.side, now, from, to);
        Ok(done)
    }

    /// Moves a file over an open one, which goes among the hidden ones first. Where the second move is refused, the
    /// first is taken back. Where that is refused too, the open file stays hidden: this alone is told as an outcome
    /// and no refusal.
    fn move_over_open(
        &mut self,
        now: Time,
        moved: &Handle,
        from: &Handle,
        old: &[u8],
        to: &Handle,
        new: &[u8],
        there: &Handle,
    ) -> Result<Outcome, Refusal>
        // A file that stays among the hidden ones has no name from then on.
        ensures { Does C.Tells
            (move_over_open self.old.side now moved.now from.now old.now to.now new.now
            there.now)
            self.old.core self.old.side result self.new.core self.new.side }
    {
        let hidden = hidden_name_for(self.alloc, there)?;
        let moves = moves_over(self.alloc, &self.side.hidden, hidden, from, old, to, new)?;
        ask_done(&mut self.core, moves.away)?;
        self.move_or_take_back(now, moved, moves.over, moves.back, there)
    }

    /// Makes the second move.
    fn move_or_take_back(
        &mut self,
        now: Time,
        moved: &Handle,
        over: Call,
        back: Call,
        there: &Handle,
    ) -> Result<Outcome, Refusal>
        // Where it is refused, the first is taken back.
        ensures { Does C.Tells
            (move_or_take_back self.old.side now moved.now there.now over back)
            self.old.core self.old.side result self.new.core self.new.side }
    {
        match self.core.call(over) {
            Ok(_) => {
                hide_now(&mut self.side, now, there);
                move_now(&mut self.side, now, moved);
                Ok(Outcome::Done)
            }
            Err(fault) => self.take_back(now, back, there, fault),
        }
    }

    /// Takes the first move back, since the second was refused.
    fn take_back(
        &mut self,
        now: Time,
        back: Call,
        there: &Handle,
        fault: Fault,
    ) -> Result<Outcome, Refusal>
        // The file is back, or it stays hidden.
        ensures { Does C.Tells (taken_back self.old.side now there.now back fault)
            self.old.core self.old.side result self.new.core self.new.side }
    {
        match self.core.call(back) {
            Ok(_) => Err(Refusal::Fault(fault)),
            Err(_) => {
                hide_now(&mut self.side, now, there);
                Ok(Outcome::Refused(Refusal::Fault(fault).errno()))
            }
        }
    }
}
