//! New files and directories.

ghost use Rattle.std.specs.Prelude.{◌≡◌};
ghost use Rattle.nv_mounted.specs.Makings.{create, made_beside, make, make_owned, making, mkdir, mknod, owner_made, permissions};
ghost use Rattle.nv_mounted.specs.Side.{Does};

use crate::asks::{ask_handle, ask_shape};
use crate::mount::Mount;
use crate::side::Side;
use crate::world::Core;
use nv_base::{Bytes, Handle, Kind, Mode};
use nv_calls::Call;
use nv_fuse::{Attributes, Errno, Header};
use nv_mount_answers::{Shape, Time, attributes_of};
use nv_mount_beside::{
    Beside, Outcome, Owner, Refusal, entry, mode_in, name, node, number, opened_file, owner_in,
};

/// The bits of a mode that tell what is made, and those of a file.
const KIND: u32 = 0o170_000;

const FILE: u32 = 0o100_000;

/// The twelve lower bits of a mode.
pub(crate) fn permissions(mode: u32) -> Result<Mode, Refusal>
    // They are those of a mode of the world.
    ensures { result ≡ Ok (permissions mode) }
{
    match Mode::checked((mode & 0o7_777) as u16) {
        Some(mode) => Ok(mode),
        None => Err(Refusal::Errno(Errno::Invalid)),
    }
}

/// The call that makes a node.
fn making(kind: Kind, dir: &Handle, name: Bytes, mode: Mode) -> Call
    // A file is created, and a directory made.
    ensures { result ≡ making kind dir.now name mode }
{
    match kind {
        Kind::File => Call::Create {
            dir: *dir,
            name,
            mode,
        },
        Kind::Dir => Call::Mkdir {
            dir: *dir,
            name,
            mode,
        },
    }
}

/// What stands beside a new node.
fn made_beside(now: Time, owner: Owner, opens: bool, handle: &Handle) -> Beside
    // It belongs to its owner, and is open once where the request opens it.
    ensures { result ≡ made_beside now owner opens handle.now }
{
    let new = Beside::new(handle.generation.number(), now, owner.user, owner.group);
    if opens { new.opened() } else { new }
}

/// Whom a node belongs to that a request makes in a directory of this mode.
fn owner_made(side: &Side, dir: &Handle, dir_mode: Mode, header: &Header) -> Owner
    // Its user is who asks, and its group may be the directory's.
    ensures { result ≡ owner_made side.now dir.now dir_mode header.now }
{
    let group = side.at(dir).kept.group;
    owner_in(dir_mode, group, header.user, header.group)
}

impl<C: Core> Mount<C> {
    /// Makes a file or a directory, which belongs to who asks, or to the group of its directory.
    fn make(
        &mut self,
        now: Time,
        header: &Header,
        kind: Kind,
        mode: u32,
        file: &[u8],
        opens: bool,
    ) -> Result<Attributes, Refusal>
        // A stat tells the mode of its directory, which may pass group and bit on.
        ensures { Does C.Tells (make self.old.side now header.now kind mode file.now opens)
            self.old.core self.old.side result self.new.core self.new.side }
    {
        let dir = node(header.node)?;
        let parent = ask_shape(&mut self.core, &dir)?;
        let owner = owner_made(&self.side, &dir, parent.mode, header);
        let mode = mode_in(parent.mode, kind, mode);
        self.make_owned(now, &dir, owner, kind, mode, file, opens)
    }

    /// Makes a file or a directory of this mode that belongs to this owner.
    fn make_owned(
        &mut self,
        now: Time,
        dir: &Handle,
        owner: Owner,
        kind: Kind,
        mode: u32,
        file: &[u8],
        opens: bool,
    ) -> Result<Attributes, Refusal>
        // The world makes it, and its directory has changed.
        ensures { Does C.Tells
            (make_owned self.old.side now dir.now owner kind mode file.now opens)
            self.old.core self.old.side result self.new.core self.new.side }
    {
        let name = name(self.alloc, dir, file)?;
        let mode = permissions(mode)?;
        let handle = ask_handle(&mut self.core, making(kind, dir, name, mode))?;
        let number = number(&handle)?;
        let beside = made_beside(now, owner, opens, &handle);
        self.side.put(&handle, beside);
        self.side.touch(now, dir);
        let size = 0;
        Ok(attributes_of(number, Shape { kind, mode, size }, beside.kept))
    }

    /// Makes a file without opening it. Other kinds than files are not supported.
    pub(crate) fn mknod(
        &mut self,
        now: Time,
        header: &Header,
        mode: u32,
        file: &[u8],
    ) -> Result<Outcome, Refusal>
        // What is made is a file that nobody has opened.
        ensures { Does C.Tells (mknod self.old.side now header.now mode file.now)
            self.old.core self.old.side result self.new.core self.new.side }
    {
        if mode & KIND != FILE {
            return Err(Refusal::Errno(Errno::NotSupported));
        }
        let made = self.make(now, header, Kind::File, mode, file, false)?;
        Ok(Outcome::Found(entry(made)))
    }

    /// Makes a directory.
    pub(crate) fn mkdir(
        &mut self,
        now: Time,
        header: &Header,
        mode: u32,
        file: &[u8],
    ) -> Result<Outcome, Refusal>
        // What is made is a directory.
        ensures { Does C.Tells (mkdir self.old.side now header.now mode file.now)
            self.old.core self.old.side result self.new.core self.new.side }
    {
        let made = self.make(now, header, Kind::Dir, mode, file, false)?;
        Ok(Outcome::Found(entry(made)))
    }

    /// Makes a file and opens it.
    pub(crate) fn create(
        &mut self,
        now: Time,
        header: &Header,
        mode: u32,
        file: &[u8],
    ) -> Result<Outcome, Refusal>
        // What is made is a file that is open once.
        ensures { Does C.Tells (create self.old.side now header.now mode file.now)
            self.old.core self.old.side result self.new.core self.new.side }
    {
        let made = self.make(now, header, Kind::File, mode, file, true)?;
        Ok(Outcome::Created(entry(made), opened_file()))
    }
}
