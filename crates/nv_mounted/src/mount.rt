//! A mounted world.

ghost use Rattle.std.specs.Prelude.{◌≡◌, Ok, Err, IfErr, IfOk};
ghost use Rattle.nv_mount_answers.specs.Nodes.{root};
ghost use Rattle.nv_mounted.specs.Answers.{IsAnswered};
ghost use Rattle.nv_mounted.specs.Dialogues.{IsHad};
ghost use Rattle.nv_mounted.specs.NewMounts.{Begins, make_hidden};

use crate::asks::{ask_handle, copy_of};
use crate::make::permissions;
use crate::side::Side;
use crate::world::Core;
use nv_base::{Gen, Handle, Ino};
use nv_calls::Call;
use nv_fuse::Request;
use nv_mount_answers::Time;
use nv_mount_beside::{HIDDEN, Nodes, Outcome, Refusal};
use std::alloc::Global;

/// A world has at most so many slots of inodes.
const SLOTS: u64 = 65_536;

/// Only its owner may read, write and search the directory of hidden files.
const OWNERS: u32 = 0o700;

/// A world with what it has no place for. One kernel makes all its requests, one after another.
#[derive(Drop)]
pub struct Mount<C: Core> {
    pub(crate) alloc: Global,
    /// The world.
    pub(crate) core: C,
    /// What it has no place for.
    pub(crate) side: Side,
}

/// The root directory.
pub(crate) fn root() -> Handle
    // It is slot 0 in its first generation.
    ensures { result ≡ root }
{
    Handle {
        ino: Ino::new(0),
        generation: Gen::new(1),
    }
}

/// Makes the directory of hidden files.
fn make_hidden<C: Core>(alloc: Global, core: &mut C) -> Result<Handle, Refusal>
    // One call makes it in the root.
    ensures { IsHad C.Tells make_hidden core.old result core.new }
{
    let (dir, name, mode) = (root(), copy_of(alloc, HIDDEN)?, permissions(OWNERS)?);
    ask_handle(core, Call::Mkdir { dir, name, mode })
}

impl<C: Core> Mount<C> {
    /// Mounts a new world, whose root has no name yet. It gets the directory of hidden files.
    pub fn new(alloc: Global, core: C, now: Time) -> Result<Mount<C>, Refusal>
        // A new mount has the world in which the hidden directory was made, and nothing else beside it.
        ensures ok { IfOk result (λ mount.
            Begins C.Tells C.HasRoom core now (Ok mount.side) mount.core) }
        // It is refused where that call is, or for want of memory.
        ensures err { IfErr result (λ refusal.
            (left : C) × Begins C.Tells C.HasRoom core now (Err refusal) left) }
    {
        let slots = core.room().inodes.min(SLOTS);
        let nodes = Nodes::new(alloc, slots, now)?;
        let mut core = core;
        let hidden = make_hidden(alloc, &mut core)?;
        let side = Side::new(alloc, hidden, nodes);
        Ok(Mount { alloc, core, side })
    }

    /// Answers a request that came at this time.
    pub fn answer(&mut self, now: Time, request: &Request<'_>) -> Outcome
        // Each request has one answer, which the world's answers make, and its refusal is told by an error.
        ensures { IsAnswered C.Tells C.HasRoom self.old.core self.old.side now request.now result
            self.new.core self.new.side }
    {
        Outcome::of(self.perform(now, request))
    }

    /// The world.
    pub fn core(&self) -> &C
        // It is the one that the mount asks.
        ensures { result.now ≡ self.now.core }
    {
        &self.core
    }
}
