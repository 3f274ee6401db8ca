//! Files: a world in which no call runs, and how a call is made there.

ghost use Rattle.std.specs.Prelude.{◌≡◌, IfOk};
ghost use Rattle.nv_base.specs.Memory.{out_of_memory};
ghost use Rattle.nv_base.specs.Refusals.{FailsOnly};
ghost use Rattle.nv_core.specs.Whole.{Calls, last_reply};
ghost use Rattle.nv_core.specs.Worlds as worlds;
ghost use Rattle.nv_serial.specs.Serial.{new_serial};
ghost use Rattle.nv_effects.specs.Suits.{Suits};
ghost use Rattle.nv_files.specs.Stands.{IsResting, Leads, Stands};
ghost use Rattle.nv_files.specs.Told.{FindsHandle, IsAnswered, IsToldOrStarved, TellsNothing};

use crate::answers::{check_nothing, handle_of};
use nv_base::{Bytes, Fault, Geometry, Handle};
use nv_calls::{Answer, Call};
use nv_core::{CallFault, World};
use std::alloc::Global;
use std::marker::Model;

/// The actor that makes all calls.
const ACTOR: u64 = 0;

/// A world in which no call runs, and which makes one call after another.
#[derive(Drop)]
pub struct Files {
    alloc: Global,
    world: World,
}

impl Model for Files {
    ghost use Rattle.nv_core.specs.Worlds.{WorldState};
    ghost use Rattle.nv_files.specs.Stands.{IsResting};

    ghost Value = { WorldState };

    ghost view = { λ f. f.world };

    // It stands as a world with numbers.
    ghost invariant = { λ f. IsResting f.world };
}

impl Files {
    /// Files with the root alone, a directory of mode 493 (octal 755). The only error is `OutOfMemory`.
    pub fn format(alloc: Global, geometry: Geometry) -> Result<Files, Fault>
        // New files stand as the new world with numbers.
        ensures ok { IfOk result (λ files. Stands files (new_serial geometry.numbers)) }
        // The only error is `OutOfMemory`.
        ensures err { FailsOnly out_of_memory result }
    {
        let world = World::format(alloc, geometry)?;
        Ok(Files { alloc, world })
    }

    /// The world, to be looked at: its reports, its whole tree and its audit.
    pub fn world(&self) -> &World
        // The world that is lent is that of the files.
        ensures { result.now ≡ self.now }
    {
        &self.world
    }

    /// The world, for who makes steps of calls one by one.
    pub fn into_world(self) -> World
        // The world is given as it is.
        ensures { result ≡ self }
    {
        let Files { alloc: _, world } = self;
        world
    }

    /// A copy of the bytes.
    pub(crate) fn copy_of(&self, bytes: &[u8]) -> Result<Bytes, Fault>
        ensures ok { IfOk result (λ copy. copy ≡ bytes.now) }
        ensures err { FailsOnly out_of_memory result }
    {
        Ok(Bytes::from_vec(Vec::from_slice(self.alloc, bytes)?))
    }

    /// Makes a call, which no other call makes wait.
    pub(crate) fn call(&mut self, call: Call) -> Result<Answer, Fault>
        ensures told { Leads (IsAnswered call result) self.old self.new }
        ensures suits { IfOk result (Suits call) }
    {
        match self.call_world(call) {
            Ok(answer) => Ok(answer),
            Err(CallFault::Refused(fault)) => Err(fault),
            Err(CallFault::Waits) => unreachable!(),
        }
    }

    /// Makes a call of the world.
    fn call_world(&mut self, call: Call) -> Result<Answer, CallFault>
        ensures rested { IsResting self.old }
        ensures whole { worlds.Leads (λ m n. Calls m 0 call (last_reply result) n) self.old self.new }
    {
        self.world.call(ACTOR, call)
    }

    /// Makes a call that is answered a handle.
    pub(crate) fn find(&mut self, call: Call) -> Result<Handle, Fault>
        requires { FindsHandle call }
        ensures { Leads (IsToldOrStarved call result
            (λ handle. Answer.Made handle)) self.old self.new }
    {
        let answer = self.call(call)?;
        Ok(handle_of(answer))
    }

    /// Makes a call that is answered nothing.
    pub(crate) fn change(&mut self, call: Call) -> Result<(), Fault>
        requires { TellsNothing call }
        ensures { Leads (IsToldOrStarved call result (λ _. Answer.Nothing)) self.old self.new }
    {
        let answer = self.call(call)?;
        check_nothing(answer);
        Ok(())
    }
}
