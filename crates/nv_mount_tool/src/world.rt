//! A world that one actor asks.

ghost use Rattle.std.specs.Prelude.{◌≡◌};

use nv_base::Fault;
use nv_calls::{Answer, Call};
use nv_core::{CallFault, World};
use nv_mounted::{Core, Room};

/// The actor that makes all calls.
const ACTOR: u64 = 0;

/// A world of which one actor makes all calls.
#[derive(Drop)]
pub struct OneActor {
    world: World,
}

impl OneActor {
    pub(crate) fn new(world: World) -> OneActor
        ensures { result.world ≡ world }
    {
        OneActor { world }
    }

    /// Compares the world with one scan of its logs.
    pub(crate) fn audit(&self) -> Result<(), Fault> {
        self.world.audit()?;
        Ok(())
    }
}

impl Core for OneActor {
    ghost use Rattle.nv_mount_tool.specs.Asked.{Asks, HasRoom as WorldHasRoom};

    ghost Tells = { λ old call result new. Asks old.world call result new.world };

    ghost HasRoom = { λ one room. WorldHasRoom one.world room };

    fn call(&mut self, call: Call) -> Result<Answer, Fault> {
        match self.world.call(ACTOR, call) {
            Ok(answer) => Ok(answer),
            Err(CallFault::Refused(fault)) => Err(fault),
            Err(CallFault::Waits) => Err(Fault::Contended),
        }
    }

    fn room(&self) -> Room {
        let numbers = self.world.geometry().numbers;
        Room {
            blocks: numbers.blocks,
            free: self.world.space().free,
            inodes: numbers.inodes,
            free_inodes: self.world.free_inodes(),
            block: numbers.block,
        }
    }
}
