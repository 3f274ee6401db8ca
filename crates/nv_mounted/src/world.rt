//! What a mount asks.

use nv_base::Fault;
use nv_calls::{Answer, Call};

/// How many blocks and inodes there are.
#[derive(Clone, Copy, Debug, PartialEq, Eq, Drop)]
pub struct Room {
    /// All blocks of the device.
    pub blocks: u64,
    /// Those in free lists.
    pub free: u64,
    /// All inode slots.
    pub inodes: u64,
    /// Those that are free for new files and directories.
    pub free_inodes: u64,
    /// How many bytes a block has.
    pub block: u64,
}

/// What makes the calls of a mount, one after another: a world with one actor. It says by two relations what a call does,
/// and what room it has.
pub trait Core: Drop {
    ghost use Rattle.std.specs.Prelude.{Result};
    ghost use Rattle.nv_base.specs.declared.fault.Fault.{Fault as FaultValue};
    ghost use Rattle.nv_calls.specs.declared.answer.Answer.{Answer as AnswerValue};
    ghost use Rattle.nv_calls.specs.declared.call.Call.{Call as CallValue};
    ghost use Rattle.nv_mounted.specs.declared.world.Room.{Room as RoomValue};

    ghost Tells: { Self → CallValue → Result AnswerValue FaultValue → Self → Type 0 };

    ghost HasRoom: { Self → RoomValue → Type 0 };

    /// Makes a whole call.
    fn call(&mut self, call: Call) -> Result<Answer, Fault>
        ensures { Tells self.old call result self.new };

    /// How much room there is.
    fn room(&self) -> Room
        ensures { HasRoom self.now result };
}
