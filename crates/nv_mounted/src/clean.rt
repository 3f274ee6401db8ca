//! The cleaning of logs between two requests.

ghost use Rattle.std.specs.Prelude.{Ok};
ghost use Rattle.nv_mounted.specs.Contents.{clean};
ghost use Rattle.nv_mounted.specs.Side.{Does};

use crate::mount::Mount;
use crate::world::Core;
use nv_calls::{Call, SnapshotOrCleanerCall};

impl<C: Core> Mount<C> {
    /// Cleans the log of an inode that was changed often. A refused cleaning changes nothing, and is left.
    pub fn clean(&mut self)
        // What is due is cleaned by one call, and then nothing is due.
        ensures { Does C.Tells (clean self.old.side) self.old.core self.old.side (Ok tt)
            self.new.core self.new.side }
    {
        let Some(ino) = self.side.due else {
            return;
        };
        self.side.due = None;
        let call = Call::SnapshotOrCleaner(SnapshotOrCleanerCall::Auto(ino));
        let _cleaned = self.core.call(call);
    }
}
