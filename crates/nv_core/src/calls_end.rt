//! That calls end.

ghost use Rattle.nv_machine.specs.World as machine;
ghost use Rattle.nv_core.specs.Worlds.{IsBounded, Shows};

use crate::World;

/// More steps than any call has: a drain has the most.
pub const MOST_STEPS: u64 = 268_435_456;

impl World {
    /// A law: calls end. No call moves on [`MOST_STEPS`] times in a row.
    pub fn calls_end(&self)
        // No 268,435,456 events `Go` of one actor (`MOST_STEPS`), one after another, are all replied `Moved`.
        // The machine replies so whatever memory is refused.
        ensures { (m : machine.World) → Shows self.now m → IsBounded m }
    {
        let _ = &self.shared;
    }
}
