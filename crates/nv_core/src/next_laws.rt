//! What `World::next_step` says of the next `World::go`: a law, the contract of a function that does nothing.

ghost use Rattle.std.specs.Prelude.{◌≡◌, ◌↔◌, ◌<◌, ℕ, Bool, IsTrue, Some, is_some, length};
ghost use Rattle.nv_machine.specs.Step.{step};
ghost use Rattle.nv_machine.specs.World as machine;
ghost use Rattle.nv_machine.specs.World.{Go, Waiting, actor_at};
ghost use Rattle.nv_core.specs.NextSteps.{IsNext};
ghost use Rattle.nv_core.specs.Worlds.{HasRun};

use crate::NextStep;

/// A `Go` waits exactly where what is told of the next step names an actor to wait for.
pub fn go_waits_as_told()
    // A step waits exactly where an actor is told that it waits for.
    ensures { (m : machine.World) (actor : ℕ) (granted : Bool) (told : NextStep) → HasRun m
        → actor < length m.actors → IsNext m actor (actor_at m actor).running (Some told)
        → ((step m (Go actor granted)).reply ≡ Waiting) ↔ IsTrue (is_some told.waits_for) }
{}
