//! Laws of the machine of steps on how often a call moves.

ghost use Rattle.std.specs.Prelude.{◌≢◌, ◌<◌, ◌≤◌, ℕ, Bool, List, map, replicate};
ghost use Rattle.nv_base.specs.declared.geometry.GeometryNumbers.{GeometryNumbers};
ghost use Rattle.nv_book.specs.declared.record.Record.{Record};
ghost use Rattle.nv_machine.specs.Bound.{bound_at, most_steps};
ghost use Rattle.nv_machine.specs.Starts.{IsStart};
ghost use Rattle.nv_machine.specs.Step.{after, replies};
ghost use Rattle.nv_machine.specs.World.{Event, Go, Moved, World};

/// No call has ever more steps left than [`crate::laws::calls_end`] says of one that starts, whatever events came. So
/// no row of `Go` of one actor, as long as it may be, moves its call more often, one after another.
pub fn no_call_goes_on_for_ever()
    // No call has ever more than (8 + 1,048,576) * (44 + 3 * CPUs) steps left.
    ensures steps { (g : GeometryNumbers) (start : World) (records : List Record)
        (events : List Event) (actor : ℕ) → IsStart g start records
        → bound_at (after start events) actor ≤ most_steps g.cpus }
    ensures bound { (n : ℕ) (w : World) (actor : ℕ) (grants : List Bool) → bound_at w actor < n
        → replies w (map (Go actor) grants) ≢ replicate n Moved }
    // No row of `Go` of one actor, however long, moves its call more often, one after another.
    ensures rows { (g : GeometryNumbers) (start : World) (records : List Record)
        (events : List Event) (actor n : ℕ) (grants : List Bool) → IsStart g start records
        → most_steps g.cpus < n
        → replies (after start events) (map (Go actor) grants) ≢ replicate n Moved }
{}
