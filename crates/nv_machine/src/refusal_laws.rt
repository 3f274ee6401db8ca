//! What led to a refusal, as the contract of a function that does nothing.

ghost use Rattle.std.specs.Prelude.{◌≡◌, ◌++◌, ◌∷◌, [], ℕ, Bool, List, Some};
ghost use Rattle.nv_base.specs.declared.fault.Fault.{Fault};
ghost use Rattle.nv_base.specs.declared.geometry.GeometryNumbers.{GeometryNumbers};
ghost use Rattle.nv_book.specs.declared.record.Record.{Record};
ghost use Rattle.nv_machine.specs.OwnSteps.{MetItsCause, own_steps};
ghost use Rattle.nv_machine.specs.Starts.{IsStart};
ghost use Rattle.nv_machine.specs.Step.{after, step};
ghost use Rattle.nv_machine.specs.World.{Event, Go, Refused, Running, World, actor_at};

/// A call that is refused has met its cause: whatever events came from any start on, exactly one of its steps since it
/// was started refused it, and for the fault that it is told. The cause of that fault was there at that step, over the
/// settled nodes, which the plain world has. Each step of the call has left all cells as they were, and the book, except
/// that a show has put its pin on and taken it off.
pub fn refused_calls_met_their_cause()
    // Exactly one step of a refused call refused it, for the fault that it is told.
    // The cause of that fault was there at that step, over the settled nodes.
    // All its steps left every cell, and the book except for pins.
    ensures { (g : GeometryNumbers) (start : World) (records : List Record) (events : List Event)
        (actor : ℕ) (granted : Bool) (r : Running) (fault : Fault) → IsStart g start records
        → (actor_at (after start events) actor).running ≡ Some r
        → (step (after start events) (Go actor granted)).reply ≡ Refused fault
        → MetItsCause fault (own_steps actor start (events ++ Go actor granted ∷ []) []) }
{}
