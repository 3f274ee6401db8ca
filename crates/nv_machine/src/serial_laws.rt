//! Laws of calls that are made alone, as by a single user: from the start of a call to its last step no other actor
//! makes a step. Each is the contract of a function that does nothing.

ghost use Rattle.std.specs.Prelude.{◌≡◌, ◌++◌, ℕ, Bool, List, ◌∷◌, Some, false};
ghost use Rattle.nv_base.specs.declared.fault.Fault.{Fault};
ghost use Rattle.nv_base.specs.declared.geometry.GeometryNumbers.{GeometryNumbers};
ghost use Rattle.nv_base.specs.declared.numbers.Handle.{Handle};
ghost use Rattle.nv_book.specs.declared.record.Record.{Record};
ghost use Rattle.nv_calls.specs.declared.answer.Answer.{Answer};
ghost use Rattle.nv_calls.specs.declared.call.Call.{Call};
ghost use Rattle.nv_machine.specs.Alone.{IsAnsweredOn, IsRefusedOn, goes};
ghost use Rattle.nv_machine.specs.EndsDecided.{is_snapshot_or_cleaner};
ghost use Rattle.nv_machine.specs.Settled.{settled_nodes};
ghost use Rattle.nv_machine.specs.Starts.{IsStart};
ghost use Rattle.nv_machine.specs.Step.{after, step};
ghost use Rattle.nv_machine.specs.World.{Done, Event, Go, Refused, Running, Start, Started, World, actor_at};

/// A call on files and directories that is made alone is told what the plain world answers on the nodes that stood when
/// it was started; these do not refuse it, and with its effect they are those that stand after its last step. One that
/// is refused is refused for what these nodes refuse it for; where they do not, for want of a number, of blocks, of a
/// commit number or of memory, and never as contended. It leaves the nodes as they stood. None waits where no other
/// actor runs a call ([`crate::laws::who_waits`]).
pub fn calls_alone_are_the_plain_worlds()
    // A call made alone is told what the plain world answers on the nodes that stood at its start.
    // Such a call is on files and directories; no other actor makes a step from its start to its last.
    // The nodes at its start do not refuse it, and with its effect they are those that stand at its end.
    ensures answered { (g : GeometryNumbers) (start : World) (records : List Record)
        (before : List Event) (actor : ℕ) (c : Call) (grants : List Bool) (granted : Bool)
        (r : Running) (told : Answer) → IsStart g start records → is_snapshot_or_cleaner c ≡ false
        → (step (after start before) (Start actor c)).reply ≡ Started
        → let w = after start (before ++ Start actor c ∷ goes actor grants) in
        (actor_at w actor).running ≡ Some r → (step w (Go actor granted)).reply ≡ Done told
        → IsAnsweredOn g.block (settled_nodes (after start before).shared)
        (settled_nodes (step w (Go actor granted)).world.shared) c told }
    // A call made alone that is refused is refused for what the nodes at its start refuse it for.
    // Where they do not refuse it, it is for want of a number, of blocks, of a commit number or of memory.
    // A call made alone is never refused as contended, and a refused one leaves the nodes as they stood.
    ensures refused { (g : GeometryNumbers) (start : World) (records : List Record)
        (before : List Event) (actor : ℕ) (c : Call) (grants : List Bool) (granted : Bool)
        (r : Running) (fault : Fault) → IsStart g start records → is_snapshot_or_cleaner c ≡ false
        → (step (after start before) (Start actor c)).reply ≡ Started
        → let w = after start (before ++ Start actor c ∷ goes actor grants) in
        (actor_at w actor).running ≡ Some r → (step w (Go actor granted)).reply ≡ Refused fault
        → IsRefusedOn g.block (settled_nodes (after start before).shared) c fault }
    ensures kept { (g : GeometryNumbers) (start : World) (records : List Record)
        (before : List Event) (actor : ℕ) (c : Call) (grants : List Bool) (granted : Bool)
        (r : Running) (fault : Fault) → IsStart g start records
        → (step (after start before) (Start actor c)).reply ≡ Started
        → let w = after start (before ++ Start actor c ∷ goes actor grants) in
        (actor_at w actor).running ≡ Some r → (step w (Go actor granted)).reply ≡ Refused fault
        → (handle : Handle) → settled_nodes (step w (Go actor granted)).world.shared handle
        ≡ settled_nodes (after start before).shared handle }
{}
