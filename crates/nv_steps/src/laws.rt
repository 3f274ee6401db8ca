//! Laws of turns on lent parts, and of runs of them, each as the contract of a function that does nothing.

ghost use Rattle.std.specs.Prelude.{◌≡◌, ℕ, Err, List, Result};
ghost use Rattle.std.specs.List.{AllByRecursion};
ghost use Rattle.nv_base.specs.declared.fault.Fault.{Fault};
ghost use Rattle.nv_base.specs.declared.geometry.GeometryNumbers.{GeometryNumbers};
ghost use Rattle.nv_calls.specs.declared.answer.Answer.{Answer};
ghost use Rattle.nv_machine.specs.Frame.{Frame, Lent, lent};
ghost use Rattle.nv_machine.specs.World.{Answers, HandState, Running, Shared};
ghost use Rattle.nv_steps.specs.Lent.{IsLentOrSame};
ghost use Rattle.nv_steps.specs.Parts.{AreApart, Has, IsOf, IsPartOf, IsThere, Part, with_parts};
ghost use Rattle.nv_steps.specs.Refused.{IsRefusedOnce};
ghost use Rattle.nv_steps.specs.Runs.{IsRun};
ghost use Rattle.nv_steps.specs.Turns.{IsEnd, IsMove, Made};

/// Parts at places apart, each of which the numbers of a device tell, are those of some shared state. So what is said of a
/// turn in each state that has what it found is said of one at least, and each law of a turn of the machine speaks of it.
pub fn some_state_has()
    // Parts of different places are those of some shared state.
    ensures { (numbers : GeometryNumbers) (parts : List Part) → AreApart parts
        → AllByRecursion (IsPartOf numbers) parts → IsThere numbers parts }
{}

/// What a turn on lent parts leaves is lent to its step by the machine's one table
/// ([`nv_machine::step_laws::parts_are_lent_by_one_table`]): all else is as it was, wherever the parts are.
pub fn turns_leave_what_they_are_lent()
    // A turn on lent parts leaves all that the table does not lend to its step.
    ensures moves { (numbers : GeometryNumbers) (actor : ℕ) (t : Made) (h : HandState) (r : Running)
        (s : Shared) → IsMove numbers actor t h r → IsOf numbers s → Has s t.found
        → Frame (lent t.running.next numbers.cpus actor t.running) s (with_parts t.left s) }
    // So does the last turn of a call.
    ensures ends { (numbers : GeometryNumbers) (actor : ℕ) (t : Made) (result : Result Answer Fault)
        (h : HandState) (s : Shared) → IsEnd numbers actor t result h → IsOf numbers s
        → Has s t.found
        → Frame (lent t.running.next numbers.cpus actor t.running) s (with_parts t.left s) }
    // Each part that is left otherwise than it was is lent.
    ensures parts { (numbers : GeometryNumbers) (l : Lent) (s : Shared) (left : List Part)
        → IsOf numbers s → AreApart left → AllByRecursion (IsPartOf numbers) left
        → Frame l s (with_parts left s) → AllByRecursion (IsLentOrSame l s) left }
{}

/// A run that ends refused has exactly one turn that refused its call, for that fault. Its cause stood in what that turn
/// found, or its memory was not granted, or its rounds were spent.
pub fn runs_are_refused_once()
    // Exactly one turn of a run that ends refused refused it, for that fault.
    // The cause of the fault stood in what that turn found.
    ensures { (numbers : GeometryNumbers) (actor : ℕ) (h0 : HandState) (r0 : Running) (fault : Fault)
        (h : HandState) (run : IsRun numbers actor h0 r0 (Err fault) h) → r0.ending ≡ Answers
        → IsRefusedOnce numbers actor run.turns run.last fault }
{}
