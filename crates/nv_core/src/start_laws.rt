//! Where parts that were judged make a world: a law, the contract of a function that does nothing.

ghost use Rattle.std.specs.Prelude.{◌≡◌};
ghost use Rattle.nv_audit.specs.AtRest.{IsOneBook};
ghost use Rattle.nv_audit.specs.KeptParts.{records_in};
ghost use Rattle.nv_machine.specs.Starts.{IsStart};
ghost use Rattle.nv_machine.specs.Step.{after};
ghost use Rattle.nv_restart.specs.Stops.{MayStop};
ghost use Rattle.nv_core.specs.AtRest.{AreJudged, at_rest};
ghost use Rattle.nv_core.specs.Worlds.{EventRun};
ghost use Rattle.nv_parts.specs.declared.parts.Parts.{Parts};

/// Parts at rest make, with actors that have no calls, a world where a run may start, with the records of the book, and
/// where the machine may stop.
pub fn parts_at_rest_are_a_start()
    // Parts at rest make, with actors without calls, a world where a run may start, with the records of the book.
    ensures start { (parts : Parts) → AreJudged parts
        → IsStart parts.geometry.numbers (at_rest parts) (records_in parts.book.state) }
    // The machine may stop there.
    ensures may { (parts : Parts) → AreJudged parts
        → MayStop parts.geometry.numbers.block (at_rest parts).shared }
{}

/// The parts of a world in which no call runs, and to which events lead from a start that may stop, are at rest, where
/// their book is one, as each [`nv_book::Book`] is.
pub fn parts_of_worlds_without_calls_are_at_rest()
    ensures { (parts : Parts) (run : EventRun) → IsOneBook parts.book.state
        → IsStart parts.geometry.numbers run.start run.records
        → MayStop parts.geometry.numbers.block run.start.shared
        → at_rest parts ≡ after run.start run.events → AreJudged parts }
{}
