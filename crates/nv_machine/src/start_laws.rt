//! Laws of the machine of steps on where runs start. Each is the contract of a function that does nothing.

ghost use Rattle.std.specs.Prelude.{List, []};
ghost use Rattle.nv_base.specs.Limits.{IsWithinLimits};
ghost use Rattle.nv_base.specs.declared.geometry.GeometryNumbers.{GeometryNumbers};
ghost use Rattle.nv_book.specs.declared.record.Record.{Record};
ghost use Rattle.nv_machine.specs.Format.{formatted};
ghost use Rattle.nv_machine.specs.Needed.{IsAtRest};
ghost use Rattle.nv_machine.specs.Recorded.{records_after};
ghost use Rattle.nv_machine.specs.Starts.{IsStart};
ghost use Rattle.nv_machine.specs.Step.{after};
ghost use Rattle.nv_machine.specs.World.{Event, World};

/// A run may start in a new world, which has no records. And it may start again in each world that events lead to from
/// a start and in which no call runs: with the records to which they lead. So what laws say of any start holds of both.
pub fn runs_may_start_where_nothing_runs()
    // A run may start in a new world, without records.
    ensures new { (g : GeometryNumbers) → IsWithinLimits g → IsStart g (formatted g) [] }
    // A run may start again in each world that events lead to and in which no call runs, with its records.
    ensures again { (g : GeometryNumbers) (start : World) (records : List Record) (events : List Event)
        → IsStart g start records → IsAtRest (after start events)
        → IsStart g (after start events) (records_after start events records) }
{}
