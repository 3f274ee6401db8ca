//! What a session finds in a cell is seen.

ghost use Rattle.std.specs.Prelude.{◌≡◌, ℕ, Err, IfErr, IfOk};
ghost use Rattle.nv_base.specs.Refusals.{KeepsOnErr};
ghost use Rattle.nv_calls.specs.declared.call.Call.{Call};
ghost use Rattle.nv_sessions.specs.RunCalls.{told_as};
ghost use Rattle.nv_sessions.specs.Sessions.{IsFoundAt, IsGivenBack, IsViewedBy};
ghost use Rattle.nv_sessions.specs.ViewGuards.{IsNotedBy, place_of};
ghost use Rattle.nv_steps.specs.Reading.{answer_of_view};

use crate::locked_parts::LockedParts;
use crate::names::{Blocks, Commits};
use crate::seen::Seen;
use crate::session::Session;
use crate::view_guards::ViewGuard;
use nv_base::Fault;
use nv_calls::View;
use std::sync::Wait;

impl<C: Commits, B: Blocks> Session<C, B> {
    /// What was found in a cell under this guard, which is let go here, is of no older version than the session has seen there,
    /// and the session has seen that version from then on. A refusal leaves what it has seen.
    pub(crate) fn see<R: Wait>(
        &mut self,
        rt: &R,
        service: &LockedParts<C, B>,
        guard: ViewGuard<'_, C, B>,
        found: Result<View, Fault>,
    ) -> Result<Seen, Fault>
        requires noted { IsNotedBy C.opened self.old.seen guard }
        ensures ok { (ino : ℕ) (call : Call) → (place_of guard.entry).ino ≡ ino
            → IfOk found (IsFoundAt (place_of guard.entry).version call)
            → IfOk result (IsViewedBy C.opened self.old self.new ino call) }
        ensures same { KeepsOnErr result self.old self.new }
        ensures held { IsGivenBack self.new.held }
        ensures refused { IfErr result (λ why. found ≡ Err why) }
        // It is told what was found.
        ensures told { told_as result ≡ answer_of_view found }
    {
        self.keeps_only_what_was_refused();
        let view = found?;
        match guard {
            ViewGuard::Shared(_place) => {}
            ViewGuard::Alone(mut place) => {
                place.check_seen(rt, &service.fresh, &mut self.seat.notes);
                place.note_seen(&service.fresh, &mut self.seat.notes);
            }
        }
        Ok(Seen::Viewed(view))
    }
}
