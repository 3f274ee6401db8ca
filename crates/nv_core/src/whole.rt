//! Whole calls: the steps of one actor's call, one after another.

ghost use Rattle.std.specs.Prelude.{◌≡◌, ◌≢◌, ◌+◌};
ghost use Rattle.nv_machine.specs.World as machine;
ghost use Rattle.nv_core.specs.Whole.{Calls, GoesOn, Runs, last_reply};
ghost use Rattle.nv_core.specs.Worlds.{Leads, reply_of, told_by};
ghost use Rattle.nv_restart.specs.Happenings.{Replied};

use crate::calls_end::MOST_STEPS;
use crate::{Reply, World};
use nv_base::Fault;
use nv_calls::{Answer, Call};
use thiserror::Error;

/// Why a whole call has no answer.
#[derive(Clone, Copy, Debug, PartialEq, Eq, Error)]
pub enum CallFault {
    /// The call was refused and is over.
    #[error(transparent)]
    Refused(#[from] Fault),
    /// Another actor holds what the next step needs. The call is not over: [`World::finish`] goes on with it.
    #[error("another actor holds what the call needs")]
    Waits,
}

impl World {
    /// Makes a whole call of an actor that has none: starts it, and makes its steps up to its end.
    ///
    /// No other actor makes a step meanwhile. So [`CallFault::Waits`] comes only where another actor has a call that is
    /// not over: the steps that were made stand, and [`World::finish`] goes on. A refused call has changed nothing.
    pub fn call(&mut self, actor: u64, call: Call) -> Result<Answer, CallFault>
        // A whole call is its start and, where it was started, its steps up to its end or a wait.
        // A whole call is told what the last reply says.
        ensures { Leads (λ m n. Calls m actor call (last_reply result) n) self.old self.new }
    {
        match self.start(actor, call) {
            Reply::Started => self.finish(actor),
            refused => told(refused),
        }
    }

    /// Makes the steps of an actor's call up to its end: of one that was started, or that waited.
    pub fn finish(&mut self, actor: u64) -> Result<Answer, CallFault>
        // The steps of a call that was started, or that waited, are made up to its end or a wait.
        ensures { Leads (λ m n. Runs m actor (last_reply result) n) self.old self.new }
    {
        // No call has so many steps.
        self.calls_end();
        told(self.go_on(actor, MOST_STEPS - 1))
    }

    /// Makes one step of an actor's call and `more` at most, up to the first reply that it did not move.
    ///
    /// One step stands in it, so that a step costs no call of its own.
    #[inline(never)]
    pub fn go_on(&mut self, actor: u64, more: u64) -> Reply
        // One step and as many more as are asked for are made, up to the first reply that it did not move.
        // No fewer steps are made than that, and no more.
        // The last reply is answered.
        ensures goes { Leads (λ m n. GoesOn (more + 1) m actor (reply_of result) n)
            self.old self.new }
        // It never answers that the machine stopped.
        ensures replied { told_by result ≡ Replied (reply_of result) }
    {
        let mut reply = Reply::Moved;
        let mut left = more;
        loop {
            self.step_once(actor, &mut reply);
            match reply {
                Reply::Moved => {}
                _ => return reply,
            }
            if left == 0 {
                return Reply::Moved;
            }
            left -= 1;
        }
    }
}

/// What the last reply of a whole call tells.
fn told(reply: Reply) -> Result<Answer, CallFault>
    // A call that waits for another actor is told apart from one that was refused.
    ensures { reply ≢ Reply.Started → reply ≢ Reply.Moved → last_reply result ≡ reply_of reply }
{
    match reply {
        Reply::Done(answer) => Ok(answer),
        Reply::Refused(fault) => Err(CallFault::Refused(fault)),
        Reply::Started | Reply::Moved | Reply::Waits | Reply::Stopped => Err(CallFault::Waits),
    }
}
