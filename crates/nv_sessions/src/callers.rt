//! A session with all that its calls need.

ghost use Rattle.std.specs.Prelude.{IfErr};
ghost use Rattle.nv_sessions.specs.Refusing.{MayRefuse};

use crate::locked_parts::LockedParts;
use crate::names::{Blocks, Commits};
use crate::seen::Seen;
use crate::session::Session;
use nv_base::Fault;
use nv_calls::Call;
use std::sync::Wait;

/// What makes calls on a service, one after another.
pub trait Calls {
    ghost use Rattle.std.specs.Prelude.{IfErr};
    ghost use Rattle.nv_sessions.specs.Refusing.{MayRefuse};

    /// Makes a call, with the answer and the errors of the method of its name of [`Session`]. It may wait for others.
    /// Only tested: the answer is that of the session's call.
    fn call(&mut self, call: Call) -> Result<Seen, Fault>
        // Each refusal is one of the call's list, or a part that does not fit.
        ensures err { IfErr result (MayRefuse call) };
}

/// A session, the parts that it calls, and the handle by which it may wait.
#[derive(Drop)]
pub struct Seated<'a, C: Commits, B: Blocks, R: Wait> {
    pub rt: &'a R,
    pub service: &'a LockedParts<C, B>,
    pub session: &'a mut Session<C, B>,
}

impl<C: Commits, B: Blocks, R: Wait> Calls for Seated<'_, C, B, R> {
    fn call(&mut self, call: Call) -> Result<Seen, Fault> {
        self.session.call(self.rt, self.service, call)
    }
}
