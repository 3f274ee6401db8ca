//! What a session is answered.

use nv_base::Fault;
use nv_calls::{Answer, Call};
use nv_service::{Blocks, Commits, Service, Session};
use std::sync::Wait;

/// What a session is answered.
pub fn told<C: Commits, B: Blocks, R: Wait>(
    rt: &R,
    service: &Service<C, B>,
    session: &mut Session<C, B>,
    call: Call,
) -> Result<Answer, Fault> {
    let seen = session.call(rt, service, call)?;
    Ok(seen.answer())
}
