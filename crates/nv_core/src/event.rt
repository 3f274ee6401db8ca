//! What happens to a world, and how it replies.

use nv_base::Fault;
use nv_calls::{Answer, Call};

/// An event of one actor: it starts a call, or its call goes on by one step. Or the machine stops, and goes on from what
/// stands.
#[derive(Debug, Drop)]
pub enum Event {
    Start(u64, Call),
    Go(u64),
    Stop,
}

/// The reply to an event.
#[derive(Debug, Drop)]
pub enum Reply {
    Started,
    /// The step was made, and the call has another.
    Moved,
    /// Another actor holds what the step needs. Nothing changed.
    Waits,
    Done(Answer),
    /// The machine has stopped, and goes on.
    Stopped,
    Refused(Fault),
}
