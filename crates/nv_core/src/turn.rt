//! What a step comes to.

ghost use Rattle.std.specs.Prelude.{◌≡◌};
ghost use Rattle.nv_core.specs.Turns.{replied};

use crate::Reply;
use nv_base::Fault;
use nv_calls::Answer;

/// What a step comes to: the call moves on; it waits, and nothing has changed; or this was its last step, and the call
/// has its answer.
///
/// It is one byte, since each step hands it on through some functions.
#[derive(Clone, Copy, Debug, PartialEq, Eq)]
pub(crate) enum Turn {
    Moves,
    Waits,
    Ends,
}

/// The reply to the event whose step was the last of its call.
pub(crate) fn ended(answer: Result<Answer, Fault>) -> Reply
    ensures { result ≡ replied Turn.Ends answer }
{
    match answer {
        Ok(answer) => Reply::Done(answer),
        Err(fault) => Reply::Refused(fault),
    }
}
