//! What a call has seen of the service.

ghost use Rattle.std.specs.Prelude.{◌≡◌};
ghost use Rattle.nv_sessions.specs.Sessions.{answer_of, answered, at_of};

use nv_base::Handle;
use nv_calls::{Answer, Receipt, Update, View};

/// What a call has seen of the service.
#[derive(Debug, Drop)]
pub enum Seen {
    /// What it found in an inode's cell.
    Viewed(View),
    /// That it was committed.
    Committed(Receipt),
    /// Another answer.
    Other(Answer),
}

impl Seen {
    /// The version of the inode that was read, or the number of the commit; 0 where there is neither.
    pub fn at(&self) -> u64
        ensures { result ≡ at_of self.now }
    {
        match self {
            Seen::Viewed(view) => view.version(),
            Seen::Committed(receipt) => receipt.commit().number(),
            Seen::Other(_) => 0,
        }
    }

    /// The answer. That of a commit is read from its receipt.
    pub fn answer(self) -> Answer
        ensures { result ≡ answer_of self }
    {
        match self {
            Seen::Viewed(view) => view.into_found(),
            Seen::Committed(receipt) => answer_to(receipt.update(), receipt.made()),
            Seen::Other(answer) => answer,
        }
    }
}

/// What a call that changes nodes is answered, with the handle of the inode that it made, if it made one.
pub(crate) fn answer_to(update: &Update, made: Option<Handle>) -> Answer
    ensures { result ≡ answered made update.now }
{
    match (made, update) {
        (Some(handle), _) => Answer::Made(handle),
        (None, Update::Write { count, .. }) => Answer::Count(*count),
        (None, _) => Answer::Nothing,
    }
}
