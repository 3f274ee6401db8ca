//! Which step of a commit comes next.

ghost use Rattle.std.specs.Prelude.{◌≡◌};
ghost use Rattle.nv_calls.specs.Progress.{step_of};

use crate::Commit;

/// A step of a commit: it appends the entries of the next inode, opens the journal, publishes the next inode, closes
/// the journal, retires what the publish of the next inode killed, or has nothing left but to leave.
#[derive(Clone, Copy, Debug, PartialEq, Eq)]
pub enum CommitStep {
    Append,
    Open,
    Publish,
    Close,
    Retire,
    Leave,
}

impl Commit {
    /// The step that comes next.
    pub fn step(&self) -> CommitStep
        // Which step of a commit comes next is told.
        ensures { result ≡ step_of self.now }
    {
        let planned = self.plans.len();
        if self.appended < planned {
            return CommitStep::Append;
        }
        if planned > 1 && self.published == 0 && self.journal.is_none() {
            return CommitStep::Open;
        }
        if self.published < planned {
            return CommitStep::Publish;
        }
        if self.journal.is_some() {
            return CommitStep::Close;
        }
        if self.retired < planned {
            return CommitStep::Retire;
        }
        CommitStep::Leave
    }
}
