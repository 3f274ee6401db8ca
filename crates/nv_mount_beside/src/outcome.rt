//! What a request is answered.

ghost use Rattle.nv_mount_beside.specs.Outcomes.{IsReplyOf, outcome_of};
ghost use Rattle.std.specs.Prelude.{◌≡◌};

use crate::refusal::Refusal;
use crate::shown::VALID;
use nv_base::Bytes;
use nv_fuse::{Agreement, Attributes, Entry, Errno, OpenFile, Reply, Statistics};

/// The answer to a request.
#[derive(Debug, Drop)]
pub enum Outcome {
    /// There is no reply.
    Silent,
    Refused(Errno),
    Done,
    Agreed(Agreement),
    Found(Entry),
    Created(Entry, OpenFile),
    Node(Attributes),
    Opened(OpenFile),
    Written(u32),
    Space(Statistics),
    Contents(Bytes),
}

impl Outcome {
    /// The reply, if there is one.
    pub fn reply(&self) -> Option<Reply<'_>>
        // An outcome is told as the one reply that says it, and only a silent one as none.
        ensures { IsReplyOf self.now result }
    {
        Some(match self {
            Outcome::Silent => return None,
            Outcome::Refused(error) => Reply::Refused { error: *error },
            Outcome::Done => Reply::Done,
            Outcome::Agreed(agreement) => Reply::Agreed(*agreement),
            Outcome::Found(entry) => Reply::Found(*entry),
            Outcome::Created(entry, opened) => Reply::Created {
                entry: *entry,
                opened: *opened,
            },
            Outcome::Node(attributes) => Reply::Node {
                valid: VALID,
                valid_nanoseconds: 0,
                attributes: *attributes,
            },
            Outcome::Opened(opened) => Reply::Opened(*opened),
            Outcome::Written(size) => Reply::Written { size: *size },
            Outcome::Space(space) => Reply::Space(*space),
            Outcome::Contents(bytes) => Reply::Contents {
                bytes: bytes.as_slice(),
            },
        })
    }

    /// What was done, or the refusal.
    pub fn of(done: Result<Outcome, Refusal>) -> Outcome
        // A refusal is told by its error.
        ensures { result ≡ outcome_of done }
    {
        match done {
            Ok(outcome) => outcome,
            Err(refusal) => Outcome::Refused(refusal.errno()),
        }
    }
}
