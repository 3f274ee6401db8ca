//! What each request begins with.

ghost use Rattle.std.specs.Prelude.{◌≤◌, length};
ghost use Rattle.nv_fuse.specs.Requests.{IsHeader};

use crate::read::numbers::{long, word};

/// Who asks for what. The length of the request, which stands before these fields, is that of its bytes.
#[derive(Clone, Copy, Debug, PartialEq, Eq, Drop)]
pub struct Header {
    /// The number of the operation.
    pub operation: u32,
    /// The number of the request, which its reply carries too.
    pub unique: u64,
    /// The number of the node that it is about.
    pub node: u64,
    /// The user who asks.
    pub user: u32,
    /// The group of this user.
    pub group: u32,
    /// The process that asks.
    pub process: u32,
}

/// How many bytes a header takes.
pub(crate) const HEADER: usize = 40;

impl Header {
    /// The header that these bytes begin with.
    pub fn read(bytes: &[u8]) -> Header
        requires { 40 ≤ length bytes.now }
        // Each field of a header is the number at its place.
        ensures { IsHeader bytes.now result }
    {
        Header {
            operation: word(bytes, 4),
            unique: long(bytes, 8),
            node: long(bytes, 16),
            user: word(bytes, 24),
            group: word(bytes, 28),
            process: word(bytes, 32),
        }
    }
}
