//! A request with its header.

ghost use Rattle.std.specs.Prelude.{◌↔◌, drop, IsSome, IfSome};
ghost use Rattle.nv_fuse.specs.Requests.{IsHeader, IsRead, IsRequest};

use crate::header::{HEADER, Header};
use crate::operation::Operation;
use crate::read;
use crate::read::numbers::word;

/// A request of the kernel.
#[derive(Clone, Copy, Debug, Drop)]
pub struct Request<'a> {
    /// Who asks.
    pub header: Header,
    /// What is asked for.
    pub operation: Operation<'a>,
}

impl Request<'_> {
    /// The request with these bytes, where they have a header and it tells their length.
    pub fn read(bytes: &[u8]) -> Option<Request<'_>>
        // Exactly the bytes with a header that tells their length are read.
        ensures whole { IsSome result ↔ IsRequest bytes.now }
        // Each field of the header is the number at its place.
        ensures header { IfSome result (λ request. IsHeader bytes.now request.header) }
        // The operation is what its table tells of the header's number and of the bytes behind the header.
        ensures operation { IfSome result (λ request.
            IsRead request.header.operation (drop 40 bytes.now) request.operation) }
    {
        if bytes.len() < HEADER || word(bytes, 0) as usize != bytes.len() {
            return None;
        }
        let header = Header::read(bytes);
        let operation = read::body(header.operation, &bytes[HEADER..]);
        Some(Request { header, operation })
    }
}
