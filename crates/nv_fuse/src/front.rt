//! A stream of requests.

ghost use Rattle.nv_fuse.specs.Stream.{IsFront};

use crate::header::HEADER;
use crate::read::numbers::word;

/// What a stream of requests begins with.
#[derive(Clone, Copy, Debug, PartialEq, Eq, Drop)]
pub enum Front<'a> {
    /// The bytes of a request, and those behind it.
    Whole { request: &'a [u8], behind: &'a [u8] },
    /// A part of a request, whose other bytes are not there yet.
    Part,
    /// No request begins so.
    Broken,
}

impl Front<'_> {
    /// What these bytes begin with.
    pub fn of(bytes: &[u8]) -> Front<'_>
        // A stream is cut where the length tells that it begins with.
        ensures { IsFront bytes.now result }
    {
        if bytes.len() < 4 {
            return Front::Part;
        }
        let length = word(bytes, 0) as usize;
        if length < HEADER {
            return Front::Broken;
        }
        if bytes.len() < length {
            return Front::Part;
        }
        let (request, behind) = bytes.split_at(length);
        Front::Whole { request, behind }
    }
}
