//! Operations on nodes, and the first request.

ghost use Rattle.nv_fuse.specs.Requests.{IsRead};

use super::numbers::{long, word};
use crate::operation::{Operation, SetAttributes};

pub(crate) fn init(body: &[u8]) -> Operation<'_>
    ensures { IsRead 26 body.now result }
{
    if body.len() < 16 {
        return Operation::Malformed;
    }
    Operation::Init {
        major: word(body, 0),
        minor: word(body, 4),
        max_readahead: word(body, 8),
        flags: word(body, 12),
    }
}

pub(crate) fn forget(body: &[u8]) -> Operation<'_>
    ensures { IsRead 2 body.now result }
{
    if body.len() < 8 {
        return Operation::Malformed;
    }
    Operation::Forget {
        lookups: long(body, 0),
    }
}

pub(crate) fn forget_many(body: &[u8]) -> Operation<'_>
    ensures { IsRead 42 body.now result }
{
    if body.len() < 8 {
        return Operation::Malformed;
    }
    Operation::ForgetMany {
        count: word(body, 0),
    }
}

pub(crate) fn get_attributes(body: &[u8]) -> Operation<'_>
    ensures { IsRead 3 body.now result }
{
    if body.len() < 16 {
        return Operation::Malformed;
    }
    Operation::GetAttributes {
        flags: word(body, 0),
        file: long(body, 8),
    }
}

pub(crate) fn set_attributes(body: &[u8]) -> Operation<'_>
    ensures { IsRead 4 body.now result }
{
    if body.len() < 88 {
        return Operation::Malformed;
    }
    Operation::SetAttributes(SetAttributes {
        valid: word(body, 0),
        file: long(body, 8),
        size: long(body, 16),
        lock_owner: long(body, 24),
        accessed: long(body, 32),
        modified: long(body, 40),
        changed: long(body, 48),
        accessed_nanoseconds: word(body, 56),
        modified_nanoseconds: word(body, 60),
        changed_nanoseconds: word(body, 64),
        mode: word(body, 68),
        user: word(body, 76),
        group: word(body, 80),
    })
}
