//! Operations with names.

ghost use Rattle.nv_fuse.specs.Requests.{IsRead};

use super::numbers::{cut_name, long, word};
use crate::operation::Operation;

pub(crate) fn lookup(body: &[u8]) -> Operation<'_>
    ensures { IsRead 1 body.now result }
{
    match cut_name(body) {
        None => Operation::Malformed,
        Some((name, _)) => Operation::Lookup { name },
    }
}

pub(crate) fn unlink(body: &[u8]) -> Operation<'_>
    ensures { IsRead 10 body.now result }
{
    match cut_name(body) {
        None => Operation::Malformed,
        Some((name, _)) => Operation::Unlink { name },
    }
}

pub(crate) fn rmdir(body: &[u8]) -> Operation<'_>
    ensures { IsRead 11 body.now result }
{
    match cut_name(body) {
        None => Operation::Malformed,
        Some((name, _)) => Operation::Rmdir { name },
    }
}

pub(crate) fn mknod(body: &[u8]) -> Operation<'_>
    ensures { IsRead 8 body.now result }
{
    if body.len() < 16 {
        return Operation::Malformed;
    }
    match cut_name(&body[16..]) {
        None => Operation::Malformed,
        Some((name, _)) => Operation::Mknod {
            mode: word(body, 0),
            device: word(body, 4),
            umask: word(body, 8),
            name,
        },
    }
}

pub(crate) fn mkdir(body: &[u8]) -> Operation<'_>
    ensures { IsRead 9 body.now result }
{
    if body.len() < 8 {
        return Operation::Malformed;
    }
    match cut_name(&body[8..]) {
        None => Operation::Malformed,
        Some((name, _)) => Operation::Mkdir {
            mode: word(body, 0),
            umask: word(body, 4),
            name,
        },
    }
}

pub(crate) fn link(body: &[u8]) -> Operation<'_>
    ensures { IsRead 13 body.now result }
{
    if body.len() < 8 {
        return Operation::Malformed;
    }
    match cut_name(&body[8..]) {
        None => Operation::Malformed,
        Some((name, _)) => Operation::Link {
            linked: long(body, 0),
            name,
        },
    }
}

pub(crate) fn create(body: &[u8]) -> Operation<'_>
    ensures { IsRead 35 body.now result }
{
    if body.len() < 16 {
        return Operation::Malformed;
    }
    match cut_name(&body[16..]) {
        None => Operation::Malformed,
        Some((name, _)) => Operation::Create {
            flags: word(body, 0),
            mode: word(body, 4),
            umask: word(body, 8),
            name,
        },
    }
}

pub(crate) fn rename(body: &[u8]) -> Operation<'_>
    ensures { IsRead 12 body.now result }
{
    if body.len() < 8 {
        return Operation::Malformed;
    }
    let Some((old, behind)) = cut_name(&body[8..]) else {
        return Operation::Malformed;
    };
    let Some((new, _)) = cut_name(behind) else {
        return Operation::Malformed;
    };
    Operation::Rename {
        to: long(body, 0),
        old,
        new,
    }
}

pub(crate) fn rename2(body: &[u8]) -> Operation<'_>
    ensures { IsRead 45 body.now result }
{
    if body.len() < 16 {
        return Operation::Malformed;
    }
    let Some((old, behind)) = cut_name(&body[16..]) else {
        return Operation::Malformed;
    };
    let Some((new, _)) = cut_name(behind) else {
        return Operation::Malformed;
    };
    Operation::Rename2 {
        to: long(body, 0),
        flags: word(body, 8),
        old,
        new,
    }
}
