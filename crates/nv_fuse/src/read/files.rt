//! Operations on open files and directories.

ghost use Rattle.nv_fuse.specs.Requests.{IsRead};

use super::numbers::{long, word};
use crate::operation::Operation;

pub(crate) fn open(body: &[u8]) -> Operation<'_>
    ensures { IsRead 14 body.now result }
{
    if body.len() < 8 {
        return Operation::Malformed;
    }
    Operation::Open {
        flags: word(body, 0),
    }
}

pub(crate) fn read(body: &[u8]) -> Operation<'_>
    ensures { IsRead 15 body.now result }
{
    if body.len() < 40 {
        return Operation::Malformed;
    }
    Operation::Read {
        file: long(body, 0),
        offset: long(body, 8),
        size: word(body, 16),
        read_flags: word(body, 20),
        lock_owner: long(body, 24),
        flags: word(body, 32),
    }
}

pub(crate) fn write(body: &[u8]) -> Operation<'_>
    ensures { IsRead 16 body.now result }
{
    if body.len() < 40 || body.len() - 40 != word(body, 16) as usize {
        return Operation::Malformed;
    }
    Operation::Write {
        file: long(body, 0),
        offset: long(body, 8),
        write_flags: word(body, 20),
        lock_owner: long(body, 24),
        flags: word(body, 32),
        bytes: &body[40..],
    }
}

pub(crate) fn flush(body: &[u8]) -> Operation<'_>
    ensures { IsRead 25 body.now result }
{
    if body.len() < 24 {
        return Operation::Malformed;
    }
    Operation::Flush {
        file: long(body, 0),
        lock_owner: long(body, 16),
    }
}

pub(crate) fn fsync(body: &[u8]) -> Operation<'_>
    ensures { IsRead 20 body.now result }
{
    if body.len() < 16 {
        return Operation::Malformed;
    }
    Operation::Fsync {
        file: long(body, 0),
        flags: word(body, 8),
    }
}

pub(crate) fn release(body: &[u8]) -> Operation<'_>
    ensures { IsRead 18 body.now result }
{
    if body.len() < 24 {
        return Operation::Malformed;
    }
    Operation::Release {
        file: long(body, 0),
        flags: word(body, 8),
        release_flags: word(body, 12),
        lock_owner: long(body, 16),
    }
}

pub(crate) fn fallocate(body: &[u8]) -> Operation<'_>
    ensures { IsRead 43 body.now result }
{
    if body.len() < 32 {
        return Operation::Malformed;
    }
    Operation::Fallocate {
        file: long(body, 0),
        offset: long(body, 8),
        size: long(body, 16),
        mode: word(body, 24),
    }
}

pub(crate) fn open_directory(body: &[u8]) -> Operation<'_>
    ensures { IsRead 27 body.now result }
{
    if body.len() < 8 {
        return Operation::Malformed;
    }
    Operation::OpenDirectory {
        flags: word(body, 0),
    }
}

pub(crate) fn read_directory(body: &[u8]) -> Operation<'_>
    ensures { IsRead 28 body.now result }
{
    if body.len() < 40 {
        return Operation::Malformed;
    }
    Operation::ReadDirectory {
        file: long(body, 0),
        offset: long(body, 8),
        size: word(body, 16),
    }
}

pub(crate) fn fsync_directory(body: &[u8]) -> Operation<'_>
    ensures { IsRead 30 body.now result }
{
    if body.len() < 16 {
        return Operation::Malformed;
    }
    Operation::FsyncDirectory {
        file: long(body, 0),
        flags: word(body, 8),
    }
}

pub(crate) fn release_directory(body: &[u8]) -> Operation<'_>
    ensures { IsRead 29 body.now result }
{
    if body.len() < 24 {
        return Operation::Malformed;
    }
    Operation::ReleaseDirectory {
        file: long(body, 0),
        flags: word(body, 8),
    }
}
