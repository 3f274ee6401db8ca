//! Operations on open files and directories.

use crate::message::reads;
use nv_fuse::Operation;
use std::test::Fail;

/// Requests that read and write, in bytes worked out by hand from `linux/fuse.h`.
#[test]
fn reads_reads_and_writes(rt: HostRuntime) -> Result<(), Fail> {
    let cut = Operation::Malformed;
    for (number, body, want) in [
        (
            15,
            b"\x05\0\0\0\0\0\0\0\0\x10\0\0\0\0\0\0\0\0\x02\0\x02\0\0\0\x07\0\0\0\0\0\0\0\0\x80\0\0\x09\x09\x09\x09".as_slice(),
            Operation::Read {
                file: 5,
                offset: 4096,
                size: 131_072,
                read_flags: 2,
                lock_owner: 7,
                flags: 0x8000,
            },
        ),
        (
            16,
            b"\x05\0\0\0\0\0\0\0\0\x10\0\0\0\0\0\0\x03\0\0\0\x01\0\0\0\x07\0\0\0\0\0\0\0\x02\x80\0\0\x09\x09\x09\x09abc".as_slice(),
            Operation::Write {
                file: 5,
                offset: 4096,
                write_flags: 1,
                lock_owner: 7,
                flags: 0x8002,
                bytes: b"abc".as_slice(),
            },
        ),
        // A write of no bytes, and one that tells two and has three.
        (
            16,
            b"\x05\0\0\0\0\0\0\0\0\x10\0\0\0\0\0\0\0\0\0\0\0\0\0\0\0\0\0\0\0\0\0\0\0\0\0\0\0\0\0\0".as_slice(),
            Operation::Write {
                file: 5,
                offset: 4096,
                write_flags: 0,
                lock_owner: 0,
                flags: 0,
                bytes: b"".as_slice(),
            },
        ),
        (
            28,
            b"\x05\0\0\0\0\0\0\0\x02\0\0\0\0\0\0\0\0\x10\0\0\0\0\0\0\0\0\0\0\0\0\0\0\0\0\0\0\0\0\0\0".as_slice(),
            Operation::ReadDirectory {
                file: 5,
                offset: 2,
                size: 4096,
            },
        ),
    ] {
        reads(&rt, rt.alloc(), (number, body, want, cut))?;
    }
    Ok(())
}

/// A write whose length is wrong, in bytes worked out by hand.
#[test]
fn reads_a_write_of_a_wrong_length(rt: HostRuntime) -> Result<(), Fail> {
    let body =
        b"\x05\0\0\0\0\0\0\0\0\x10\0\0\0\0\0\0\x02\0\0\0\0\0\0\0\0\0\0\0\0\0\0\0\0\0\0\0\0\0\0\0abc".as_slice();
    let whole = Operation::Write {
        file: 5,
        offset: 4096,
        write_flags: 0,
        lock_owner: 0,
        flags: 0,
        bytes: b"ab".as_slice(),
    };
    reads(&rt, rt.alloc(), (16, body, Operation::Malformed, whole))
}

/// Requests that open and close, in bytes worked out by hand from `linux/fuse.h`.
#[test]
fn reads_what_is_opened_and_closed(rt: HostRuntime) -> Result<(), Fail> {
    let cut = Operation::Malformed;
    for (number, body, want) in [
        (
            14,
            b"\x02\x80\0\0\0\0\0\0".as_slice(),
            Operation::Open { flags: 0x8002 },
        ),
        (
            27,
            b"\x02\x80\0\0\0\0\0\0".as_slice(),
            Operation::OpenDirectory { flags: 0x8002 },
        ),
        (
            18,
            b"\x05\0\0\0\0\0\0\0\x02\x80\0\0\x01\0\0\0\x07\0\0\0\0\0\0\0".as_slice(),
            Operation::Release {
                file: 5,
                flags: 0x8002,
                release_flags: 1,
                lock_owner: 7,
            },
        ),
        (
            29,
            b"\x05\0\0\0\0\0\0\0\x02\x80\0\0\0\0\0\0\0\0\0\0\0\0\0\0".as_slice(),
            Operation::ReleaseDirectory {
                file: 5,
                flags: 0x8002,
            },
        ),
        (
            25,
            b"\x05\0\0\0\0\0\0\0\x09\x09\x09\x09\x09\x09\x09\x09\x07\0\0\0\0\0\0\0".as_slice(),
            Operation::Flush {
                file: 5,
                lock_owner: 7,
            },
        ),
        (
            20,
            b"\x05\0\0\0\0\0\0\0\x01\0\0\0\0\0\0\0".as_slice(),
            Operation::Fsync { file: 5, flags: 1 },
        ),
        (
            30,
            b"\x05\0\0\0\0\0\0\0\x01\0\0\0\0\0\0\0".as_slice(),
            Operation::FsyncDirectory { file: 5, flags: 1 },
        ),
        (
            43,
            b"\x05\0\0\0\0\0\0\0\0\x10\0\0\0\0\0\0\0\x20\0\0\0\0\0\0\x01\0\0\0\0\0\0\0".as_slice(),
            Operation::Fallocate {
                file: 5,
                offset: 4096,
                size: 8192,
                mode: 1,
            },
        ),
    ] {
        reads(&rt, rt.alloc(), (number, body, want, cut))?;
    }
    Ok(())
}
