//! Operations on nodes, the first request and the last, and others.

use crate::message::reads;
use nv_fuse::{Operation, SetAttributes};
use std::test::Fail;

/// `fuse_setattr_in`: each byte of a field tells its place, from 1 on.
const SET: &[u8; 88] = b"\x01\x02\0\0\x09\x09\x09\x09\
    \x09\0\0\0\0\0\0\0\x11\0\0\0\0\0\0\0\x19\0\0\0\0\0\0\0\
    \x21\0\0\0\0\0\0\0\x29\0\0\0\0\0\0\0\x31\0\0\0\0\0\0\0\
    \x39\0\0\0\x3d\0\0\0\x41\0\0\0\xa4\x81\0\0\x09\x09\x09\x09\
    \x4d\0\0\0\x51\0\0\0\x09\x09\x09\x09";

/// Requests on a node, in bytes worked out by hand from `linux/fuse.h`.
#[test]
fn reads_operations_on_nodes(rt: HostRuntime) -> Result<(), Fail> {
    let cut = Operation::Malformed;
    for (number, body, want) in [
        (
            2,
            b"\x03\0\0\0\0\0\0\0".as_slice(),
            Operation::Forget { lookups: 3 },
        ),
        (
            42,
            b"\x02\0\0\0\0\0\0\0".as_slice(),
            Operation::ForgetMany { count: 2 },
        ),
        (
            3,
            b"\x01\0\0\0\x09\x09\x09\x09\x05\0\0\0\0\0\0\0".as_slice(),
            Operation::GetAttributes { flags: 1, file: 5 },
        ),
        (
            4,
            SET.as_slice(),
            Operation::SetAttributes(SetAttributes {
                valid: 0x201,
                file: 9,
                size: 17,
                lock_owner: 25,
                accessed: 33,
                modified: 41,
                changed: 49,
                accessed_nanoseconds: 57,
                modified_nanoseconds: 61,
                changed_nanoseconds: 65,
                mode: 0o100644,
                user: 77,
                group: 81,
            }),
        ),
        (
            26,
            b"\x07\0\0\0\x1f\0\0\0\0\0\x02\0\xfb\xff\xff\x03".as_slice(),
            Operation::Init {
                major: 7,
                minor: 31,
                max_readahead: 131_072,
                flags: 0x03ff_fffb,
            },
        ),
    ] {
        reads(&rt, rt.alloc(), (number, body, want, cut))?;
    }
    Ok(())
}

/// Requests without fields, in bytes worked out by hand from `linux/fuse.h`.
#[test]
fn reads_operations_without_fields(rt: HostRuntime) -> Result<(), Fail> {
    for (number, body, want) in [
        (17, b"".as_slice(), Operation::Statfs),
        (38, b"".as_slice(), Operation::Destroy),
        // Bytes behind the fields are not read.
        (38, b"\x01\x02".as_slice(), Operation::Destroy),
        // No such number, a symbolic link, an access, an interrupt, and the first and last of all.
        (0, b"\x01".as_slice(), Operation::Other),
        (6, b"a\0b\0".as_slice(), Operation::Other),
        (34, b"\x04\0\0\0\0\0\0\0".as_slice(), Operation::Other),
        (36, b"\x04\0\0\0\0\0\0\0".as_slice(), Operation::Other),
        (255, b"".as_slice(), Operation::Other),
    ] {
        reads(&rt, rt.alloc(), (number, body, want, want))?;
    }
    Ok(())
}
