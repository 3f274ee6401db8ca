//! Operations with names. A cut one has lost the zero byte that ends its last name.

use crate::message::reads;
use nv_fuse::Operation;
use std::test::Fail;

/// Requests with a name, in bytes worked out by hand from `linux/fuse.h`.
#[test]
fn reads_names(rt: HostRuntime) -> Result<(), Fail> {
    let cut = Operation::Malformed;
    let name = b"ab".as_slice();
    for (number, body, want) in [
        (1, b"ab\0".as_slice(), Operation::Lookup { name }),
        (1, b"ab\0cd\0\0\0".as_slice(), Operation::Lookup { name }),
        (10, b"ab\0".as_slice(), Operation::Unlink { name }),
        (11, b"ab\0".as_slice(), Operation::Rmdir { name }),
        (
            11,
            b"\0".as_slice(),
            Operation::Rmdir {
                name: b"".as_slice(),
            },
        ),
    ] {
        // The second row has a zero byte left.
        let want_of_cut = if body.len() == 8 { want } else { cut };
        reads(&rt, rt.alloc(), (number, body, want, want_of_cut))?;
    }
    Ok(())
}

/// Requests with a new name, in bytes worked out by hand from `linux/fuse.h`.
#[test]
fn reads_new_names(rt: HostRuntime) -> Result<(), Fail> {
    let cut = Operation::Malformed;
    let name = b"ab".as_slice();
    for (number, body, want) in [
        (
            8,
            b"\xa4\x81\0\0\x02\x01\0\0\x12\0\0\0\x09\x09\x09\x09ab\0".as_slice(),
            Operation::Mknod {
                mode: 0o100644,
                device: 0x102,
                umask: 0o22,
                name,
            },
        ),
        (
            9,
            b"\xed\x01\0\0\x12\0\0\0ab\0".as_slice(),
            Operation::Mkdir {
                mode: 0o755,
                umask: 0o22,
                name,
            },
        ),
        (
            13,
            b"\x01\x02\0\0\0\0\0\x80ab\0".as_slice(),
            Operation::Link {
                linked: 0x8000_0000_0000_0201,
                name,
            },
        ),
        (
            35,
            b"\x41\x80\0\0\xa4\x81\0\0\x12\0\0\0\0\0\0\0ab\0".as_slice(),
            Operation::Create {
                flags: 0x8041,
                mode: 0o100644,
                umask: 0o22,
                name,
            },
        ),
    ] {
        reads(&rt, rt.alloc(), (number, body, want, cut))?;
    }
    Ok(())
}

/// Requests with two names, in bytes worked out by hand from `linux/fuse.h`.
#[test]
fn reads_two_names(rt: HostRuntime) -> Result<(), Fail> {
    let cut = Operation::Malformed;
    let (old, new) = (b"ab".as_slice(), b"c".as_slice());
    for (number, body, want) in [
        (
            12,
            b"\x01\x02\0\0\0\0\0\x80ab\0c\0".as_slice(),
            Operation::Rename {
                to: 0x8000_0000_0000_0201,
                old,
                new,
            },
        ),
        (
            45,
            b"\x01\x02\0\0\0\0\0\x80\x01\0\0\0\x09\x09\x09\x09ab\0c\0".as_slice(),
            Operation::Rename2 {
                to: 0x8000_0000_0000_0201,
                flags: 1,
                old,
                new,
            },
        ),
        // One name alone.
        (12, b"\x01\x02\0\0\0\0\0\x80ab\0".as_slice(), cut),
        (
            45,
            b"\x01\x02\0\0\0\0\0\x80\x01\0\0\0\x09\x09\x09\x09ab\0".as_slice(),
            cut,
        ),
    ] {
        reads(&rt, rt.alloc(), (number, body, want, cut))?;
    }
    Ok(())
}
