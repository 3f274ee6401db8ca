//! Replies.

ghost use Rattle.std.specs.Prelude.{◌<◌, ◌^◌};
ghost use Rattle.nv_fuse.specs.Replies.{reply_length};

use crate::compare::same_for;
use nv_fuse::{
    Agreement, Attributes, Entry, Errno, Listed, ListedKind, OpenFile, Reply, Statistics,
};
use std::alloc::Global;
use std::process::Abort;
use std::test::Fail;

const ATTRIBUTES: Attributes = Attributes {
    inode: 1,
    size: 2,
    blocks: 3,
    accessed: 4,
    modified: 5,
    changed: 6,
    accessed_nanoseconds: 7,
    modified_nanoseconds: 8,
    changed_nanoseconds: 9,
    mode: 0o100644,
    links: 10,
    user: 11,
    group: 12,
    device: 13,
    block_size: 4096,
};

const ENTRY: Entry = Entry {
    node: 0x0102_0304_0506_0708,
    generation: 14,
    name_valid: 3600,
    attributes_valid: 60,
    name_valid_nanoseconds: 15,
    attributes_valid_nanoseconds: 16,
    attributes: ATTRIBUTES,
};

/// `fuse_attr`, 88 bytes.
const ATTRIBUTE_BYTES: &[u8; 88] = b"\x01\0\0\0\0\0\0\0\x02\0\0\0\0\0\0\0\x03\0\0\0\0\0\0\0\
    \x04\0\0\0\0\0\0\0\x05\0\0\0\0\0\0\0\x06\0\0\0\0\0\0\0\
    \x07\0\0\0\x08\0\0\0\x09\0\0\0\xa4\x81\0\0\x0a\0\0\0\x0b\0\0\0\x0c\0\0\0\x0d\0\0\0\0\x10\0\0\0\0\0\0";

/// `fuse_entry_out` before its attributes, 40 bytes.
const ENTRY_BYTES: &[u8; 40] =
    b"\x08\x07\x06\x05\x04\x03\x02\x01\x0e\0\0\0\0\0\0\0\x10\x0e\0\0\0\0\0\0\
    \x3c\0\0\0\0\0\0\0\x0f\0\0\0\x10\0\0\0";

/// `fuse_open_out`, 16 bytes.
const OPEN_BYTES: &[u8; 16] = b"\x05\0\0\0\0\0\0\0\x02\0\0\0\0\0\0\0";

const OPENED: OpenFile = OpenFile { file: 5, flags: 2 };

/// The number of the requests: the bytes 1 to 8.
const UNIQUE: u64 = 0x0807_0605_0403_0201;

/// Asserts that a reply's bytes are those that its header begins with, its number and its parts, behind what was there.
fn has_bytes(
    rt: &impl Abort,
    alloc: Global,
    reply: &Reply<'_>,
    head: &[u8],
    parts: [&[u8]; 3],
) -> Result<(), Fail>
    requires { reply_length reply.now < 2 ^ 32 }
{
    let mut want = Vec::from_slice(alloc, b"before".as_slice())?;
    want.extend_from_slice(head)?;
    want.extend_from_slice(b"\x01\x02\x03\x04\x05\x06\x07\x08".as_slice())?;
    for part in parts {
        want.extend_from_slice(part)?;
    }
    let mut found = Vec::from_slice(alloc, b"before".as_slice())?;
    reply.append_to(UNIQUE, &mut found)?;
    same_for(rt, reply, found.as_slice(), want.as_slice());
    same_for(rt, reply, reply.length() as usize + 6, want.len());
    Ok(())
}

/// Replies without fields, in bytes worked out by hand from `linux/fuse.h`.
#[test]
fn replies_without_fields_have_their_bytes(rt: HostRuntime) -> Result<(), Fail> {
    let alloc = rt.alloc();
    let none = b"".as_slice();
    let parts = [none, none, none];
    let head = b"\x10\0\0\0\0\0\0\0".as_slice();
    has_bytes(&rt, alloc, &Reply::Done, head, parts)?;
    let missing = Reply::Refused {
        error: Errno::Missing,
    };
    let head = b"\x10\0\0\0\xfe\xff\xff\xff".as_slice();
    has_bytes(&rt, alloc, &missing, head, parts)?;
    let stale = Reply::Refused {
        error: Errno::Stale,
    };
    let head = b"\x10\0\0\0\x8c\xff\xff\xff".as_slice();
    has_bytes(&rt, alloc, &stale, head, parts)?;
    let bytes = b"abc".as_slice();
    let head = b"\x13\0\0\0\0\0\0\0".as_slice();
    has_bytes(
        &rt,
        alloc,
        &Reply::Contents { bytes },
        head,
        [bytes, none, none],
    )
}

/// Replies on nodes, in bytes worked out by hand from `linux/fuse.h`.
#[test]
fn replies_on_nodes_have_their_bytes(rt: HostRuntime) -> Result<(), Fail> {
    let alloc = rt.alloc();
    let none = b"".as_slice();
    let (entry, attributes) = (ENTRY_BYTES.as_slice(), ATTRIBUTE_BYTES.as_slice());
    let head = b"\x90\0\0\0\0\0\0\0".as_slice();
    has_bytes(
        &rt,
        alloc,
        &Reply::Found(ENTRY),
        head,
        [entry, attributes, none],
    )?;
    let created = Reply::Created {
        entry: ENTRY,
        opened: OPENED,
    };
    let head = b"\xa0\0\0\0\0\0\0\0".as_slice();
    has_bytes(
        &rt,
        alloc,
        &created,
        head,
        [entry, attributes, OPEN_BYTES.as_slice()],
    )?;
    let node = Reply::Node {
        valid: 60,
        valid_nanoseconds: 17,
        attributes: ATTRIBUTES,
    };
    let head = b"\x78\0\0\0\0\0\0\0".as_slice();
    let times = b"\x3c\0\0\0\0\0\0\0\x11\0\0\0\0\0\0\0".as_slice();
    has_bytes(&rt, alloc, &node, head, [times, attributes, none])
}

/// Replies on files, in bytes worked out by hand from `linux/fuse.h`.
#[test]
fn replies_on_files_have_their_bytes(rt: HostRuntime) -> Result<(), Fail> {
    let alloc = rt.alloc();
    let none = b"".as_slice();
    let head = b"\x20\0\0\0\0\0\0\0".as_slice();
    has_bytes(
        &rt,
        alloc,
        &Reply::Opened(OPENED),
        head,
        [OPEN_BYTES.as_slice(), none, none],
    )?;
    let head = b"\x18\0\0\0\0\0\0\0".as_slice();
    let written = b"\x02\0\x01\0\0\0\0\0".as_slice();
    has_bytes(
        &rt,
        alloc,
        &Reply::Written { size: 0x1_0002 },
        head,
        [written, none, none],
    )
}

/// Replies that tell versions and space, in bytes worked out by hand from `linux/fuse.h`.
#[test]
fn replies_tell_versions_and_space(rt: HostRuntime) -> Result<(), Fail> {
    let agreed = Reply::Agreed(Agreement {
        major: 7,
        minor: 31,
        max_readahead: 0x2_0000,
        flags: 0x40_0021,
        max_background: 64,
        congestion_threshold: 48,
        max_write: 0x10_0000,
        time_granularity: 1,
        max_pages: 256,
        map_alignment: 3,
    });
    let space = Reply::Space(Statistics {
        blocks: 1,
        free_blocks: 2,
        available_blocks: 3,
        inodes: 4,
        free_inodes: 5,
        block_size: 4096,
        name_length: 255,
        fragment_size: 512,
    });
    for (row, reply, want) in [
        (
            1,
            agreed,
            b"\x50\0\0\0\0\0\0\0\x01\x02\x03\x04\x05\x06\x07\x08\
            \x07\0\0\0\x1f\0\0\0\0\0\x02\0\x21\0\x40\0\x40\0\x30\0\0\0\x10\0\x01\0\0\0\0\x01\x03\0\
            \0\0\0\0\0\0\0\0\0\0\0\0\0\0\0\0\0\0\0\0\0\0\0\0\0\0\0\0\0\0\0\0"
                .as_slice(),
        ),
        (
            2,
            space,
            b"\x60\0\0\0\0\0\0\0\x01\x02\x03\x04\x05\x06\x07\x08\
            \x01\0\0\0\0\0\0\0\x02\0\0\0\0\0\0\0\x03\0\0\0\0\0\0\0\x04\0\0\0\0\0\0\0\x05\0\0\0\0\0\0\0\
            \0\x10\0\0\xff\0\0\0\0\x02\0\0\0\0\0\0\
            \0\0\0\0\0\0\0\0\0\0\0\0\0\0\0\0\0\0\0\0\0\0\0\0"
                .as_slice(),
        ),
    ] {
        let mut found = Vec::new(rt.alloc());
        reply.append_to(UNIQUE, &mut found)?;
        same_for(&rt, &row, found.as_slice(), want);
    }
    Ok(())
}

/// Listed names, in bytes worked out by hand from `linux/fuse.h`.
#[test]
fn names_are_listed_while_there_is_room(rt: HostRuntime) -> Result<(), Fail> {
    let mut found = Vec::new(rt.alloc());
    // 24 bytes each, and the name filled up to eight or sixteen.
    for (name, kind, room, fits, len) in [
        (b"a".as_slice(), ListedKind::Directory, 31, false, 0),
        (b"a".as_slice(), ListedKind::Directory, 32, true, 32),
        (b"12345678".as_slice(), ListedKind::File, 63, false, 32),
        (b"12345678".as_slice(), ListedKind::File, 64, true, 64),
        (b"123456789".as_slice(), ListedKind::File, 103, false, 64),
        (b"123456789".as_slice(), ListedKind::File, 104, true, 104),
        (b"".as_slice(), ListedKind::File, 128, true, 128),
        (b"".as_slice(), ListedKind::File, 0, false, 128),
    ] {
        let listed = Listed {
            inode: 9,
            offset: 3,
            kind,
            name,
        };
        same_for(&rt, &len, listed.append_to(room, &mut found)?, fits);
        same_for(&rt, &len, found.len(), len);
    }
    let want = b"\x09\0\0\0\0\0\0\0\x03\0\0\0\0\0\0\0\x01\0\0\0\x04\0\0\0a\0\0\0\0\0\0\0\
        \x09\0\0\0\0\0\0\0\x03\0\0\0\0\0\0\0\x08\0\0\0\x08\0\0\012345678\
        \x09\0\0\0\0\0\0\0\x03\0\0\0\0\0\0\0\x09\0\0\0\x08\0\0\0123456789\0\0\0\0\0\0\0\
        \x09\0\0\0\0\0\0\0\x03\0\0\0\0\0\0\0\0\0\0\0\x08\0\0\0";
    same_for(&rt, &"all", found.as_slice(), want.as_slice());
    Ok(())
}
