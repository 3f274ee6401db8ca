//! Each call once, and sixteen calls in turn, on the worked world of names.

use crate::turns::{Line, are_as_alone};
use crate::worlds::SMALL;
use Words::{
    Auto, Create, Drain, Fast, List, Lookup, Mkdir, Mode, Read, Rename, Rmdir, Show, Size, Snap,
    Stat, Thorough, Unlink, Write,
};
use nv_base::{Fault, Kind};
use nv_scenes_calls::words::{At, Want, Words};

const ROOT: At = (0, 1);

/// The first directory, which goes, and then the file in its place.
const FIRST: At = (1, 1);

const AGAIN: At = (1, 2);

const FILE: At = (2, 1);

const DIRECTORY: At = (3, 1);

const INNER: At = (4, 1);

/// The calls that make the worked world of names.
const BEFORE: &[Words] = &[
    Mkdir(ROOT, b"d"),
    Create(FIRST, b"x"),
    Mkdir(ROOT, b"f"),
    Rename(ROOT, b"d", ROOT, b"e"),
    Rename(FIRST, b"x", ROOT, b"x"),
    Rmdir(ROOT, b"e"),
];

/// Each call once. The second page of the file is written anew with zeros when its size is cut inside it.
const EACH: &[Line] = &[
    (Create(ROOT, b"a"), Want::Made(AGAIN)),
    (Mkdir(DIRECTORY, b"g"), Want::Made(INNER)),
    (Write(FILE, 3, b"abcdefghij"), Want::Count(10)),
    (Read(FILE, 0, 20), Want::Bytes(b"\0\0\0abcdefghij")),
    (Size(FILE, 5), Want::Nothing),
    (Mode(AGAIN, 7), Want::Nothing),
    (Stat(FILE), Want::Stat(Kind::File, 420, 5, 10)),
    (Lookup(DIRECTORY, b"g"), Want::Made(INNER)),
    (Snap, Want::Snapshot(1)),
    (Rename(ROOT, b"x", DIRECTORY, b"y"), Want::Nothing),
    (Unlink(ROOT, b"a"), Want::Nothing),
    (Rmdir(DIRECTORY, b"g"), Want::Nothing),
    (List(DIRECTORY), Want::Names(&[(b"y", 2)])),
    (
        Show(1),
        Want::Tree(&[
            (b"", b""),
            (b"f", b""),
            (b"g", b""),
            (b"x", b"\0\0\0ab"),
            (b"a", b""),
        ]),
    ),
    (Words::Drop(1), Want::Nothing),
    // the name that moved; of a file and of a directory the name, the kind, the mode and the size
    (Drain(20), Want::Count(9)),
    // the root's log has three pages, and nothing needs the second
    (Fast(0), Want::Cleaned(false, 4, 1)),
    (Thorough(3), Want::Cleaned(true, 1, 0)),
    (Auto(2), Want::Cleaned(false, 0, 0)),
];

/// Each call of a session is made with the answer that one actor has, and leaves the same world: no clause says so.
#[test]
fn each_call_once(rt: HostRuntime) {
    are_as_alone(&rt, rt.alloc(), SMALL, BEFORE, EACH);
}
