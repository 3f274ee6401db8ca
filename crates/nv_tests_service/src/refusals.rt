//! Refusals of a session's calls, each where others would come behind it.

use crate::turns::{Line, are_as_alone};
use crate::worlds::SMALL;
use Words::{
    Auto, Create, Fast, List, Lookup, Mkdir, Mode, Read, Rename, Rmdir, Show, Size, Snap, Stat,
    Thorough, Unlink, Write,
};
use nv_base::Fault;
use nv_scenes::Row;
use nv_scenes_calls::words::{At, Want, Words};

const ROOT: At = (0, 1);

const FILE: At = (1, 1);

const DIRECTORY: At = (2, 1);

const EMPTY: At = (4, 1);

/// A slot of another generation, an empty one, and one past the last.
const OLDER: At = (1, 2);

const NONE: At = (7, 1);

const PAST: At = (99, 1);

/// A file, a directory with a file, and an empty directory.
const MADE: &[Words] = &[
    Create(ROOT, b"a"),
    Mkdir(ROOT, b"d"),
    Create(DIRECTORY, b"i"),
    Mkdir(ROOT, b"e"),
];

/// The bytes of the largest file, whose blocks have four.
const LARGEST: u64 = 4 * 65536;

/// One more byte than 1,024 pages have.
const LONG: &[u8] = &[b'a'; 4097];

/// Calls on one node or name.
const ONE_NODE: &[Line] = &[
    (Create(OLDER, b".."), Want::Refused(Fault::Stale)),
    (Create(NONE, b".."), Want::Refused(Fault::Stale)),
    (Create(PAST, b".."), Want::Refused(Fault::Stale)),
    (Create(FILE, b".."), Want::Refused(Fault::NotDirectory)),
    (Create(ROOT, b".."), Want::Refused(Fault::BadName)),
    (Create(ROOT, b"a"), Want::Refused(Fault::Exists)),
    (Mkdir(PAST, b".."), Want::Refused(Fault::Stale)),
    (Mkdir(FILE, b".."), Want::Refused(Fault::NotDirectory)),
    (Mkdir(ROOT, b"a/b"), Want::Refused(Fault::BadName)),
    (Mkdir(ROOT, b"d"), Want::Refused(Fault::Exists)),
    (Write(OLDER, LARGEST, LONG), Want::Refused(Fault::Stale)),
    (Write(ROOT, LARGEST, LONG), Want::Refused(Fault::NotFile)),
    (
        Write(FILE, LARGEST, LONG),
        Want::Refused(Fault::WriteTooBig),
    ),
    (Write(FILE, LARGEST, b"a"), Want::Refused(Fault::FileTooBig)),
    (
        Write(FILE, u64::MAX, b"a"),
        Want::Refused(Fault::FileTooBig),
    ),
    (Size(PAST, u64::MAX), Want::Refused(Fault::Stale)),
    (Size(ROOT, u64::MAX), Want::Refused(Fault::NotFile)),
    (Size(FILE, LARGEST + 1), Want::Refused(Fault::FileTooBig)),
    (Mode(NONE, 7), Want::Refused(Fault::Stale)),
    (Read(OLDER, 0, 1), Want::Refused(Fault::Stale)),
    (Read(ROOT, 0, 1), Want::Refused(Fault::NotFile)),
    (Stat(PAST), Want::Refused(Fault::Stale)),
    (List(NONE), Want::Refused(Fault::Stale)),
    (List(FILE), Want::Refused(Fault::NotDirectory)),
    (Lookup(OLDER, b".."), Want::Refused(Fault::Stale)),
    (Lookup(FILE, b".."), Want::Refused(Fault::NotDirectory)),
    (Lookup(ROOT, b".."), Want::Refused(Fault::BadName)),
    (Lookup(ROOT, b"z"), Want::Refused(Fault::Missing)),
    (Unlink(PAST, b".."), Want::Refused(Fault::Stale)),
    (Unlink(FILE, b".."), Want::Refused(Fault::NotDirectory)),
    (Unlink(ROOT, b".."), Want::Refused(Fault::BadName)),
    (Unlink(ROOT, b"z"), Want::Refused(Fault::Missing)),
    (Unlink(ROOT, b"d"), Want::Refused(Fault::NotFile)),
    (Rmdir(NONE, b".."), Want::Refused(Fault::Stale)),
    (Rmdir(FILE, b".."), Want::Refused(Fault::NotDirectory)),
    (Rmdir(ROOT, b".."), Want::Refused(Fault::BadName)),
    (Rmdir(ROOT, b"z"), Want::Refused(Fault::Missing)),
    (Rmdir(ROOT, b"a"), Want::Refused(Fault::NotDirectory)),
    (Rmdir(ROOT, b"d"), Want::Refused(Fault::NotEmpty)),
];

/// Renames: what is wrong with the first name comes before what is wrong with the second.
const RENAMES: &[Line] = &[
    (
        Rename(PAST, b"..", PAST, b".."),
        Want::Refused(Fault::Stale),
    ),
    (
        Rename(FILE, b"..", PAST, b".."),
        Want::Refused(Fault::NotDirectory),
    ),
    (
        Rename(ROOT, b"..", PAST, b".."),
        Want::Refused(Fault::BadName),
    ),
    (
        Rename(ROOT, b"z", PAST, b".."),
        Want::Refused(Fault::Missing),
    ),
    (Rename(ROOT, b"a", PAST, b".."), Want::Refused(Fault::Stale)),
    (
        Rename(ROOT, b"a", FILE, b".."),
        Want::Refused(Fault::NotDirectory),
    ),
    (
        Rename(ROOT, b"a", DIRECTORY, b".."),
        Want::Refused(Fault::BadName),
    ),
    (
        Rename(ROOT, b"e", DIRECTORY, b"i"),
        Want::Refused(Fault::MoveDirectory),
    ),
    (Rename(ROOT, b"a", ROOT, b"d"), Want::Refused(Fault::Exists)),
    (Rename(ROOT, b"d", ROOT, b"a"), Want::Refused(Fault::Exists)),
    (Rename(ROOT, b"d", ROOT, b"d"), Want::Nothing),
    (Rename(DIRECTORY, b"i", EMPTY, b"i"), Want::Nothing),
];

/// Calls on snapshots, of which four may live, and cleaners.
const SNAPSHOTS: &[Line] = &[
    (Words::Drop(1), Want::Refused(Fault::NoSnapshot)),
    (Show(1), Want::Refused(Fault::NoSnapshot)),
    (Snap, Want::Snapshot(1)),
    (Snap, Want::Snapshot(2)),
    (Snap, Want::Snapshot(3)),
    (Snap, Want::Snapshot(4)),
    (Snap, Want::Refused(Fault::TooManySnapshots)),
    (Words::Drop(5), Want::Refused(Fault::NoSnapshot)),
    (Words::Drop(2), Want::Nothing),
    (Words::Drop(2), Want::Refused(Fault::NoSnapshot)),
    (Show(2), Want::Refused(Fault::NoSnapshot)),
    (Fast(7), Want::Refused(Fault::Stale)),
    (Thorough(99), Want::Refused(Fault::Stale)),
    (Auto(u64::MAX), Want::Refused(Fault::Stale)),
];

/// Two inodes, and eight blocks of one byte, two of which are pages of logs. A page has two entries.
const TINY: Row = [8, 1, 1, 2, 2, 1, 1];

const FULL: &[Line] = &[
    (Create(ROOT, b"a"), Want::Made(FILE)),
    (Create(ROOT, b"a"), Want::Refused(Fault::Exists)),
    (Create(ROOT, b"b"), Want::Refused(Fault::NoInode)),
    (Mkdir(ROOT, b"b"), Want::Refused(Fault::NoInode)),
    (Write(FILE, 0, b"abcdefg"), Want::Refused(Fault::NoSpace)),
    (Write(FILE, 0, b"abcdef"), Want::Count(6)),
    (Write(FILE, 0, b"a"), Want::Refused(Fault::NoSpace)),
    (Mode(FILE, 7), Want::Refused(Fault::NoSpace)),
    (Size(FILE, 3), Want::Refused(Fault::NoSpace)),
    (Unlink(ROOT, b"a"), Want::Refused(Fault::NoSpace)),
    (
        Rename(ROOT, b"a", ROOT, b"b"),
        Want::Refused(Fault::NoSpace),
    ),
    (Read(FILE, 0, 9), Want::Bytes(b"abcdef")),
];

/// Calls of one session, behind others on a device.
type Turns = (Row, &'static [Words], &'static [Line]);

const TURNS: &[Turns] = &[
    (SMALL, MADE, ONE_NODE),
    (SMALL, MADE, RENAMES),
    (SMALL, MADE, SNAPSHOTS),
    (TINY, &[], FULL),
];

/// The refusals of a session are those of one actor, and have their causes: no clause says so.
#[test]
fn refusals_are_those_of_one_actor(rt: HostRuntime) {
    for (row, before, lines) in TURNS {
        are_as_alone(&rt, rt.alloc(), *row, before, lines);
    }
}
