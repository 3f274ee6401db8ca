//! Rows of calls, each made where others were made before it, with its answer and the steps of a world that take memory
//! for it.

use crate::words::{At, Want, Words};
use Words::{
    Auto, Create, Drain, Fast, List, Lookup, Mkdir, Mode, Read, Rename, Rmdir, Show, Size, Snap,
    Stat, Thorough, Unlink, Write,
};
use nv_base::{Fault, Kind};

/// A step that grows something, and how many steps the call makes where it is refused memory there: the steps up to
/// that one, and then those that give back what the call has.
pub type Growth = (&'static str, u64);

/// What it shows; the calls before it, which another actor makes; a call, its answer, and which of its steps grow.
pub type Row = (
    &'static str,
    &'static [Words],
    Words,
    Want,
    &'static [Growth],
);

/// The root, and nodes of generation 1.
pub const ROOT: At = (0, 1);

pub const ONE: At = (1, 1);

pub const TWO: At = (2, 1);

/// Four slots. A page of a log has four entries.
pub const ROOMY: nv_scenes::Row = [24, 2, 4, 4, 4, 2, 2];

/// Of a new node: number, two locks, check, pages, ready, enter. Back go two unlocks and the number, and after
/// the pages those too.
const NEW_NODE: &[Growth] = &[("check", 7), ("ready", 10), ("enter", 11)];

/// Of a change of one node: a lock, check, one taking, ready, enter. Back go the unlock, and then the blocks.
const ONE_TAKING: &[Growth] = &[("check", 3), ("ready", 6), ("enter", 7)];

const TWO_TAKINGS: &[Growth] = &[("check", 3), ("ready", 7), ("enter", 8)];

/// A check that wants no block grows nothing.
const NO_TAKING: &[Growth] = &[("ready", 4), ("enter", 5)];

/// Of a visit.
const VISIT: &[Growth] = &[("visit", 1)];

/// An enter grows where a snapshot lives and the call may kill more parts than there are spare nodes for. No node is made
/// before a snapshot lives, so the rows that name `enter` make one last.
const FOUR_PAGES: &[u8] = b"abcdefghijklmnop";

/// Files and directories that are made, and bytes.
pub const NODES: &[Row] = &[
    (
        "create",
        &[Snap],
        Create(ROOT, b"a"),
        Want::Made(ONE),
        NEW_NODE,
    ),
    (
        "mkdir",
        &[Snap],
        Mkdir(ROOT, b"d"),
        Want::Made(ONE),
        NEW_NODE,
    ),
    (
        "write",
        &[Create(ROOT, b"a"), Snap],
        Write(ONE, 2, FOUR_PAGES),
        Want::Count(16),
        ONE_TAKING,
    ),
    // the file's log is full
    (
        "write with a log page",
        &[
            Create(ROOT, b"a"),
            Write(ONE, 0, b"a"),
            Write(ONE, 9, b"b"),
            Write(ONE, 0, b"c"),
            Snap,
        ],
        Write(ONE, 6, FOUR_PAGES),
        Want::Count(16),
        TWO_TAKINGS,
    ),
    // inside a page, past which there are others
    (
        "size",
        &[Create(ROOT, b"a"), Write(ONE, 0, FOUR_PAGES), Snap],
        Size(ONE, 2),
        Want::Nothing,
        ONE_TAKING,
    ),
    // a log page alone, and no snapshot
    (
        "size with a log page",
        &[
            Create(ROOT, b"a"),
            Write(ONE, 0, FOUR_PAGES),
            Write(ONE, 0, b"a"),
            Write(ONE, 0, b"b"),
        ],
        Size(ONE, 0),
        Want::Nothing,
        &[("check", 3), ("ready", 6)],
    ),
    ("mode", &[Snap], Mode(ROOT, 7), Want::Nothing, NO_TAKING),
];

/// Names that go and move, where the file has pages.
pub const NAMES: &[Row] = &[
    // one look, two locks, check, ready, enter
    (
        "unlink",
        &[Create(ROOT, b"a"), Write(ONE, 0, FOUR_PAGES), Snap],
        Unlink(ROOT, b"a"),
        Want::Nothing,
        &[("ready", 7), ("enter", 8)],
    ),
    // the same, where no snapshot lives
    (
        "rmdir",
        &[Mkdir(ROOT, b"d")],
        Rmdir(ROOT, b"d"),
        Want::Nothing,
        &[("ready", 7)],
    ),
    // one look, three locks, check, pages, ready, enter
    (
        "rename in one directory",
        &[
            Create(ROOT, b"a"),
            Create(ROOT, b"b"),
            Write(TWO, 0, FOUR_PAGES),
            Snap,
        ],
        Rename(ROOT, b"a", ROOT, b"b"),
        Want::Nothing,
        &[("check", 8), ("ready", 11), ("enter", 12)],
    ),
    // two looks, three locks, check, ready, where no snapshot lives
    (
        "rename",
        &[Create(ROOT, b"a"), Mkdir(ROOT, b"d")],
        Rename(ROOT, b"a", TWO, b"b"),
        Want::Nothing,
        &[("ready", 10)],
    ),
    // two looks, four locks, check, ready, enter
    (
        "rename over a file",
        &[
            Create(ROOT, b"a"),
            Mkdir(ROOT, b"d"),
            Create(TWO, b"b"),
            Write((3, 1), 0, FOUR_PAGES),
            Snap,
        ],
        Rename(ROOT, b"a", TWO, b"b"),
        Want::Nothing,
        &[("ready", 12), ("enter", 13)],
    ),
];

/// Calls that change nothing. Those that show no list take no memory.
pub const VISITS: &[Row] = &[
    (
        "read",
        &[Create(ROOT, b"a"), Write(ONE, 2, FOUR_PAGES)],
        Read(ONE, 1, 30),
        Want::Bytes(b"\0abcdefghijklmnop"),
        VISIT,
    ),
    (
        "list",
        &[Create(ROOT, b"a"), Mkdir(ROOT, b"d")],
        List(ROOT),
        Want::Names(&[(b"a", 1), (b"d", 2)]),
        VISIT,
    ),
    (
        "stat",
        &[Create(ROOT, b"a")],
        Stat(ROOT),
        Want::Stat(Kind::Dir, 493, 0, 1),
        &[],
    ),
    (
        "lookup",
        &[Create(ROOT, b"a")],
        Lookup(ROOT, b"a"),
        Want::Made(ONE),
        &[],
    ),
    (
        "write of no bytes",
        &[Create(ROOT, b"a")],
        Write(ONE, 3, b""),
        Want::Count(0),
        &[],
    ),
    (
        "rename onto its own place",
        &[Create(ROOT, b"a")],
        Rename(ROOT, b"a", ROOT, b"a"),
        Want::Nothing,
        &[],
    ),
];

/// Calls on snapshots. A snapshot is made and dropped without memory; a drain makes room for a block before its first
/// pick, and a show takes memory at each visit. Behind that comes the unpin.
pub const SNAPSHOTS: &[Row] = &[
    ("snap", &[Create(ROOT, b"a")], Snap, Want::Snapshot(1), &[]),
    (
        "drop",
        &[
            Create(ROOT, b"a"),
            Write(ONE, 0, FOUR_PAGES),
            Snap,
            Snap,
            Write(ONE, 3, b"zz"),
        ],
        Words::Drop(2),
        Want::Nothing,
        &[],
    ),
    (
        "drain",
        &[
            Create(ROOT, b"a"),
            Write(ONE, 0, FOUR_PAGES),
            Snap,
            Write(ONE, 3, b"zz"),
            Words::Drop(1),
        ],
        Drain(9),
        Want::Count(3),
        &[("pick", 1)],
    ),
    (
        "drain of nothing",
        &[Snap],
        Drain(1),
        Want::Count(0),
        &[("pick", 1)],
    ),
    (
        "show",
        &[
            Mkdir(ROOT, b"d"),
            Create(ONE, b"a"),
            Write(TWO, 0, FOUR_PAGES),
            Snap,
            Write(TWO, 3, b"zz"),
            Create(ROOT, b"b"),
        ],
        Show(1),
        Want::Tree(&[(b"", b""), (b"d", b""), (b"a", FOUR_PAGES)]),
        &[("first visit", 3), ("second visit", 4), ("third visit", 5)],
    ),
];

/// Of a cleaner: a lock, and the planning, which walks the log and makes room for pages. Back goes the unlock.
const PLANNED: &[Growth] = &[("plan_cleaning", 3)];

/// Cleaners of the root's log. Behind the planning none takes memory.
pub const CLEANERS: &[Row] = &[
    // the page of the modes 4 to 7 goes
    (
        "fast",
        &[
            Mode(ROOT, 1),
            Mode(ROOT, 2),
            Mode(ROOT, 3),
            Mode(ROOT, 4),
            Mode(ROOT, 5),
            Mode(ROOT, 6),
            Mode(ROOT, 7),
            Mode(ROOT, 8),
        ],
        Fast(0),
        Want::Cleaned(false, 4, 1),
        PLANNED,
    ),
    // the first mode goes
    (
        "thorough",
        &[Mode(ROOT, 1), Mode(ROOT, 2)],
        Thorough(0),
        Want::Cleaned(true, 1, 0),
        PLANNED,
    ),
    // two of five would stay, and fit one page; and two of two
    (
        "auto as thorough",
        &[Mode(ROOT, 1), Mode(ROOT, 2), Mode(ROOT, 3), Mode(ROOT, 4)],
        Auto(0),
        Want::Cleaned(true, 3, 1),
        PLANNED,
    ),
    (
        "auto as fast",
        &[Mode(ROOT, 1)],
        Auto(0),
        Want::Cleaned(false, 0, 0),
        PLANNED,
    ),
    (
        "no inode",
        &[],
        Thorough(2),
        Want::Refused(Fault::Stale),
        &[],
    ),
];
