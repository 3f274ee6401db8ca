//! What is drawn.

use nv_base::limits::NUMBER;
use nv_scenes::Row;
use nv_scenes::logs::Line;
use nv_scenes::logs::Says::{Bind, Directory, File, Gone, Mode, Size, Unbind, Write};

/// Sixteen blocks of four bytes on two CPUs, two entries a page, three inodes, two snapshots.
pub const DEVICE: Row = [16, 2, 4, 2, 3, 2, 1];

/// Numbers of blocks, each with its bytes.
pub type Blocks = &'static [(u64, &'static [u8])];

/// A slot: its generation, the blocks of its pages, where pages end, its entries, its tail, and its data blocks.
pub type Slot = (
    u64,
    Blocks,
    &'static [usize],
    &'static [Line],
    usize,
    Blocks,
);

/// What a journal has noted: two inodes with their tails, or none.
pub type Noted = &'static [(u64, u64)];

/// What is drawn: the slots, the journals, the living snapshots, the epoch and the last commit.
pub type Drawn = (&'static [Slot], &'static [Noted], &'static [u64], u64, u64);

/// No bytes but 0.
const NONE: &[u8] = &[0; 4];

const CLOSED: &[Noted] = &[&[], &[]];

// ---- slots of an image without a fault

const ROOT: Slot = (
    1,
    &[(0, NONE)],
    &[2],
    &[(0, 0, 1, Directory), (1, 0, 1, Bind("a", 1))],
    2,
    &[],
);

const TEXT: Slot = (
    1,
    &[(1, NONE)],
    &[2],
    &[(1, 1, 1, File), (2, 0, 2, Write(0, 10, 1, 3))],
    2,
    &[(10, b"abc\0")],
);

const EMPTY: Slot = (1, &[], &[], &[], 0, &[]);

const THREE: &[Slot] = &[ROOT, TEXT, EMPTY];

/// The last generation, without a page.
const LAST: Slot = (NUMBER, &[], &[], &[], 0, &[]);

/// A gone inode, of which nothing is held from epoch 2 on.
const GONE: Slot = (
    1,
    &[(3, NONE)],
    &[2],
    &[(2, 1, 2, Size(1)), (2, 2, 2, Gone)],
    2,
    &[],
);

/// The name is out of the one directory, whose tail has moved, and not yet in the other.
const MOVED_FROM: Slot = (
    1,
    &[(0, NONE), (4, NONE)],
    &[2, 4],
    &[
        (0, 0, 1, Directory),
        (1, 0, 1, Bind("d", 1)),
        (2, 0, 1, Bind("x", 2)),
        (3, 0, 2, Unbind("x")),
    ],
    4,
    &[],
);

const MOVED_TO: Slot = (
    1,
    &[(1, NONE)],
    &[2],
    &[(1, 1, 1, Directory), (3, 1, 2, Bind("y", 2))],
    1,
    &[],
);

const MOVED: Slot = (1, &[(2, NONE)], &[1], &[(2, 1, 1, File)], 1, &[]);

const HALF_MOVED: &[Slot] = &[MOVED_FROM, MOVED_TO, MOVED];

// ---- slots with a fault

const NO_GENERATION: Slot = (0, &[], &[], &[], 0, &[]);

const PAST_GENERATIONS: Slot = (NUMBER + 1, &[], &[], &[], 0, &[]);

const LAST_WITH_A_PAGE: Slot = (NUMBER, &[(3, NONE)], &[], &[], 0, &[]);

const SHORT_PAGE: Slot = (1, &[(3, b"abc")], &[], &[], 0, &[]);

const SHORT_BLOCK: Slot = (1, &[], &[], &[], 0, &[(3, b"abc")]);

const PAST_THE_DEVICE: Slot = (1, &[(16, NONE)], &[], &[], 0, &[]);

const TAKEN: Slot = (1, &[], &[], &[], 0, &[(10, NONE)]);

const TWO_FAULTS: Slot = (1, &[(16, NONE)], &[], &[], 1, &[]);

const EMPTY_PAGE: Slot = (1, &[(3, NONE)], &[0], &[], 0, &[]);

const FULL_PAGE: Slot = (
    1,
    &[(3, NONE)],
    &[3],
    &[(2, 1, 2, File), (2, 2, 2, Mode(1)), (2, 3, 2, Mode(2))],
    3,
    &[],
);

const UNENDED: Slot = (
    1,
    &[(3, NONE)],
    &[1],
    &[(2, 1, 2, File), (2, 2, 2, Mode(1))],
    2,
    &[],
);

const UNPAGED: Slot = (1, &[], &[1], &[(2, 1, 2, File)], 1, &[]);

const PAST_TAIL: Slot = (1, &[(3, NONE)], &[], &[], 1, &[]);

const FALLING_IDS: Slot = (
    1,
    &[(3, NONE)],
    &[2],
    &[(2, 2, 2, File), (2, 1, 2, Mode(1))],
    2,
    &[],
);

const FALLING_EPOCHS: Slot = (
    1,
    &[(3, NONE)],
    &[2],
    &[(2, 1, 2, File), (2, 2, 1, Mode(1))],
    2,
    &[],
);

/// The entry does not count.
const LATER_COMMIT: Slot = (1, &[(3, NONE)], &[1], &[(3, 0, 2, File)], 0, &[]);

const BEHIND_A_GONE: Slot = (
    1,
    &[(3, NONE)],
    &[2],
    &[(2, 1, 2, Gone), (2, 2, 2, Mode(1))],
    2,
    &[],
);

/// Snapshot 1 holds the size.
const HELD_GONE: Slot = (
    1,
    &[(3, NONE)],
    &[2],
    &[(1, 2, 1, Size(1)), (2, 2, 2, Gone)],
    2,
    &[],
);

const UNSHAPED: Slot = (1, &[(3, NONE)], &[1], &[(2, 1, 2, Mode(1))], 1, &[]);

const UNNAMED: Slot = (1, &[(3, NONE)], &[1], &[(2, 1, 2, File)], 1, &[]);

const FILE_ROOT: Slot = (1, &[(0, NONE)], &[1], &[(0, 0, 1, File)], 1, &[]);

const TWO_NAMES: Slot = (
    1,
    &[(0, NONE), (4, NONE)],
    &[2, 3],
    &[
        (0, 0, 1, Directory),
        (1, 0, 1, Bind("a", 1)),
        (1, 2, 1, Bind("b", 1)),
    ],
    3,
    &[],
);

const NAMED_ROOT: Slot = (
    1,
    &[(0, NONE), (4, NONE)],
    &[2, 3],
    &[
        (0, 0, 1, Directory),
        (1, 0, 1, Bind("a", 1)),
        (1, 2, 1, Bind("b", 0)),
    ],
    3,
    &[],
);

const WITHOUT_A_BLOCK: Slot = (
    1,
    &[(1, NONE)],
    &[2],
    &[(1, 1, 1, File), (2, 0, 2, Write(0, 10, 1, 3))],
    2,
    &[],
);

const ONE_BLOCK_FOR_TWO: Slot = (
    1,
    &[(1, NONE), (5, NONE)],
    &[2, 3],
    &[
        (1, 1, 1, File),
        (2, 0, 2, Write(0, 10, 1, 4)),
        (2, 1, 2, Write(1, 10, 1, 8)),
    ],
    3,
    &[(10, b"abcd")],
);

const BYTE_PAST_THE_SIZE: Slot = (
    1,
    &[(1, NONE)],
    &[2],
    &[(1, 1, 1, File), (2, 0, 2, Write(0, 10, 1, 3))],
    2,
    &[(10, b"abcd")],
);

const PAGE_PAST_THE_SIZE: Slot = (
    1,
    &[(1, NONE)],
    &[2],
    &[(1, 1, 1, File), (2, 0, 2, Write(1, 10, 1, 3))],
    2,
    &[(10, b"abc\0")],
);

/// Snapshot 1 holds the page that block 10 had.
const WITHOUT_A_HELD_BLOCK: Slot = (
    1,
    &[(1, NONE), (5, NONE)],
    &[2, 3],
    &[
        (1, 1, 1, File),
        (1, 2, 1, Write(0, 10, 1, 3)),
        (2, 0, 2, Write(0, 11, 1, 3)),
    ],
    3,
    &[(11, b"abc\0")],
);

// ---- images

/// Images without a fault.
pub const SOUND: &[Drawn] = &[
    (THREE, CLOSED, &[1], 2, 2),
    (&[ROOT, TEXT, LAST], CLOSED, &[1], 2, 2),
    (&[ROOT, TEXT, GONE], CLOSED, &[1], 2, 2),
    (&[ROOT, WITHOUT_A_HELD_BLOCK, EMPTY], CLOSED, &[], 2, 2),
    // The write is cut.
    (THREE, &[&[(0, 2), (1, 1)], &[]], &[1], 2, 2),
    // Half a journal: nothing is moved.
    (HALF_MOVED, &[&[(0, 3), (1, 1)], &[]], &[1], 2, 3),
];

/// Counts that are not those of the device, and an epoch or a last commit out of its range.
pub const WRONG_NUMBERS: &[Drawn] = &[
    (&[ROOT, TEXT], CLOSED, &[1], 2, 2),
    (THREE, &[&[]], &[1], 2, 2),
    (THREE, CLOSED, &[1, 2, 3], 4, 2),
    (THREE, CLOSED, &[], 0, 2),
    (THREE, CLOSED, &[1], NUMBER + 1, 2),
    (THREE, CLOSED, &[1], 2, NUMBER + 1),
];

/// A generation out of its range, the last one with a page, and blocks that are not of the device's size.
pub const WRONG_SLOTS: &[Drawn] = &[
    (&[ROOT, TEXT, NO_GENERATION], CLOSED, &[1], 2, 2),
    (&[ROOT, TEXT, PAST_GENERATIONS], CLOSED, &[1], 2, 2),
    (&[ROOT, TEXT, LAST_WITH_A_PAGE], CLOSED, &[1], 2, 2),
    (&[ROOT, TEXT, SHORT_PAGE], CLOSED, &[1], 2, 2),
    (&[ROOT, TEXT, SHORT_BLOCK], CLOSED, &[1], 2, 2),
];

pub const WRONG_BLOCKS: &[Drawn] = &[
    (&[ROOT, TEXT, PAST_THE_DEVICE], CLOSED, &[1], 2, 2),
    (&[ROOT, TEXT, TAKEN], CLOSED, &[1], 2, 2),
    (&[ROOT, TEXT, TWO_FAULTS], CLOSED, &[1], 2, 2),
];

pub const WRONG_CHAINS: &[Drawn] = &[
    (&[ROOT, TEXT, EMPTY_PAGE], CLOSED, &[1], 2, 2),
    (&[ROOT, TEXT, FULL_PAGE], CLOSED, &[1], 2, 2),
    (&[ROOT, TEXT, UNENDED], CLOSED, &[1], 2, 2),
    (&[ROOT, TEXT, UNPAGED], CLOSED, &[1], 2, 2),
    (&[ROOT, TEXT, PAST_TAIL], CLOSED, &[1], 2, 2),
];

pub const WRONG_ENTRIES: &[Drawn] = &[
    (&[ROOT, TEXT, FALLING_IDS], CLOSED, &[1], 2, 2),
    (&[ROOT, TEXT, FALLING_EPOCHS], CLOSED, &[1], 2, 2),
    (&[ROOT, TEXT, LATER_COMMIT], CLOSED, &[1], 2, 2),
    (THREE, CLOSED, &[], 1, 2),
];

/// A log is not of its shape.
pub const WRONG_LOGS: &[Drawn] = &[
    (&[ROOT, TEXT, BEHIND_A_GONE], CLOSED, &[1], 2, 2),
    (&[ROOT, TEXT, HELD_GONE], CLOSED, &[1], 2, 2),
    (&[ROOT, TEXT, UNSHAPED], CLOSED, &[1], 2, 2),
];

/// Nodes form no tree.
pub const WRONG_TREES: &[Drawn] = &[
    (HALF_MOVED, CLOSED, &[1], 2, 3),
    (&[ROOT, TEXT, UNNAMED], CLOSED, &[1], 2, 2),
    (&[ROOT, EMPTY, EMPTY], CLOSED, &[1], 2, 2),
    (&[FILE_ROOT, EMPTY, EMPTY], CLOSED, &[1], 2, 2),
    (&[TWO_NAMES, TEXT, EMPTY], CLOSED, &[1], 2, 2),
    (&[NAMED_ROOT, TEXT, EMPTY], CLOSED, &[1], 2, 2),
    // At the snapshot there is no root.
    (THREE, CLOSED, &[0], 2, 2),
    // The name is cut.
    (THREE, &[&[(0, 1), (1, 2)], &[]], &[1], 2, 2),
];

pub const WRONG_RUNS: &[Drawn] = &[
    (&[ROOT, WITHOUT_A_BLOCK, EMPTY], CLOSED, &[1], 2, 2),
    (&[ROOT, WITHOUT_A_HELD_BLOCK, EMPTY], CLOSED, &[1], 2, 2),
    (&[ROOT, ONE_BLOCK_FOR_TWO, EMPTY], CLOSED, &[1], 2, 2),
    (&[ROOT, BYTE_PAST_THE_SIZE, EMPTY], CLOSED, &[1], 2, 2),
    (&[ROOT, PAGE_PAST_THE_SIZE, EMPTY], CLOSED, &[1], 2, 2),
];

pub const WRONG_NOTES: &[Drawn] = &[
    (THREE, &[&[(0, 3), (1, 2)], &[]], &[1], 2, 2),
    (THREE, &[&[(0, 2), (5, 0)], &[]], &[1], 2, 2),
    (THREE, &[&[(0, 2), (1, 2)], &[(0, 2), (1, 2)]], &[1], 2, 2),
    // The second inode has no page, so that the journal does not cut the root.
    (THREE, &[&[(0, 0), (2, 0)], &[]], &[1], 2, 2),
];

pub const WRONG_SNAPSHOTS: &[Drawn] = &[
    (THREE, CLOSED, &[1, 1], 2, 2),
    (THREE, CLOSED, &[2], 2, 2),
];
