//! The limits that hold for every geometry, call and name.

ghost use Rattle.std.specs.Prelude.{◌≡◌, ◌^◌, max, min};
ghost use Rattle.nv_base.specs.declared.limits.TheConstants.{ACTORS, BLOCKS, BLOCK_BYTES, CPUS, DRAIN, FILE_PAGES, INODES, LEAST_BLOCKS, LEAST_PAGE_ENTRIES, LOCK_ROUNDS, MODE, NAME_BYTES, NUMBER, PAGE_ENTRIES, PINS, SNAPS, WRITE_PAGES};

/// The most bytes of a block.
pub const BLOCK_BYTES: u64 = 4_096;

/// The fewest entries that a log page may hold.
pub const LEAST_PAGE_ENTRIES: u64 = 2;

/// The most entries that a log page may hold.
pub const PAGE_ENTRIES: u64 = 63;

/// The fewest blocks of a device.
pub const LEAST_BLOCKS: u64 = 2;

/// The most blocks of a device.
pub const BLOCKS: u64 = 1_048_576;

/// The most CPUs, each of which has a free list.
pub const CPUS: u64 = 64;

/// The most inodes.
pub const INODES: u64 = 65_536;

/// The most living snapshots.
pub const SNAPS: u64 = 1_024;

/// The most actors, and the most seats of a service.
pub const ACTORS: u64 = 64;

/// The most pages of a file. A page is one block.
pub const FILE_PAGES: u32 = 65_536;

/// The most pages that one write touches.
pub const WRITE_PAGES: u64 = 1_024;

/// The most bytes of a name.
pub const NAME_BYTES: usize = 255;

/// The greatest mode.
pub const MODE: u16 = 4_095;

/// The most readers that pin one snapshot at a time.
pub const PINS: u32 = 64;

/// How many rounds of looking names up and locking a call makes: once so many have failed, since another call
/// bound one of its names anew in each, the call is contended.
pub const LOCK_ROUNDS: u64 = 8;

/// The most records that one drain releases.
pub const DRAIN: u64 = 1_048_576;

/// The greatest epoch, commit number, generation and version: 2 to the power of 62.
pub const NUMBER: u64 = 4_611_686_018_427_387_904;

/// Contracts and definitions name each limit and not its value. These are the values.
/// Each limit has its value.
pub fn limits_have_their_values()
    ensures block_bytes { BLOCK_BYTES ≡ 4096 }
    ensures least_page_entries { LEAST_PAGE_ENTRIES ≡ 2 }
    ensures page_entries { PAGE_ENTRIES ≡ 63 }
    ensures least_blocks { LEAST_BLOCKS ≡ 2 }
    ensures blocks { BLOCKS ≡ 2 ^ 20 }
    ensures cpus { CPUS ≡ 64 }
    ensures inodes { INODES ≡ 2 ^ 16 }
    ensures snaps { SNAPS ≡ 1024 }
    ensures actors { ACTORS ≡ 64 }
    ensures file_pages { FILE_PAGES ≡ 2 ^ 16 }
    ensures write_pages { WRITE_PAGES ≡ 1024 }
    ensures name_bytes { NAME_BYTES ≡ 255 }
    ensures mode { MODE ≡ 4095 }
    ensures pins { PINS ≡ 64 }
    ensures lock_rounds { LOCK_ROUNDS ≡ 8 }
    ensures drain { DRAIN ≡ 2 ^ 20 }
    ensures number { NUMBER ≡ 2 ^ 62 }
{}

/// How many records a drain of this number releases at most: a number outside 1 to [`DRAIN`] counts as the
/// nearest of these.
pub fn most_drained(number: u64) -> u64
    // A drain's number outside 1 to `DRAIN` counts as the nearest of these.
    ensures { result ≡ max 1 (min number DRAIN) }
{
    number.clamp(1, DRAIN)
}
