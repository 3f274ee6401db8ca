//! Worked rows of the cleaners: what scripts write, worked out by hand.

use crate::cleaners_beside::{
    A_DRAIN_OF_ITS_FILE_MEANWHILE, A_SHOW_OF_ITS_OWN_FILE_MEANWHILE, A_SNAPSHOT_MEANWHILE,
    A_WRITE_ON_ANOTHER_FILE_MEANWHILE,
};
use crate::worked::Row;

pub const A_KILLER_IS_CLEANED_AWAY: Row = (
    "format blocks=16 cpus=2 block=4 page=4 inodes=8 snaps=4 actors=3\n\
     do 0 create 0.1 a 420\n\
     do 0 write 1.1 0 aaaa\n\
     do 0 snap\n\
     do 0 write 1.1 0 bbbb\n\
     do 0 snap\n\
     do 0 drop 2\n\
     do 0 write 1.1 0 cccc\n\
     log 1\n\
     stree 1\n\
     do 1 thorough 1\n\
     log 1\n\
     stree 1\n\
     tree\n\
     lists\n\
     audit\n",
    "formatted\n\
     done 1.1\n\
     done 4\n\
     done 1\n\
     done 4\n\
     done 2\n\
     done\n\
     done 4\n\
     log 1 4 1 2:3\n\
     / d 493\n\
     /a f 420 4 aaaa\n\
     end\n\
     done thorough 1 0\n\
     log 1 3 1 2:3\n\
     / d 493\n\
     /a f 420 4 aaaa\n\
     end\n\
     / d 493\n\
     /a f 420 4 cccc\n\
     end\n\
     cpu 0 1 3 5-7\n\
     cpu 1 9-15\n\
     audit ok\n",
);

const THE_TOMBSTONE: Row = (
    "format blocks=16 cpus=2 block=4 page=4 inodes=8 snaps=4 actors=3\n\
     do 0 create 0.1 a 420\n\
     do 0 snap\n\
     do 0 unlink 0.1 a\n\
     do 0 create 0.1 b 420\n\
     do 0 thorough 0\n\
     tree\n\
     stree 1\n\
     do 0 drop 1\n\
     do 0 drain 9\n\
     do 0 thorough 0\n\
     log 0\n\
     lists\n",
    "formatted\n\
     done 1.1\n\
     done 1\n\
     done\n\
     done 2.1\n\
     done thorough 0 0\n\
     / d 493\n\
     /b f 420 0\n\
     end\n\
     / d 493\n\
     /a f 420 0\n\
     end\n\
     done\n\
     done 4\n\
     done thorough 2 0\n\
     log 0 2 1 2:2\n\
     cpu 0 0 3-7\n\
     cpu 1 8-15\n",
);

pub const FAST_CLEANING_REPEATED: Row = (
    "format blocks=16 cpus=2 block=4 page=2 inodes=8 snaps=4 actors=3\n\
     do 0 create 0.1 a 420\n\
     do 0 mode 1.1 1\n\
     do 0 mode 1.1 2\n\
     do 0 mode 1.1 3\n\
     do 0 mode 1.1 4\n\
     do 0 mode 1.1 5\n\
     do 0 mode 1.1 6\n\
     do 0 mode 1.1 7\n\
     do 0 mode 1.1 8\n\
     log 1\n\
     do 0 fast 1\n\
     log 1\n\
     do 0 fast 1\n\
     do 0 auto 1\n\
     space\n\
     lists\n",
    "formatted\n\
     done 1.1\n\
     done\n\
     done\n\
     done\n\
     done\n\
     done\n\
     done\n\
     done\n\
     done\n\
     log 1 9 8 1:1 0:0 0:0 0:0 1:1 0:0 0:0 0:0\n\
     done fast 6 3\n\
     log 1 3 5 1:1 1:1 0:0 0:0 0:0\n\
     done fast 0 0\n\
     done fast 0 0\n\
     free 10 chain 6 data 0 pending 0 hand 0\n\
     cpu 0 2-4\n\
     cpu 1 9-15\n",
);

pub const DEVICE_FULL: Row = (
    "format blocks=8 cpus=2 block=4 page=2 inodes=4 snaps=2 actors=2\n\
     do 0 create 0.1 a 420\n\
     do 0 mode 1.1 1\n\
     do 0 mode 1.1 2\n\
     do 0 mode 1.1 3\n\
     do 0 mode 1.1 4\n\
     do 0 write 1.1 0 abcdefghijkl\n\
     do 0 write 1.1 12 mnop\n\
     space\n\
     do 0 fast 1\n\
     do 0 write 1.1 12 mnop\n\
     space\n",
    "formatted\n\
     done 1.1\n\
     done\n\
     done\n\
     done\n\
     done\n\
     done 12\n\
     refused E13 NoSpace\n\
     free 0 chain 5 data 3 pending 0 hand 0\n\
     done fast 2 1\n\
     done 4\n\
     free 0 chain 4 data 4 pending 0 hand 0\n",
);

const LOG_GROWS_BY_DOUBLING: Row = (
    "format blocks=64 cpus=1 block=4 page=2 inodes=4 snaps=1 actors=1\n\
     do 0 create 0.1 a 420\n\
     do 0 mode 1.1 1\n\
     do 0 mode 1.1 2\n\
     do 0 mode 1.1 3\n\
     do 0 mode 1.1 4\n\
     do 0 mode 1.1 5\n\
     do 0 mode 1.1 6\n\
     do 0 mode 1.1 7\n\
     do 0 mode 1.1 8\n\
     do 0 mode 1.1 9\n\
     do 0 mode 1.1 10\n\
     do 0 mode 1.1 11\n\
     do 0 mode 1.1 12\n\
     do 0 mode 1.1 13\n\
     do 0 mode 1.1 14\n\
     do 0 mode 1.1 15\n\
     do 0 mode 1.1 16\n\
     log 1\n\
     do 0 thorough 1\n\
     log 1\n\
     space\n\
     do 0 thorough 1\n",
    "formatted\n\
     done 1.1\n\
     done\n\
     done\n\
     done\n\
     done\n\
     done\n\
     done\n\
     done\n\
     done\n\
     done\n\
     done\n\
     done\n\
     done\n\
     done\n\
     done\n\
     done\n\
     done\n\
     log 1 17 16 1:1 0:0 0:0 0:0 0:0 0:0 0:0 0:0 1:1 0:0 0:0 0:0 0:0 0:0 0:0 0:0\n\
     done thorough 15 15\n\
     log 1 2 1 2:2\n\
     free 62 chain 2 data 0 pending 0 hand 0\n\
     done thorough 0 0\n",
);

/// A number without a slot is refused at the judge, which needs no lock then, and one without an inode behind its unlock. On a
/// full device a thorough cleaning and an auto that chooses it get no pages, though some would go; fast gives one, which is too
/// few, and two are enough.
const REFUSED_CLEANERS: Row = (
    "format blocks=8 cpus=2 block=4 page=2 inodes=4 snaps=2 actors=2\n\
     start 0 fast 4\n\
     go 0\n\
     do 0 auto 18446744073709551615\n\
     start 0 thorough 3\n\
     go 0 2\n\
     go 0\n\
     do 0 create 0.1 a 420\n\
     do 0 mode 1.1 1\n\
     do 0 mode 1.1 2\n\
     do 0 mode 1.1 3\n\
     do 0 mode 1.1 4\n\
     do 0 mode 1.1 5\n\
     do 0 write 1.1 0 abcdefghijkl\n\
     do 0 auto 1\n\
     do 0 thorough 1\n\
     log 1\n\
     do 0 fast 1\n\
     log 1\n\
     do 0 auto 1\n\
     do 0 thorough 1\n\
     space\n\
     do 0 size 1.1 8\n\
     do 0 thorough 1\n\
     space\n\
     tree\n\
     audit\n",
    "formatted\n\
     started\n\
     refused E3 Stale\n\
     refused E3 Stale\n\
     started\n\
     moved\n\
     refused E3 Stale\n\
     done 1.1\n\
     done\n\
     done\n\
     done\n\
     done\n\
     done\n\
     done 12\n\
     refused E13 NoSpace\n\
     refused E13 NoSpace\n\
     log 1 7 4 1:1 0:0 1:1 1:1\n\
     done fast 2 1\n\
     log 1 5 3 1:1 1:1 1:1\n\
     done fast 0 0\n\
     refused E13 NoSpace\n\
     free 1 chain 4 data 3 pending 0 hand 0\n\
     done\n\
     done thorough 2 1\n\
     free 3 chain 3 data 2 pending 0 hand 0\n\
     / d 493\n\
     /a f 5 8 abcdefgh\n\
     end\n\
     audit ok\n",
);

/// The log of a file that is gone is cleaned as long as a snapshot reads it, and is no longer there once all its records were
/// released.
const A_FILE_THAT_IS_GONE: Row = (
    "format blocks=32 cpus=2 block=4 page=2 inodes=8 snaps=4 actors=3\n\
     do 0 create 0.1 a 420\n\
     do 0 write 1.1 0 aaaa\n\
     do 0 mode 1.1 1\n\
     do 0 mode 1.1 2\n\
     do 0 snap\n\
     do 0 unlink 0.1 a\n\
     log 1\n\
     do 0 auto 1\n\
     do 0 thorough 1\n\
     log 1\n\
     stree 1\n\
     audit\n\
     do 0 drop 1\n\
     do 0 drain 9\n\
     do 0 fast 1\n\
     log 1\n\
     audit\n",
    "formatted\n\
     done 1.1\n\
     done 4\n\
     done\n\
     done\n\
     done 1\n\
     done\n\
     log 1 5 4 0:2 0:1 0:0 0:0\n\
     done fast 0 0\n\
     done thorough 1 2\n\
     log 1 4 2 0:2 0:1\n\
     / d 493\n\
     /a f 2 4 aaaa\n\
     end\n\
     audit ok\n\
     done\n\
     done 5\n\
     refused E3 Stale\n\
     log 1 0 0\n\
     audit ok\n",
);

/// These rows, all of which end well.
pub const OF_CLEANERS: &[Row] = &[
    A_KILLER_IS_CLEANED_AWAY,
    THE_TOMBSTONE,
    FAST_CLEANING_REPEATED,
    DEVICE_FULL,
    LOG_GROWS_BY_DOUBLING,
    A_WRITE_ON_ANOTHER_FILE_MEANWHILE,
    A_SHOW_OF_ITS_OWN_FILE_MEANWHILE,
    A_DRAIN_OF_ITS_FILE_MEANWHILE,
    A_SNAPSHOT_MEANWHILE,
    REFUSED_CLEANERS,
    A_FILE_THAT_IS_GONE,
];
