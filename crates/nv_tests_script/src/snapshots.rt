//! Worked rows of snapshots and of the audit: what scripts write, worked out by hand.

use crate::worked::Row;

const NOTHING_HELD: Row = (
    "format blocks=16 cpus=2 block=4 page=4 inodes=8 snaps=4 actors=3\n\
     tree\n\
     space\n\
     lists\n\
     audit\n",
    "formatted\n\
     / d 493\n\
     end\n\
     free 15 chain 1 data 0 pending 0 hand 0\n\
     cpu 0 1-7\n\
     cpu 1 8-15\n\
     audit ok\n",
);

const BORN_AND_DEAD_IN_ONE_EPOCH_TO_LOG: Row = (
    "format blocks=16 cpus=2 block=4 page=4 inodes=8 snaps=4 actors=3\n\
     do 0 create 0.1 a 420\n\
     do 0 write 1.1 0 aaaa\n\
     do 0 snap\n\
     do 0 write 1.1 0 bbbb\n\
     do 0 write 1.1 0 cccc\n\
     space\n\
     lists\n\
     snaps\n\
     log 1\n",
    "formatted\n\
     done 1.1\n\
     done 4\n\
     done 1\n\
     done 4\n\
     done 4\n\
     free 12 chain 2 data 2 pending 0 hand 0\n\
     cpu 0 3 5-7\n\
     cpu 1 8-15\n\
     snaps 1 epoch 2 commit 4\n\
     snap 1 held 1 gain 1 pins 0\n\
     log 1 4 1 2:3\n",
);

pub const BORN_AND_DEAD_IN_ONE_EPOCH: Row = (
    "format blocks=16 cpus=2 block=4 page=4 inodes=8 snaps=4 actors=3\n\
     do 0 create 0.1 a 420\n\
     do 0 write 1.1 0 aaaa\n\
     do 0 snap\n\
     do 0 write 1.1 0 bbbb\n\
     do 0 write 1.1 0 cccc\n\
     space\n\
     lists\n\
     snaps\n\
     log 1\n\
     do 0 show 1\n\
     stree 1\n",
    "formatted\n\
     done 1.1\n\
     done 4\n\
     done 1\n\
     done 4\n\
     done 4\n\
     free 12 chain 2 data 2 pending 0 hand 0\n\
     cpu 0 3 5-7\n\
     cpu 1 8-15\n\
     snaps 1 epoch 2 commit 4\n\
     snap 1 held 1 gain 1 pins 0\n\
     log 1 4 1 2:3\n\
     done\n\
     / d 493\n\
     /a f 420 4 aaaa\n\
     end\n\
     / d 493\n\
     /a f 420 4 aaaa\n\
     end\n",
);

const DEFERRED_IS_NOT_FREE: Row = (
    "format blocks=16 cpus=2 block=4 page=4 inodes=8 snaps=4 actors=3\n\
     do 0 create 0.1 a 420\n\
     do 0 write 1.1 0 aaaa\n\
     do 0 snap\n\
     do 0 write 1.1 0 bbbb\n\
     do 0 drop 1\n\
     space\n\
     do 0 drain 9\n\
     space\n",
    "formatted\n\
     done 1.1\n\
     done 4\n\
     done 1\n\
     done 4\n\
     done\n\
     free 12 chain 2 data 1 pending 1 hand 0\n\
     done 2\n\
     free 13 chain 2 data 1 pending 0 hand 0\n",
);

pub const A_RECORD_MOVES_DOWN: Row = (
    "format blocks=16 cpus=2 block=4 page=4 inodes=8 snaps=4 actors=3\n\
     do 0 create 0.1 a 420\n\
     do 0 write 1.1 0 aaaa\n\
     do 0 snap\n\
     do 0 snap\n\
     do 0 write 1.1 0 bbbb\n\
     snaps\n\
     do 0 drop 2\n\
     snaps\n\
     do 0 drop 1\n\
     space\n",
    "formatted\n\
     done 1.1\n\
     done 4\n\
     done 1\n\
     done 2\n\
     done 4\n\
     snaps 2 epoch 3 commit 3\n\
     snap 1 held 1 gain 0 pins 0\n\
     snap 2 held 1 gain 0 pins 0\n\
     done\n\
     snaps 1 epoch 3 commit 3\n\
     snap 1 held 1 gain 1 pins 0\n\
     done\n\
     free 12 chain 2 data 1 pending 1 hand 0\n",
);

pub const A_WRITE_ACROSS_A_SNAPSHOT: Row = (
    "format blocks=16 cpus=2 block=4 page=4 inodes=8 snaps=4 actors=3\n\
     do 0 create 0.1 a 420\n\
     do 0 write 1.1 0 aaaa\n\
     start 0 write 1.1 0 bbbb\n\
     go 0 4\n\
     space\n\
     do 1 snap\n\
     run 0\n\
     do 1 show 1\n\
     do 1 read 1.1 0 4\n",
    "formatted\n\
     done 1.1\n\
     done 4\n\
     started\n\
     moved\n\
     free 12 chain 2 data 1 pending 0 hand 1\n\
     done 1\n\
     done 4\n\
     done\n\
     / d 493\n\
     /a f 420 4 aaaa\n\
     end\n\
     done 4 bbbb\n",
);

const REUSE: Row = (
    "format blocks=16 cpus=2 block=4 page=4 inodes=8 snaps=4 actors=3\n\
     do 0 create 0.1 a 420\n\
     do 0 snap\n\
     do 0 unlink 0.1 a\n\
     do 0 create 0.1 b 420\n\
     do 0 drop 1\n\
     do 0 drain 9\n\
     do 0 create 0.1 c 420\n\
     do 0 stat 1.1\n\
     do 0 stat 1.2\n\
     log 0\n",
    "formatted\n\
     done 1.1\n\
     done 1\n\
     done\n\
     done 2.1\n\
     done\n\
     done 4\n\
     done 1.2\n\
     refused E3 Stale\n\
     done f 420 0 4\n\
     log 0 5 2 2:2 1:1\n",
);

const A_CUT_INSIDE_A_BLOCK: Row = (
    "format blocks=16 cpus=2 block=4 page=4 inodes=8 snaps=4 actors=3\n\
     do 0 create 0.1 a 420\n\
     do 0 write 1.1 0 abcdefghij\n\
     do 0 snap\n\
     do 0 size 1.1 5\n\
     do 0 size 1.1 12\n\
     do 0 read 1.1 0 20\n\
     stree 1\n\
     space\n",
    "formatted\n\
     done 1.1\n\
     done 10\n\
     done 1\n\
     done\n\
     done\n\
     done 12 abcde%00%00%00%00%00%00%00\n\
     / d 493\n\
     /a f 420 10 abcdefghij\n\
     end\n\
     free 9 chain 3 data 4 pending 0 hand 0\n",
);

pub const SNAPSHOT_REFUSALS: Row = (
    "format blocks=16 cpus=2 block=4 page=4 inodes=8 snaps=4 actors=3\n\
     do 0 drop 7\n\
     do 0 snap\n\
     do 0 snap\n\
     do 0 snap\n\
     do 0 snap\n\
     do 0 snap\n\
     start 0 show 2\n\
     go 0\n\
     do 1 drop 2\n\
     run 0\n\
     do 1 drop 2\n\
     snaps\n",
    "formatted\n\
     refused E17 NoSnapshot\n\
     done 1\n\
     done 2\n\
     done 3\n\
     done 4\n\
     refused E16 TooManySnapshots\n\
     started\n\
     moved\n\
     refused E18 Pinned\n\
     done\n\
     / d 493\n\
     end\n\
     done\n\
     snaps 3 epoch 5 commit 0\n\
     snap 1 held 0 gain 0 pins 0\n\
     snap 3 held 0 gain 0 pins 0\n\
     snap 4 held 0 gain 0 pins 0\n",
);

const READER_SEES_THE_OLD_TREE: Row = (
    "format blocks=16 cpus=2 block=4 page=4 inodes=8 snaps=4 actors=3\n\
     do 0 mkdir 0.1 d 493\n\
     do 0 create 1.1 x 420\n\
     do 0 snap\n\
     do 0 unlink 1.1 x\n\
     do 0 rmdir 0.1 d\n\
     tree\n\
     stree 1\n\
     do 0 show 2\n",
    "formatted\n\
     done 1.1\n\
     done 2.1\n\
     done 1\n\
     done\n\
     done\n\
     / d 493\n\
     end\n\
     / d 493\n\
     /d d 493\n\
     /d/x f 420 0\n\
     end\n\
     refused E17 NoSnapshot\n",
);

const DRAIN_WITHIN_A_RUN: Row = (
    "format blocks=16 cpus=2 block=4 page=4 inodes=8 snaps=4 actors=3\n\
     do 0 create 0.1 a 420\n\
     do 0 write 1.1 0 aaaabbbbcccc\n\
     do 0 snap\n\
     do 0 write 1.1 0 ddddeeeeffff\n\
     snaps\n\
     do 0 drop 1\n\
     do 0 drain 2\n\
     space\n\
     lists\n\
     do 0 drain 9\n\
     lists\n",
    "formatted\n\
     done 1.1\n\
     done 12\n\
     done 1\n\
     done 12\n\
     snaps 1 epoch 2 commit 3\n\
     snap 1 held 3 gain 3 pins 0\n\
     done\n\
     done 2\n\
     free 9 chain 2 data 3 pending 2 hand 0\n\
     cpu 0 2\n\
     cpu 1 8-15\n\
     done 2\n\
     cpu 0 2-4\n\
     cpu 1 8-15\n",
);

/// These rows, all of which end well.
pub const OF_SNAPSHOTS: &[Row] = &[
    NOTHING_HELD,
    BORN_AND_DEAD_IN_ONE_EPOCH_TO_LOG,
    BORN_AND_DEAD_IN_ONE_EPOCH,
    DEFERRED_IS_NOT_FREE,
    A_RECORD_MOVES_DOWN,
    A_WRITE_ACROSS_A_SNAPSHOT,
    REUSE,
    A_CUT_INSIDE_A_BLOCK,
    SNAPSHOT_REFUSALS,
    READER_SEES_THE_OLD_TREE,
    DRAIN_WITHIN_A_RUN,
];
