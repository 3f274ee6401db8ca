//! Worked rows: what scripts write, worked out by hand.

/// A script, and what it writes.
pub type Row = (&'static str, &'static str);

pub const NOTHING_HELD_TO_LISTS: Row = (
    "format blocks=16 cpus=2 block=4 page=4 inodes=8 snaps=4 actors=3\n\
     tree\n\
     space\n\
     lists\n",
    "formatted\n\
     / d 493\n\
     end\n\
     free 15 chain 1 data 0 pending 0 hand 0\n\
     cpu 0 1-7\n\
     cpu 1 8-15\n",
);

pub const FIRST_PATH: Row = (
    "format blocks=16 cpus=2 block=4 page=4 inodes=8 snaps=4 actors=3\n\
     do 0 create 0.1 a 420\n\
     do 0 write 1.1 3 abcdefghij\n\
     do 0 read 1.1 0 20\n\
     tree\n",
    "formatted\n\
     done 1.1\n\
     done 10\n\
     done 13 %00%00%00abcdefghij\n\
     / d 493\n\
     /a f 420 13 %00%00%00abcdefghij\n\
     end\n",
);

pub const PARTIAL_AT_BOTH_ENDS_TO_SPACE: Row = (
    "format blocks=16 cpus=2 block=4 page=4 inodes=8 snaps=4 actors=3\n\
     do 0 create 0.1 a 420\n\
     do 0 write 1.1 3 abcdefghij\n\
     do 0 read 1.1 0 20\n\
     tree\n\
     space\n",
    "formatted\n\
     done 1.1\n\
     done 10\n\
     done 13 %00%00%00abcdefghij\n\
     / d 493\n\
     /a f 420 13 %00%00%00abcdefghij\n\
     end\n\
     free 10 chain 2 data 4 pending 0 hand 0\n",
);

pub const PARTIAL_AT_BOTH_ENDS: Row = (
    "format blocks=16 cpus=2 block=4 page=4 inodes=8 snaps=4 actors=3\n\
     do 0 create 0.1 a 420\n\
     do 0 write 1.1 3 abcdefghij\n\
     do 0 read 1.1 0 20\n\
     tree\n\
     space\n\
     log 1\n",
    "formatted\n\
     done 1.1\n\
     done 10\n\
     done 13 %00%00%00abcdefghij\n\
     / d 493\n\
     /a f 420 13 %00%00%00abcdefghij\n\
     end\n\
     free 10 chain 2 data 4 pending 0 hand 0\n\
     log 1 2 1 2:2\n",
);

pub const FAST_CLEANING_REPEATED_TO_LOG: Row = (
    "format blocks=16 cpus=2 block=4 page=2 inodes=8 snaps=4 actors=3\n\
     do 0 create 0.1 a 420\n\
     do 0 mode 1.1 1\n\
     do 0 mode 1.1 2\n\
     do 0 mode 1.1 3\n\
     do 0 mode 1.1 4\n\
     do 0 mode 1.1 5\n\
     do 0 mode 1.1 6\n\
     do 0 mode 1.1 7\n\
     do 0 mode 1.1 8\n\
     log 1\n",
    "formatted\n\
     done 1.1\n\
     done\n\
     done\n\
     done\n\
     done\n\
     done\n\
     done\n\
     done\n\
     done\n\
     log 1 9 8 1:1 0:0 0:0 0:0 1:1 0:0 0:0 0:0\n",
);

pub const BOUNDED_RETRIES: Row = (
    "format blocks=16 cpus=2 block=4 page=4 inodes=8 snaps=4 actors=3\n\
     do 0 create 0.1 a 420\n\
     start 0 unlink 0.1 a\n\
     go 0\n\
     do 1 unlink 0.1 a\n\
     do 1 create 0.1 a 420\n\
     go 0 5\n\
     go 0\n\
     do 1 unlink 0.1 a\n\
     do 1 create 0.1 a 420\n\
     go 0 5\n\
     go 0\n\
     do 1 unlink 0.1 a\n\
     do 1 create 0.1 a 420\n\
     go 0 5\n\
     go 0\n\
     do 1 unlink 0.1 a\n\
     do 1 create 0.1 a 420\n\
     go 0 5\n\
     go 0\n\
     do 1 unlink 0.1 a\n\
     do 1 create 0.1 a 420\n\
     go 0 5\n\
     go 0\n\
     do 1 unlink 0.1 a\n\
     do 1 create 0.1 a 420\n\
     go 0 5\n\
     go 0\n\
     do 1 unlink 0.1 a\n\
     do 1 create 0.1 a 420\n\
     go 0 5\n\
     go 0\n\
     do 1 unlink 0.1 a\n\
     do 1 create 0.1 a 420\n\
     go 0 5\n\
     do 0 lookup 0.1 a\n\
     space\n",
    "formatted\n\
     done 1.1\n\
     started\n\
     moved\n\
     done\n\
     done 1.2\n\
     moved\n\
     moved\n\
     done\n\
     done 1.3\n\
     moved\n\
     moved\n\
     done\n\
     done 1.4\n\
     moved\n\
     moved\n\
     done\n\
     done 1.5\n\
     moved\n\
     moved\n\
     done\n\
     done 1.6\n\
     moved\n\
     moved\n\
     done\n\
     done 1.7\n\
     moved\n\
     moved\n\
     done\n\
     done 1.8\n\
     moved\n\
     moved\n\
     done\n\
     done 1.9\n\
     refused E20 Contended\n\
     done 1.9\n\
     free 7 chain 9 data 0 pending 0 hand 0\n",
);

pub const NAMES: Row = (
    "format blocks=16 cpus=2 block=4 page=4 inodes=8 snaps=4 actors=3\n\
     do 0 mkdir 0.1 d 493\n\
     do 0 create 1.1 x 420\n\
     do 0 lookup 0.1 d\n\
     do 0 rmdir 0.1 d\n\
     do 0 unlink 0.1 d\n\
     do 0 rmdir 1.1 x\n\
     do 0 create 0.1 .. 420\n\
     do 0 create 0.1 d 420\n\
     do 0 mkdir 0.1 f 493\n\
     do 0 rename 0.1 f 1.1 f\n\
     do 0 rename 0.1 d 0.1 e\n\
     do 0 list 0.1\n\
     do 0 rename 1.1 x 0.1 x\n\
     do 0 rmdir 0.1 e\n\
     tree\n\
     do 0 stat 0.1\n",
    "formatted\n\
     done 1.1\n\
     done 2.1\n\
     done 1.1\n\
     refused E9 NotEmpty\n\
     refused E4 NotFile\n\
     refused E5 NotDirectory\n\
     refused E6 BadName\n\
     refused E8 Exists\n\
     done 3.1\n\
     refused E19 MoveDirectory\n\
     done\n\
     done 2\n\
     f 3.1\n\
     e 1.1\n\
     done\n\
     done\n\
     / d 493\n\
     /f d 493\n\
     /x f 420 0\n\
     end\n\
     done d 493 0 6\n",
);

pub const SEVERAL_RUNS_IN_ONE_WRITE_TO_LISTS: Row = (
    "format blocks=16 cpus=2 block=4 page=4 inodes=8 snaps=4 actors=3\n\
     do 0 create 0.1 a 420\n\
     do 0 write 1.1 0 aaaabbbbcccc\n\
     do 0 write 1.1 4 BBBB\n\
     do 0 write 1.1 12 ddddeeee\n\
     do 0 read 1.1 0 20\n\
     lists\n",
    "formatted\n\
     done 1.1\n\
     done 12\n\
     done 4\n\
     done 8\n\
     done 20 aaaaBBBBccccddddeeee\n\
     cpu 0 -\n\
     cpu 1 8-15\n",
);

pub const SEVERAL_RUNS_IN_ONE_WRITE: Row = (
    "format blocks=16 cpus=2 block=4 page=4 inodes=8 snaps=4 actors=3\n\
     do 0 create 0.1 a 420\n\
     do 0 write 1.1 0 aaaabbbbcccc\n\
     do 0 write 1.1 4 BBBB\n\
     do 0 write 1.1 12 ddddeeee\n\
     do 0 read 1.1 0 20\n\
     log 1\n\
     lists\n\
     do 0 stat 1.1\n",
    "formatted\n\
     done 1.1\n\
     done 12\n\
     done 4\n\
     done 8\n\
     done 20 aaaaBBBBccccddddeeee\n\
     log 1 5 2 4:4 1:1\n\
     cpu 0 -\n\
     cpu 1 8-15\n\
     done f 420 20 4\n",
);

pub const BLOCK_GOES_HOME: Row = (
    "format blocks=16 cpus=2 block=4 page=4 inodes=8 snaps=4 actors=3\n\
     do 0 create 0.1 a 420\n\
     do 0 write 1.1 0 aaaa\n\
     do 0 write 1.1 0 bbbb\n\
     lists\n\
     space\n",
    "formatted\n\
     done 1.1\n\
     done 4\n\
     done 4\n\
     cpu 0 2 4-7\n\
     cpu 1 8-15\n\
     free 13 chain 2 data 1 pending 0 hand 0\n",
);

pub const TWO_LISTS_FALL_SHORT: Row = (
    "format blocks=4 cpus=2 block=4 page=4 inodes=4 snaps=1 actors=1\n\
     do 0 create 0.1 a 420\n\
     do 0 write 1.1 0 abcdefghi\n\
     lists\n\
     do 0 write 1.1 0 abcdefgh\n\
     space\n\
     do 0 write 1.1 0 x\n",
    "formatted\n\
     done 1.1\n\
     refused E13 NoSpace\n\
     cpu 0 -\n\
     cpu 1 2-3\n\
     done 8\n\
     free 0 chain 2 data 2 pending 0 hand 0\n\
     refused E13 NoSpace\n",
);

pub const CUT_THEN_GROWN: Row = (
    "format blocks=16 cpus=2 block=4 page=4 inodes=8 snaps=4 actors=3\n\
     do 0 create 0.1 a 420\n\
     do 0 write 1.1 0 abcdefghij\n\
     do 0 size 1.1 5\n\
     do 0 size 1.1 12\n\
     do 0 read 1.1 0 20\n\
     log 1\n\
     lists\n\
     space\n",
    "formatted\n\
     done 1.1\n\
     done 10\n\
     done\n\
     done\n\
     done 12 abcde%00%00%00%00%00%00%00\n\
     log 1 5 2 3:3 1:1\n\
     cpu 0 4 6-7\n\
     cpu 1 8-15\n\
     free 11 chain 3 data 2 pending 0 hand 0\n",
);

pub const UNLINKED_IS_STALE: Row = (
    "format blocks=16 cpus=2 block=4 page=4 inodes=8 snaps=4 actors=3\n\
     do 0 create 0.1 a 420\n\
     do 0 write 1.1 0 aaaa\n\
     do 0 unlink 0.1 a\n\
     do 0 lookup 0.1 a\n\
     do 0 stat 1.1\n\
     space\n\
     do 0 create 0.1 a 420\n",
    "formatted\n\
     done 1.1\n\
     done 4\n\
     done\n\
     refused E7 Missing\n\
     refused E3 Stale\n\
     free 15 chain 1 data 0 pending 0 hand 0\n\
     done 1.2\n",
);

pub const TREE_BY_SETTLED_LOGS: Row = (
    "format blocks=16 cpus=2 block=4 page=4 inodes=8 snaps=4 actors=3\n\
     do 0 mkdir 0.1 d 493\n\
     do 0 mkdir 0.1 e 493\n\
     do 0 create 1.1 x 420\n\
     do 0 create 2.1 y 420\n\
     do 0 write 3.1 0 new\n\
     do 0 write 4.1 0 old\n\
     start 0 rename 1.1 x 2.1 y\n\
     go 0 14\n\
     tree\n\
     go 0 3\n\
     tree\n",
    "formatted\n\
     done 1.1\n\
     done 2.1\n\
     done 3.1\n\
     done 4.1\n\
     done 3\n\
     done 3\n\
     started\n\
     moved\n\
     / d 493\n\
     /d d 493\n\
     /d/x f 420 3 new\n\
     /e d 493\n\
     /e/y f 420 3 old\n\
     end\n\
     moved\n\
     / d 493\n\
     /d d 493\n\
     /e d 493\n\
     /e/y f 420 3 new\n\
     end\n",
);

pub const TWO_WRITERS_BEFORE_THE_FORK: Row = (
    "format blocks=64 cpus=2 block=4 page=4 inodes=8 snaps=4 actors=2\n\
     do 0 create 0.1 a 420\n\
     do 0 create 0.1 b 420\n",
    "formatted\ndone 1.1\ndone 2.1\n",
);

/// The rows that end well.
pub const WORKED: [Row; 15] = [
    NOTHING_HELD_TO_LISTS,
    FIRST_PATH,
    PARTIAL_AT_BOTH_ENDS_TO_SPACE,
    PARTIAL_AT_BOTH_ENDS,
    FAST_CLEANING_REPEATED_TO_LOG,
    BOUNDED_RETRIES,
    NAMES,
    SEVERAL_RUNS_IN_ONE_WRITE_TO_LISTS,
    SEVERAL_RUNS_IN_ONE_WRITE,
    BLOCK_GOES_HOME,
    TWO_LISTS_FALL_SHORT,
    CUT_THEN_GROWN,
    UNLINKED_IS_STALE,
    TREE_BY_SETTLED_LOGS,
    TWO_WRITERS_BEFORE_THE_FORK,
];
