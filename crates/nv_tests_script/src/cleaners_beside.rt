//! Worked rows of a cleaner between the steps of another call: what scripts write, worked out by hand.

use crate::worked::Row;

/// A thorough cleaning between the steps of a write on another file, also while that has the commit lock. Of three entries the
/// second goes, and of two pages one.
pub const A_WRITE_ON_ANOTHER_FILE_MEANWHILE: Row = (
    "format blocks=32 cpus=2 block=4 page=2 inodes=8 snaps=4 actors=3\n\
     do 0 create 0.1 a 420\n\
     do 0 create 0.1 b 420\n\
     do 0 mode 1.1 1\n\
     do 0 mode 1.1 2\n\
     log 1\n\
     start 0 write 2.1 0 bbbb\n\
     start 1 thorough 1\n\
     go 0 4\n\
     go 1 3\n\
     space\n\
     go 0\n\
     go 1\n\
     space\n\
     log 1\n\
     tree\n\
     audit\n\
     go 0 2\n\
     go 1\n\
     audit\n\
     run 1\n\
     run 0\n\
     tree\n\
     space\n\
     audit\n",
    "formatted\n\
     done 1.1\n\
     done 2.1\n\
     done\n\
     done\n\
     log 1 3 2 1:1 1:1\n\
     started\n\
     started\n\
     moved\n\
     moved\n\
     free 25 chain 5 data 0 pending 0 hand 2\n\
     moved\n\
     moved\n\
     free 25 chain 4 data 0 pending 0 hand 3\n\
     log 1 2 1 2:2\n\
     / d 493\n\
     /a f 2 0\n\
     /b f 420 0\n\
     end\n\
     audit ok\n\
     moved\n\
     moved\n\
     audit ok\n\
     done thorough 1 1\n\
     done 4\n\
     / d 493\n\
     /a f 2 0\n\
     /b f 420 4 bbbb\n\
     end\n\
     free 27 chain 4 data 1 pending 0 hand 0\n\
     audit ok\n",
);

/// Between the steps of a show of its own file, which waits for the lock of that. Snapshot 1 reads the second of five entries;
/// the third and the fourth go, and of four pages two.
pub const A_SHOW_OF_ITS_OWN_FILE_MEANWHILE: Row = (
    "format blocks=32 cpus=2 block=4 page=2 inodes=8 snaps=4 actors=3\n\
     do 0 create 0.1 a 420\n\
     do 0 write 1.1 0 aaaa\n\
     do 0 snap\n\
     do 0 write 1.1 0 bbbb\n\
     do 0 write 1.1 0 cccc\n\
     do 0 write 1.1 0 dddd\n\
     log 1\n\
     start 0 show 1\n\
     go 0 2\n\
     start 1 thorough 1\n\
     go 1 2\n\
     go 0\n\
     go 1 2\n\
     log 1\n\
     go 0\n\
     audit\n\
     go 1\n\
     go 0\n\
     run 1\n\
     run 0\n\
     stree 1\n\
     tree\n\
     space\n\
     audit\n",
    "formatted\n\
     done 1.1\n\
     done 4\n\
     done 1\n\
     done 4\n\
     done 4\n\
     done 4\n\
     log 1 5 4 1:2 0:0 1:1 0:0\n\
     started\n\
     moved\n\
     started\n\
     moved\n\
     waits\n\
     moved\n\
     log 1 3 2 1:2 1:1\n\
     waits\n\
     audit ok\n\
     moved\n\
     moved\n\
     done thorough 2 2\n\
     done\n\
     / d 493\n\
     /a f 420 4 aaaa\n\
     end\n\
     / d 493\n\
     /a f 420 4 aaaa\n\
     end\n\
     / d 493\n\
     /a f 420 4 dddd\n\
     end\n\
     free 27 chain 3 data 2 pending 0 hand 0\n\
     audit ok\n",
);

/// Between the steps of a drain that has picked a record of its file. What a record that was picked or is deferred names stays,
/// and goes once it was released.
pub const A_DRAIN_OF_ITS_FILE_MEANWHILE: Row = (
    "format blocks=32 cpus=2 block=4 page=2 inodes=8 snaps=4 actors=3\n\
     do 0 create 0.1 a 420\n\
     do 0 write 1.1 0 aaaa\n\
     do 0 snap\n\
     do 0 write 1.1 0 bbbb\n\
     do 0 write 1.1 0 cccc\n\
     do 0 write 1.1 0 dddd\n\
     do 0 drop 1\n\
     start 0 drain 9\n\
     go 0\n\
     start 1 thorough 1\n\
     go 1\n\
     go 0\n\
     go 1 3\n\
     log 1\n\
     space\n\
     audit\n\
     go 0\n\
     run 1\n\
     run 0\n\
     log 1\n\
     do 1 thorough 1\n\
     log 1\n\
     tree\n\
     space\n\
     audit\n",
    "formatted\n\
     done 1.1\n\
     done 4\n\
     done 1\n\
     done 4\n\
     done 4\n\
     done 4\n\
     done\n\
     started\n\
     moved\n\
     started\n\
     moved\n\
     waits\n\
     moved\n\
     log 1 3 2 1:2 1:1\n\
     free 23 chain 3 data 1 pending 1 hand 4\n\
     audit ok\n\
     waits\n\
     done thorough 2 2\n\
     done 2\n\
     log 1 3 2 1:1 1:1\n\
     done thorough 1 1\n\
     log 1 2 1 2:2\n\
     / d 493\n\
     /a f 420 4 dddd\n\
     end\n\
     free 29 chain 2 data 1 pending 0 hand 0\n\
     audit ok\n",
);

/// Between the steps of a snapshot being made: the first waits for the commit lock of a third call while the log is cleaned, and
/// the second is made between the judge and the cleaning.
pub const A_SNAPSHOT_MEANWHILE: Row = (
    "format blocks=32 cpus=2 block=4 page=2 inodes=8 snaps=4 actors=3\n\
     do 0 create 0.1 a 420\n\
     do 0 create 0.1 b 420\n\
     do 0 write 1.1 0 aaaa\n\
     do 0 write 1.1 0 bbbb\n\
     do 0 write 1.1 0 cccc\n\
     start 2 mode 2.1 7\n\
     go 2 4\n\
     start 0 snap\n\
     start 1 thorough 1\n\
     go 1\n\
     go 0\n\
     go 1\n\
     go 0\n\
     go 1 2\n\
     go 0\n\
     audit\n\
     run 2\n\
     go 0\n\
     run 1\n\
     stree 1\n\
     do 0 write 1.1 0 dddd\n\
     do 0 write 1.1 0 eeee\n\
     start 1 thorough 1\n\
     go 1 2\n\
     do 0 snap\n\
     run 1\n\
     stree 1\n\
     stree 2\n\
     log 1\n\
     audit\n",
    "formatted\n\
     done 1.1\n\
     done 2.1\n\
     done 4\n\
     done 4\n\
     done 4\n\
     started\n\
     moved\n\
     started\n\
     started\n\
     moved\n\
     waits\n\
     moved\n\
     waits\n\
     moved\n\
     waits\n\
     audit ok\n\
     done\n\
     done 1\n\
     done thorough 2 1\n\
     / d 493\n\
     /a f 420 4 cccc\n\
     /b f 7 0\n\
     end\n\
     done 4\n\
     done 4\n\
     started\n\
     moved\n\
     done 2\n\
     done thorough 1 0\n\
     / d 493\n\
     /a f 420 4 cccc\n\
     /b f 7 0\n\
     end\n\
     / d 493\n\
     /a f 420 4 eeee\n\
     /b f 7 0\n\
     end\n\
     log 1 3 2 1:2 1:1\n\
     audit ok\n",
);
