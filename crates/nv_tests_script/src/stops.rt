//! Worked rows in which the machine stops: what scripts write, worked out by hand.

use crate::scripts::check;
use crate::worked::Row;
use std::test::Fail;

/// The rows, which end well.
pub const OF_STOPS: &[Row] = &[
    // Half a journal.
    (
        "format blocks=16 cpus=2 block=4 page=4 inodes=8 snaps=4 actors=3\n\
         do 0 mkdir 0.1 d 493\n\
         do 0 mkdir 0.1 e 493\n\
         do 0 create 1.1 x 420\n\
         do 0 create 2.1 y 420\n\
         do 0 write 3.1 0 new\n\
         do 0 write 4.1 0 old\n\
         start 0 rename 1.1 x 2.1 y\n\
         go 0 14\n\
         stop\n\
         tree\n\
         space\n",
        "formatted\n\
         done 1.1\n\
         done 2.1\n\
         done 3.1\n\
         done 4.1\n\
         done 3\n\
         done 3\n\
         started\n\
         moved\n\
         stopped\n\
         / d 493\n\
         /d d 493\n\
         /d/x f 420 3 new\n\
         /e d 493\n\
         /e/y f 420 3 old\n\
         end\n\
         free 9 chain 5 data 2 pending 0 hand 0\n",
    ),
    // A closed journal.
    (
        "format blocks=16 cpus=2 block=4 page=4 inodes=8 snaps=4 actors=3\n\
         do 0 mkdir 0.1 d 493\n\
         do 0 mkdir 0.1 e 493\n\
         do 0 create 1.1 x 420\n\
         do 0 create 2.1 y 420\n\
         do 0 write 3.1 0 new\n\
         do 0 write 4.1 0 old\n\
         start 0 rename 1.1 x 2.1 y\n\
         go 0 17\n\
         stop\n\
         tree\n\
         space\n",
        "formatted\n\
         done 1.1\n\
         done 2.1\n\
         done 3.1\n\
         done 4.1\n\
         done 3\n\
         done 3\n\
         started\n\
         moved\n\
         stopped\n\
         / d 493\n\
         /d d 493\n\
         /e d 493\n\
         /e/y f 420 3 new\n\
         end\n\
         free 11 chain 4 data 1 pending 0 hand 0\n",
    ),
    // A fixed number stays used.
    (
        "format blocks=16 cpus=2 block=4 page=4 inodes=8 snaps=4 actors=3\n\
         do 0 create 0.1 a 420\n\
         start 0 write 1.1 0 aaaa\n\
         go 0 5\n\
         stop\n\
         go 0\n\
         snaps\n\
         space\n\
         do 0 write 1.1 0 bbbb\n\
         do 0 stat 1.1\n",
        "formatted\n\
         done 1.1\n\
         started\n\
         moved\n\
         stopped\n\
         refused E22 ActorIdle\n\
         snaps 0 epoch 1 commit 2\n\
         free 14 chain 2 data 0 pending 0 hand 0\n\
         done 4\n\
         done f 420 4 3\n",
    ),
    // Stop clears pins.
    (
        "format blocks=16 cpus=2 block=4 page=4 inodes=8 snaps=4 actors=3\n\
         do 0 snap\n\
         start 0 show 1\n\
         go 0\n\
         do 1 drop 1\n\
         stop\n\
         snaps\n\
         do 1 drop 1\n",
        "formatted\n\
         done 1\n\
         started\n\
         moved\n\
         refused E18 Pinned\n\
         stopped\n\
         snaps 1 epoch 2 commit 0\n\
         snap 1 held 0 gain 0 pins 0\n\
         done\n",
    ),
    // Stop empties the deferred list.
    (
        "format blocks=16 cpus=2 block=4 page=4 inodes=8 snaps=4 actors=3\n\
         do 0 create 0.1 a 420\n\
         do 0 write 1.1 0 aaaa\n\
         do 0 snap\n\
         do 0 write 1.1 0 bbbb\n\
         do 0 drop 1\n\
         stop\n\
         space\n\
         do 0 drain 9\n\
         audit\n",
        "formatted\n\
         done 1.1\n\
         done 4\n\
         done 1\n\
         done 4\n\
         done\n\
         stopped\n\
         free 13 chain 2 data 1 pending 0 hand 0\n\
         done 0\n\
         audit ok\n",
    ),
];

/// A rename over a file of another directory, up to its start.
const RENAME: &str = "format blocks=16 cpus=2 block=4 page=4 inodes=8 snaps=4 actors=3\n\
     do 0 mkdir 0.1 d 493\n\
     do 0 mkdir 0.1 e 493\n\
     do 0 create 1.1 x 420\n\
     do 0 create 2.1 y 420\n\
     do 0 write 3.1 0 new\n\
     do 0 write 4.1 0 old\n\
     start 0 rename 1.1 x 2.1 y\n";

const STARTED: &str =
    "formatted\ndone 1.1\ndone 2.1\ndone 3.1\ndone 4.1\ndone 3\ndone 3\nstarted\n";

const OLD_TREE: &str = "/ d 493\n/d d 493\n/d/x f 420 3 new\n/e d 493\n/e/y f 420 3 old\nend\n";

const NEW_TREE: &str = "/ d 493\n/d d 493\n/e d 493\n/e/y f 420 3 new\nend\n";

/// Its journal is closed by this step: two looks, four locks, the check, ready, enter, three appends, open, three publishes.
const COMMIT: u64 = 17;

/// Behind that it retires three, leaves, unlocks four, gives the blocks of one CPU back, and then the number of the old file.
const STEPS: u64 = 27;

/// A stop after each step of the worked rename leaves the old tree up to its commit, and then the new one: by hand.
#[test]
fn a_rename_is_cut_off_at_each_step(rt: HostRuntime) -> Result<(), Fail> {
    for steps in 1..=STEPS {
        let script = format!(in rt.alloc(); "{RENAME}go 0 {steps}\nstop\ntree\naudit\n")?;
        let reply = if steps < STEPS { "moved" } else { "done" };
        let tree = if steps < COMMIT { OLD_TREE } else { NEW_TREE };
        let want = format!(in rt.alloc(); "{STARTED}{reply}\nstopped\n{tree}audit ok\n")?;
        check(&rt, script.as_bytes(), Ok(()), want.as_bytes());
    }
    Ok(())
}
