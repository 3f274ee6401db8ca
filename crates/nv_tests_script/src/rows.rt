//! Scripts, lines and faults, each with what comes of it.

use crate::worked::Row;
use nv_base::ScriptFaultKind;

/// Scripts with what they write.
pub const SCRIPTS: [Row; 11] = [
    ("", ""),
    ("# nothing but a comment\n\n", ""),
    // A refused format leaves no world, and the next command is a format again.
    (
        "format blocks=8 cpus=9 block=1 page=2 inodes=2 snaps=1 actors=1\n\
         format blocks=8 cpus=1 block=1 page=2 inodes=2 snaps=1 actors=1\n\
         do 0 create 0.1 a 420\n\
         do 0 create 0.1 b 420\n\
         do 0 write 1.1 65536 a\n\
         do 0 read 1.1 0 1\n",
        "refused E2 BadGeometry(cpus)\n\
         formatted\n\
         done 1.1\n\
         refused E12 NoInode\n\
         refused E10 FileTooBig\n\
         done 0\n",
    ),
    // Actors by their numbers, and numbers at their limits.
    (
        "format blocks=16 cpus=2 block=4 page=4 inodes=8 snaps=4 actors=3\n\
         do 3 read 0.1 0 1\n\
         do 18446744073709551615 read 0.1 0 1\n\
         do 2 create 0.1 a 420\n\
         do 1 write 1.1 0 %7a%7A\n\
         do 0 read 1.1 00000000000000000001 18446744073709551615\n",
        "formatted\n\
         refused E23 NoActor\n\
         refused E23 NoActor\n\
         done 1.1\n\
         done 2\n\
         done 1 z\n",
    ),
    // Refusals of calls, and a name that is printed with escapes.
    (
        "format blocks=16 cpus=2 block=4 page=4 inodes=8 snaps=4 actors=3\n\
         do 0 create 1.1 a 420\n\
         do 0 create 0.1 %2f 420\n\
         do 0 create 0.1 .. 420\n\
         do 0 create 0.1 a%20%25%ff 0\n\
         do 0 create 0.1 a%20%25%FF 0\n\
         do 0 create 1.1 a 420\n\
         do 0 read 0.1 0 1\n\
         do 0 read 1.2 0 1\n\
         do 0 read 1.1 0 1\n\
         tree\n",
        "formatted\n\
         refused E3 Stale\n\
         refused E6 BadName\n\
         refused E6 BadName\n\
         done 1.1\n\
         refused E8 Exists\n\
         refused E5 NotDirectory\n\
         refused E4 NotFile\n\
         refused E3 Stale\n\
         done 0\n\
         / d 493\n\
         /a%20%25%ff f 0 0\n\
         end\n",
    ),
    // The device is full: one block is left, and a write needs one and a log page.
    (
        "format blocks=5 cpus=1 block=4 page=2 inodes=2 snaps=1 actors=1\n\
         do 0 create 0.1 a 420\n\
         do 0 write 1.1 0 aaaabbbb\n\
         do 0 write 1.1 0 c\n\
         do 0 read 1.1 2 4\n\
         space\n",
        "formatted\n\
         done 1.1\n\
         done 8\n\
         refused E13 NoSpace\n\
         done 4 aabb\n\
         free 1 chain 2 data 2 pending 0 hand 0\n",
    ),
    // Calls that wait, are busy or idle.
    (
        "format blocks=16 cpus=2 block=4 page=4 inodes=8 snaps=4 actors=3\n\
         go 0\n\
         run 0\n\
         start 3 stat 0.1\n\
         do 0 create 0.1 a 420\n\
         start 0 write 1.1 0 zz\n\
         start 0 stat 0.1\n\
         do 0 stat 0.1\n\
         go 0\n\
         do 1 read 1.1 0 2\n\
         go 1\n\
         go 1 9\n\
         run 1\n\
         run 0\n\
         go 1\n\
         go 1\n",
        "formatted\n\
         refused E22 ActorIdle\n\
         refused E22 ActorIdle\n\
         refused E23 NoActor\n\
         done 1.1\n\
         started\n\
         refused E21 ActorBusy\n\
         refused E21 ActorBusy\n\
         moved\n\
         waits\n\
         waits\n\
         waits\n\
         waits\n\
         done 2\n\
         done 2 zz\n\
         refused E22 ActorIdle\n",
    ),
    // A create has 18 steps: number, two locks, check, one take, ready, enter, two appends, open, two publishes, close,
    // two retires, leave, two unlocks.
    (
        "format blocks=16 cpus=2 block=4 page=4 inodes=8 snaps=4 actors=3\n\
         start 0 create 0.1 a 420\n\
         go 0 4\n\
         space\n\
         go 0 6\n\
         log 1\n\
         tree\n\
         go 0 7\n\
         tree\n\
         go 0\n\
         log 1\n\
         space\n",
        "formatted\n\
         started\n\
         moved\n\
         free 15 chain 1 data 0 pending 0 hand 0\n\
         moved\n\
         log 1 0 1 0:0\n\
         / d 493\n\
         end\n\
         moved\n\
         / d 493\n\
         /a f 420 0\n\
         end\n\
         done 1.1\n\
         log 1 1 1 1:1\n\
         free 14 chain 2 data 0 pending 0 hand 0\n",
    ),
    // A rename onto its own place is answered at its check, after one look and two locks, and then makes two unlocks.
    (
        "format blocks=16 cpus=2 block=4 page=4 inodes=8 snaps=4 actors=3\n\
         do 0 create 0.1 a 420\n\
         start 0 rename 0.1 a 0.1 a\n\
         go 0 5\n\
         go 0 1048576\n\
         do 0 stat 0.1\n",
        "formatted\n\
         done 1.1\n\
         started\n\
         moved\n\
         done\n\
         done d 493 0 1\n",
    ),
    // A write before its commit holds a block in its hand, and after it the old block goes home.
    (
        "format blocks=16 cpus=2 block=4 page=4 inodes=8 snaps=4 actors=3\n\
         do 0 create 0.1 a 420\n\
         do 0 write 1.1 0 aaaa\n\
         start 0 write 1.1 0 bbbb\n\
         go 0 4\n\
         space\n\
         do 1 stat 0.1\n\
         run 0\n\
         do 1 read 1.1 0 4\n",
        "formatted\n\
         done 1.1\n\
         done 4\n\
         started\n\
         moved\n\
         free 12 chain 2 data 1 pending 0 hand 1\n\
         done d 493 0 1\n\
         done 4\n\
         done 4 bbbb\n",
    ),
    // Logs of a slot that is empty and of none, and names with escapes.
    (
        "format blocks=16 cpus=2 block=4 page=4 inodes=8 snaps=4 actors=3\n\
         log 7\n\
         log 8\n\
         do 0 create 0.1 a%20%2f%FF 420\n\
         do 0 create 0.1 a%20%25%FF 420\n\
         do 0 list 0.1\n\
         do 0 lookup 0.1 a%20%25%ff\n\
         do 0 lookup 0.1 b\n\
         do 0 mode 1.1 4095\n\
         do 0 stat 1.1\n\
         do 0 list 1.1\n\
         do 0 size 0.1 1\n",
        "formatted\n\
         log 7 0 0\n\
         refused E3 Stale\n\
         refused E6 BadName\n\
         done 1.1\n\
         done 1\n\
         a%20%25%ff 1.1\n\
         done 1.1\n\
         refused E7 Missing\n\
         done\n\
         done f 4095 0 2\n\
         refused E5 NotDirectory\n\
         refused E4 NotFile\n",
    ),
];

/// Makes a small world.
pub const FORMAT: &str = "format blocks=16 cpus=2 block=4 page=4 inodes=8 snaps=4 actors=3\n";

/// Second lines, after `FORMAT`, with the fault of each.
pub const SECOND_LINES: &[(&str, ScriptFaultKind)] = &[
    ("jump\n", ScriptFaultKind::Word),
    ("tree\r\n", ScriptFaultKind::Word),
    (" tree\n", ScriptFaultKind::Word),
    ("TREE\n", ScriptFaultKind::Word),
    ("trees\n", ScriptFaultKind::Word),
    ("fast\n", ScriptFaultKind::Word),
    ("do 0 \n", ScriptFaultKind::Word),
    ("do 0 clean 1\n", ScriptFaultKind::Word),
    ("start 0 Auto 1\n", ScriptFaultKind::Word),
    ("start 0 \n", ScriptFaultKind::Word),
    ("stops\n", ScriptFaultKind::Word),
    ("fork\n", ScriptFaultKind::Word),
    ("do x jump y\n", ScriptFaultKind::Word),
    ("do\n", ScriptFaultKind::Count),
    ("do jump\n", ScriptFaultKind::Count),
    ("do 0\n", ScriptFaultKind::Count),
    ("tree \n", ScriptFaultKind::Count),
    ("tree tree\n", ScriptFaultKind::Count),
    ("do  create 0.1 a 420\n", ScriptFaultKind::Count),
    ("do 0 create 0.1 a\n", ScriptFaultKind::Count),
    ("do 0 create 0.1  420\n", ScriptFaultKind::Count),
    ("do 0 create x %4 420 1\n", ScriptFaultKind::Count),
    ("do 0 read 1.1 0\n", ScriptFaultKind::Count),
    ("do 0 write 1.1 0 a b\n", ScriptFaultKind::Count),
    ("start\n", ScriptFaultKind::Count),
    ("start 0\n", ScriptFaultKind::Count),
    ("start 0 stat 0.1 0\n", ScriptFaultKind::Count),
    ("go\n", ScriptFaultKind::Count),
    ("go 0 1 1\n", ScriptFaultKind::Count),
    ("go 0 \n", ScriptFaultKind::Count),
    ("run\n", ScriptFaultKind::Count),
    ("run 0 1\n", ScriptFaultKind::Count),
    ("space 1\n", ScriptFaultKind::Count),
    ("lists \n", ScriptFaultKind::Count),
    ("log\n", ScriptFaultKind::Count),
    ("log 0 0\n", ScriptFaultKind::Count),
    ("do 0 mkdir 0.1 a\n", ScriptFaultKind::Count),
    ("do 0 size 1.1\n", ScriptFaultKind::Count),
    ("do 0 mode 1.1 x 1\n", ScriptFaultKind::Count),
    ("do 0 list\n", ScriptFaultKind::Count),
    ("do 0 lookup 0.1\n", ScriptFaultKind::Count),
    ("do 0 unlink 0.1\n", ScriptFaultKind::Count),
    ("do 0 rmdir 0.1 a a\n", ScriptFaultKind::Count),
    ("do 0 rename 0.1 a b\n", ScriptFaultKind::Count),
    ("do 0 snap 1\n", ScriptFaultKind::Count),
    ("do 0 drop\n", ScriptFaultKind::Count),
    ("do 0 show 1 2\n", ScriptFaultKind::Count),
    ("do 0 drain\n", ScriptFaultKind::Count),
    ("do 0 fast\n", ScriptFaultKind::Count),
    ("do 0 thorough 1 2\n", ScriptFaultKind::Count),
    ("start 0 auto\n", ScriptFaultKind::Count),
    ("snaps 1\n", ScriptFaultKind::Count),
    ("stree\n", ScriptFaultKind::Count),
    ("audit 1\n", ScriptFaultKind::Count),
    ("go x\n", ScriptFaultKind::Number),
    ("go 0 0\n", ScriptFaultKind::Number),
    ("go 0 1048577\n", ScriptFaultKind::Number),
    ("run -1\n", ScriptFaultKind::Number),
    ("log 0.1\n", ScriptFaultKind::Number),
    ("start x stat 0\n", ScriptFaultKind::Number),
    ("do 0 mkdir 0 %4 420\n", ScriptFaultKind::Number),
    ("do 0 size 1.1 x\n", ScriptFaultKind::Number),
    ("do 0 mode 1.1 4096\n", ScriptFaultKind::Number),
    ("do 0 stat 1\n", ScriptFaultKind::Number),
    ("do 0 list x\n", ScriptFaultKind::Number),
    ("do 0 rename 0.1 a b %4\n", ScriptFaultKind::Number),
    ("do 0 drop x\n", ScriptFaultKind::Number),
    ("do 0 show 1.1\n", ScriptFaultKind::Number),
    ("do 0 drain 0\n", ScriptFaultKind::Number),
    ("do 0 drain 1048577\n", ScriptFaultKind::Number),
    ("do 0 fast 1.1\n", ScriptFaultKind::Number),
    ("do 0 thorough x\n", ScriptFaultKind::Number),
    ("start 0 auto -1\n", ScriptFaultKind::Number),
    ("stree -1\n", ScriptFaultKind::Number),
    ("do -1 create 0.1 a 420\n", ScriptFaultKind::Number),
    (
        "do 18446744073709551616 create 0.1 a 420\n",
        ScriptFaultKind::Number,
    ),
    (
        "do 000000000000000000001 create 0.1 a 420\n",
        ScriptFaultKind::Number,
    ),
    ("do x create 0.1 a 420\n", ScriptFaultKind::Number),
    ("do 0 create 0 a 420\n", ScriptFaultKind::Number),
    ("do 0 create 0.1.1 a 420\n", ScriptFaultKind::Number),
    ("do 0 create 0.1 a 4096\n", ScriptFaultKind::Number),
    ("do 0 create 0.1 a 0x1ff\n", ScriptFaultKind::Number),
    ("do 0 write 1.1 +1 a\n", ScriptFaultKind::Number),
    ("do 0 read 1.1 0 1e\n", ScriptFaultKind::Number),
    ("do 0 create x %4 420\n", ScriptFaultKind::Number),
    ("do 0 create 0.1 %4 420\n", ScriptFaultKind::Text),
    ("do 0 create 0.1 %4 4096\n", ScriptFaultKind::Text),
    ("do 0 create 0.1 a%zz 420\n", ScriptFaultKind::Text),
    ("do 0 write 1.1 0 a\tb\n", ScriptFaultKind::Text),
    ("do 0 write 1.1 0 \u{7f}\n", ScriptFaultKind::Text),
    ("do 0 mkdir 0.1 % 4096\n", ScriptFaultKind::Text),
    ("do 0 lookup 0.1 %4\n", ScriptFaultKind::Text),
    ("do 0 unlink 0.1 \u{7f}\n", ScriptFaultKind::Text),
    ("do 0 rmdir 0.1 %g0\n", ScriptFaultKind::Text),
    ("do 0 rename 0.1 %4 x %4\n", ScriptFaultKind::Text),
    ("do 0 rename 0.1 a 0.1 %4\n", ScriptFaultKind::Text),
    ("format blocks=x\n", ScriptFaultKind::Order),
    (
        "format blocks=16 cpus=2 block=4 page=4 inodes=8 snaps=4 actors=3\n",
        ScriptFaultKind::Order,
    ),
    ("tree", ScriptFaultKind::Unended),
    ("jump", ScriptFaultKind::Unended),
    ("#", ScriptFaultKind::Unended),
];

/// First lines, with the fault of each. Comments and empty lines count.
pub const FIRST_LINES: &[(&str, u64, ScriptFaultKind)] = &[
    ("tree\n", 1, ScriptFaultKind::Order),
    ("# a comment\n\ntree 1\n", 3, ScriptFaultKind::Order),
    ("do 0 create 0.1 a 420\n", 1, ScriptFaultKind::Order),
    ("go\n", 1, ScriptFaultKind::Order),
    ("run x\n", 1, ScriptFaultKind::Order),
    ("do 0\n", 1, ScriptFaultKind::Count),
    ("jump\n", 1, ScriptFaultKind::Word),
    ("format\n", 1, ScriptFaultKind::Count),
    (
        "format blocks=16 cpus=2 block=4 page=4 inodes=8 snaps=4\n",
        1,
        ScriptFaultKind::Count,
    ),
    (
        "format blocks=16 cpus=2 block=4 page=4 inodes=8 actors=3 snaps=4\n",
        1,
        ScriptFaultKind::Number,
    ),
    (
        "format blocks= cpus=2 block=4 page=4 inodes=8 snaps=4 actors=3\n",
        1,
        ScriptFaultKind::Number,
    ),
    (
        "format blocks=16 cpus=2 block=4 page=4 inodes=8 snaps=4 actors=18446744073709551616\n",
        1,
        ScriptFaultKind::Number,
    ),
    (
        "format blocks16 cpus=2 block=4 page=4 inodes=8 snaps=4 actors=3\n",
        1,
        ScriptFaultKind::Number,
    ),
    ("\n#", 2, ScriptFaultKind::Unended),
];
