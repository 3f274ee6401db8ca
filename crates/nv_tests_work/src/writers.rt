//! The script of two writers, in several threads.

use crate::compare::{holds_for, same_for};
use crate::played::played;
use nv_work::OpenGate;

/// Two files are made, and behind `fork` two actors write one each.
pub const TWO_WRITERS: &[u8] = b"\
format blocks=64 cpus=2 block=4 page=4 inodes=8 snaps=4 actors=2
do 0 create 0.1 a 420
do 0 create 0.1 b 420
fork
do 0 write 1.1 0 aaaa
do 1 write 2.1 0 bbbb
do 0 write 1.1 2 AAAA
do 1 write 2.1 2 BBBB
do 0 mode 1.1 1
do 1 mode 2.1 2
";

/// What it writes in two threads or more.
pub const IN_THREADS: &[u8] = b"\
formatted
done 1.1
done 2.1
0: done 4
0: done 4
0: done
1: done 4
1: done 4
1: done
/ d 493
/a f 1 6 aaAAAA
/b f 2 6 bbBBBB
end
snaps 0 epoch 1 commit 8
audit ok
";

/// The same in one thread, which makes all calls in the order of the script.
const IN_ONE: &[u8] = b"\
formatted
done 1.1
done 2.1
0: done 4
0: done 4
0: done 4
0: done 4
0: done
0: done
/ d 493
/a f 1 6 aaAAAA
/b f 2 6 bbBBBB
end
snaps 0 epoch 1 commit 8
audit ok
";

/// Threads, cleaners, and what is written.
const CROWDS: [(u64, u64, &[u8]); 9] = [
    (2, 1, IN_THREADS),
    (2, 0, IN_THREADS),
    (2, 4, IN_THREADS),
    (3, 1, IN_THREADS),
    (3, 0, IN_THREADS),
    (3, 4, IN_THREADS),
    (1, 1, IN_ONE),
    (1, 0, IN_ONE),
    (1, 4, IN_ONE),
];

/// The script of two writers has the text that was worked out by hand, in any number of threads and cleaners.
#[test]
fn script_of_two_writers(rt: HostRuntime) {
    for (threads, cleaners, want) in CROWDS {
        let crowd = (threads, cleaners);
        let (outcome, text) = played(&rt, rt.alloc(), TWO_WRITERS, threads, cleaners, &OpenGate);
        same_for(&rt, &crowd, outcome, Ok(()));
        holds_for(&rt, &crowd, text.as_slice() == want);
    }
}

/// The same script with one line more, by an actor that the world does not have.
const ONE_LINE_MORE: &[u8] = b"\
format blocks=64 cpus=2 block=4 page=4 inodes=8 snaps=4 actors=2
do 0 create 0.1 a 420
do 0 create 0.1 b 420
fork
do 0 write 1.1 0 aaaa
do 1 write 2.1 0 bbbb
do 0 write 1.1 2 AAAA
do 1 write 2.1 2 BBBB
do 0 mode 1.1 1
do 1 mode 2.1 2
do 7 snap
";

/// And with comments behind `fork`, and a call of an actor that the world does not have.
const NO_ACTOR: &[u8] = b"\
format blocks=64 cpus=2 block=4 page=4 inodes=8 snaps=4 actors=2
do 0 create 0.1 a 420
do 0 create 0.1 b 420
fork
# the first actor
do 0 write 1.1 0 aaaa
do 0 write 1.1 2 AAAA
do 0 mode 1.1 1

# the second actor, and another of its thread
do 1 write 2.1 0 bbbb
do 1 write 2.1 2 BBBB
do 1 mode 2.1 2
do 7 snap
";

const NO_ACTOR_ANSWERED: &[u8] = b"\
formatted
done 1.1
done 2.1
0: done 4
0: done 4
0: done
1: done 4
1: done 4
1: done
1: refused E23 NoActor
/ d 493
/a f 1 6 aaAAAA
/b f 2 6 bbBBBB
end
snaps 0 epoch 1 commit 8
audit ok
";

/// An actor that is not there is refused in its place: worked out by hand.
#[test]
fn an_actor_that_is_not_there_is_refused_in_its_place(rt: HostRuntime) {
    for (script, name) in [(ONE_LINE_MORE, "one line more"), (NO_ACTOR, "comments")] {
        let (outcome, text) = played(&rt, rt.alloc(), script, 2, 1, &OpenGate);
        same_for(&rt, &name, outcome, Ok(()));
        holds_for(&rt, &name, text.as_slice() == NO_ACTOR_ANSWERED);
    }
}
