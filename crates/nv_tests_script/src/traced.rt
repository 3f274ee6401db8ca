//! Scripts that are traced: the first script and a reader that waits, by hand.

use crate::compare::{same, same_for};
use crate::playing::next_line;
use crate::worked::PARTIAL_AT_BOTH_ENDS;
use nv_base::Fault;
use nv_refuser::{Tally, refuse};
use nv_trace::trace_and_leave;
use std::alloc::{AllocError, Global};
use std::process::Abort;

/// The commands of the first script, each in its own line.
const FIRST: &str = "\
format blocks=16 cpus=2 block=4 page=4 inodes=8 snaps=4 actors=3
do 0 create 0.1 a 420
# a comment counts
do 0 write 1.1 3 abcdefghij
do 0 read 1.1 0 20
tree
";

const FIRST_TRACED: &str = "\
formatted
  2 0 create start
  2 0 create number moved
  2 0 create lock 0 moved
  2 0 create lock 1 moved
  2 0 create check moved
  2 0 create take_log_pages 0 moved
  2 0 create ready moved
  2 0 create enter moved
  2 0 create append 0 moved
  2 0 create append 1 moved
  2 0 create open 0 moved
  2 0 create publish 0 moved
  2 0 create publish 1 moved
  2 0 create close 0 moved commit 1
  2 0 create retire 0 moved
  2 0 create retire 1 moved
  2 0 create leave moved
  2 0 create unlock 0 moved
  2 0 create unlock 1 done
done 1.1
  4 0 write start
  4 0 write lock 1 moved
  4 0 write check moved
  4 0 write take_blocks 0 moved
  4 0 write ready moved
  4 0 write enter moved
  4 0 write append 1 moved
  4 0 write publish 1 moved commit 2
  4 0 write retire 1 moved
  4 0 write leave moved
  4 0 write unlock 1 done
done 10
  5 0 read start
  5 0 read visit 1 done
done 13 %00%00%00abcdefghij
/ d 493
/a f 420 13 %00%00%00abcdefghij
end
";

/// A reader that waits for a writer, one who is busy, one who is idle, and one who is not there.
const WAITING: &str = "\
format blocks=16 cpus=2 block=4 page=4 inodes=8 snaps=4 actors=3
do 0 create 0.1 a 420
start 0 write 1.1 0 zz
go 0
start 2 read 1.1 0 2
go 2
start 2 stat 1.1
go 1
run 9
run 0
go 2
";

const WAITING_TRACED: &str = "\
  3 0 write start
started
  4 0 write lock 1 moved
moved
  5 2 read start
started
  6 2 read visit 1 waits 0
waits
refused E21 ActorBusy
refused E22 ActorIdle
refused E23 NoActor
  10 0 write check moved
  10 0 write take_blocks 0 moved
  10 0 write ready moved
  10 0 write enter moved
  10 0 write append 1 moved
  10 0 write publish 1 moved commit 2
  10 0 write retire 1 moved
  10 0 write leave moved
  10 0 write unlock 1 done
done 2
  11 2 read visit 1 done
done 2 zz
";

/// How a traced script ends, and what it writes.
fn traced(alloc: Global, script: &str) -> (Result<(), Fault>, Vec<u8>) {
    let mut reader = script.as_bytes();
    let mut written = Vec::new(alloc);
    let ended = trace_and_leave(alloc, &mut reader, &mut written);
    (ended, written)
}

/// A trace of the first script, worked out by hand.
#[test]
fn the_first_script(rt: HostRuntime) {
    let (ended, written) = traced(rt.alloc(), FIRST);
    same(&rt, ended, Ok(()));
    same(&rt, written.as_slice(), FIRST_TRACED.as_bytes());
}

/// A trace of a reader that waits, worked out by hand.
#[test]
fn a_reader_that_waits(rt: HostRuntime) {
    let (ended, written) = traced(rt.alloc(), WAITING);
    same(&rt, ended, Ok(()));
    same(
        &rt,
        written.as_slice().ends_with(WAITING_TRACED.as_bytes()),
        true,
    );
}

/// A writer that takes no more ends the trace by `E29` behind a front.
#[test]
fn an_output_without_room(rt: HostRuntime) {
    let mut room = [0u8; 15];
    let mut reader = PARTIAL_AT_BOTH_ENDS.0.as_bytes();
    let mut writer = room.as_mut_slice();
    let ended = trace_and_leave(rt.alloc(), &mut reader, &mut writer);
    same(&rt, ended, Err(Fault::Write));
    same(&rt, room.as_slice(), b"formatted\n  2 0".as_slice());
}

/// The first script, in which each growth is refused in turn. Where that ends it, what it wrote is whole lines of what it writes, and of
/// the events of the line that was refused there is none.
fn sweep(rt: &impl Abort, alloc: Global, tally: &mut Tally) -> Result<(), AllocError> {
    for growth in 1..u64::MAX {
        let mut written = Vec::with_capacity(alloc, FIRST_TRACED.len().saturating_mul(2))?;
        let mut reader = FIRST.as_bytes();
        refuse(alloc, growth);
        let ended = trace_and_leave(alloc, &mut reader, &mut written);
        if !tally.ended(alloc) {
            same(rt, written.as_slice(), FIRST_TRACED.as_bytes());
            return Ok(());
        }
        if matches!(ended, Err(Fault::OutOfMemory(_))) {
            same_for(rt, &growth, ends_behind_an_answer(written.as_slice()), true);
        }
    }
    Ok(())
}

/// Whether this is a front of the first script's text that no line of an event ends.
fn ends_behind_an_answer(written: &[u8]) -> bool {
    let mut rest = written;
    let mut is_event = false;
    for _line in 0..written.len() {
        let Some((line, behind)) = next_line(rest) else {
            break;
        };
        is_event = line.starts_with(b"  ");
        rest = behind;
    }
    FIRST_TRACED.as_bytes().starts_with(written) && rest.is_empty() && !is_event
}

/// Each growth of a trace is refused in turn, and no line is cut in two: a clause lets it end behind any front.
#[test]
fn the_first_script_with_one_refused_growth(rt: HostRuntime) -> Result<(), AllocError> {
    let mut tally = Tally::new();
    sweep(&rt, rt.alloc(), &mut tally)?;
    tally.tell(&rt, "trace");
    Ok(())
}
