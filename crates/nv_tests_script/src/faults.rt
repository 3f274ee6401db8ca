//! Faults of lines: the first that applies, with the line's number.

use crate::rows::{FIRST_LINES, FORMAT, SECOND_LINES};
use crate::scripts::{check, filled};
use nv_base::{Fault, ScriptFaultKind};
use std::process::Abort;
use std::test::Fail;

/// A line behind a front ends the script with this fault, after this text.
fn is_faulty<R: AllocGlobal + Abort>(
    rt: &R,
    front: &str,
    line: &str,
    fault: Fault,
    text: &[u8],
) -> Result<(), Fail> {
    let script = filled(rt.alloc(), front, b'#', 0, line.as_bytes())?;
    check(rt, &script, Err(fault), text);
    Ok(())
}

/// A line with each fault ends the script by that fault, worked out by hand.
#[test]
fn lines_have_their_faults(rt: HostRuntime) -> Result<(), Fail> {
    for (line, kind) in SECOND_LINES {
        let fault = Fault::ScriptFault(*kind, 2);
        is_faulty(&rt, FORMAT, line, fault, b"formatted\n")?;
    }
    for (script, line, kind) in FIRST_LINES {
        let fault = Fault::ScriptFault(*kind, *line);
        is_faulty(&rt, "", script, fault, b"")?;
    }
    Ok(())
}

/// A world, with a call of actor 0 on its way and one of actor 1 that waits for it.
const EVENTS: &str = "format blocks=16 cpus=2 block=4 page=4 inodes=8 snaps=4 actors=3\n\
     go 0\n\
     start 3 snap\n\
     do 0 create 0.1 a 420\n\
     start 0 write 1.1 0 zz\n\
     start 0 snap\n\
     go 0\n\
     do 1 read 1.1 0 2\n\
     go 1\n\
     run 0\n\
     go 1\n";

const EVENTS_WRITTEN: &str = "formatted\n\
     refused E22 ActorIdle\n\
     refused E23 NoActor\n\
     done 1.1\n\
     started\n\
     refused E21 ActorBusy\n\
     moved\n\
     waits\n\
     waits\n\
     done 2\n\
     done 2 zz\n";

const OUT_OF_RANGE: &str = "format blocks=16 cpus=2 block=4 page=4 inodes=8 snaps=4 actors=3\n\
     do 9 snap\n\
     go 9\n\
     run 9\n\
     do 0 drop 18446744073709551615\n\
     do 0 stat 99.1\n\
     do 0 create 0.1 %2f 420\n\
     log 99\n";

const OUT_OF_RANGE_WRITTEN: &str = "formatted\n\
     refused E23 NoActor\n\
     refused E23 NoActor\n\
     refused E23 NoActor\n\
     refused E17 NoSnapshot\n\
     refused E3 Stale\n\
     refused E6 BadName\n\
     refused E3 Stale\n";

/// The rows `events_and_lines`, `events_and_an_unended_line` and `numbers_out_of_range`: the lines before the last with
/// what they write, and the last with its number and its fault.
const ENDED: &[(&str, &str, &str, u64, ScriptFaultKind)] = &[
    (EVENTS, EVENTS_WRITTEN, "jump\n", 12, ScriptFaultKind::Word),
    (EVENTS, EVENTS_WRITTEN, "tree", 12, ScriptFaultKind::Unended),
    (
        OUT_OF_RANGE,
        OUT_OF_RANGE_WRITTEN,
        "do 0 stat 18446744073709551616.1\n",
        9,
        ScriptFaultKind::Number,
    ),
];

/// The worked rows of events and of numbers out of range end by the fault of their last line.
#[test]
fn last_lines_have_their_faults(rt: HostRuntime) -> Result<(), Fail> {
    for (front, text, line, number, kind) in ENDED {
        let fault = Fault::ScriptFault(*kind, *number);
        is_faulty(&rt, front, line, fault, text.as_bytes())?;
    }
    Ok(())
}

/// Bytes behind a format: so many of one, and an end, with how the script ends.
type Behind = (u8, usize, &'static str, Result<(), Fault>);

const LONG: Result<(), Fault> = Err(Fault::ScriptFault(ScriptFaultKind::Long, 2));

const UNENDED: Result<(), Fault> = Err(Fault::ScriptFault(ScriptFaultKind::Unended, 2));

const PAST: Result<(), Fault> = Err(Fault::ScriptFault(ScriptFaultKind::Lines, 1_048_577));

const MANY: &[Behind] = &[
    (b'#', 4_096, "\n", Ok(())),
    (b'#', 4_096, "", UNENDED),
    (b'#', 4_097, "\n", LONG),
    (b'#', 4_097, "", LONG),
    (b'\n', 1_048_575, "", Ok(())),
    (b'\n', 1_048_575, "#", PAST),
    (b'\n', 1_048_576, "", PAST),
];

/// The longest line and the last line are taken, and those past them are faults: worked out by hand.
#[test]
fn long_lines_and_many_lines(rt: HostRuntime) -> Result<(), Fail> {
    for (byte, count, end, outcome) in MANY {
        let script = filled(rt.alloc(), FORMAT, *byte, *count, end.as_bytes())?;
        check(&rt, &script, *outcome, b"formatted\n");
    }
    Ok(())
}
