//! Scripts that are traced as JSON: the first script and a reader that waits, by hand.

use crate::compare::{same, same_for};
use nv_base::{Fault, ScriptFaultKind};
use nv_refuser::{Tally, refuse};
use nv_trace::trace_json_and_leave;
use std::alloc::{AllocError, Global};
use std::process::Abort;

/// The commands of the first script, each in its own line.
const FIRST: &str = "\
format blocks=16 cpus=2 block=4 page=4 inodes=8 snaps=4 actors=3
do 0 create 0.1 a 420
# a comment counts
do 0 write 1.1 3 abcdefghij
do 0 read 1.1 0 20
tree
";

const FIRST_TOLD: &str =
    r#"{"line":1,"text":"format blocks=16 cpus=2 block=4 page=4 inodes=8 snaps=4 actors=3"}
{"line":1,"world":{"numbers":{"blocks":16,"cpus":2,"block":4,"page":4,"inodes":8,"snaps":4,"actors":3},"lists":[{"cpu":0,"free":[[1,7]]},{"cpu":1,"free":[[8,15]]}],"pool":7,"cells":[{"ino":0,"gen":1,"tail":1,"pages":[{"block":0,"entries":[{"commit":0,"place":0,"epoch":1,"item":"init","kind":"dir","mode":493,"marks":["current","current","current"]}]}]}],"book":{"epoch":1,"commit":0,"journals":[],"snaps":[],"deferred":[]}}}
{"line":1,"answer":"formatted"}
{"line":2,"text":"do 0 create 0.1 a 420"}
{"line":2,"actor":0,"call":"create","step":"start","reply":"started"}
{"line":2,"actor":0,"call":"create","step":"number","reply":"moved","hand":{"data":[],"log":[],"chain":[],"ino":1,"killed":0},"lent":{"pool":6}}
{"line":2,"actor":0,"call":"create","step":"lock","at":0,"reply":"moved","hand":{"data":[],"log":[],"chain":[],"ino":1,"killed":0},"lent":{"lock":{"ino":0,"owner":0}}}
{"line":2,"actor":0,"call":"create","step":"lock","at":1,"reply":"moved","hand":{"data":[],"log":[],"chain":[],"ino":1,"killed":0},"lent":{"lock":{"ino":1,"owner":0}}}
{"line":2,"actor":0,"call":"create","step":"check","reply":"moved","hand":{"data":[],"log":[],"chain":[],"ino":1,"killed":0},"lent":{}}
{"line":2,"actor":0,"call":"create","step":"take_log_pages","at":0,"reply":"moved","hand":{"data":[],"log":[1],"chain":[],"ino":1,"killed":0},"lent":{"list":{"cpu":0,"free":[[2,7]]}}}
{"line":2,"actor":0,"call":"create","step":"ready","reply":"moved","hand":{"data":[],"log":[1],"chain":[],"ino":1,"killed":0},"lent":{}}
{"line":2,"actor":0,"call":"create","step":"enter","reply":"moved","hand":{"data":[],"log":[1],"chain":[],"ino":1,"killed":0},"lent":{"book":{"epoch":1,"commit":1,"journals":[],"snaps":[],"deferred":[]},"commit_lock":0}}
{"line":2,"actor":0,"call":"create","step":"append","at":0,"reply":"moved","hand":{"data":[],"log":[1],"chain":[],"ino":1,"killed":0},"lent":{"cell":{"ino":0,"gen":1,"tail":1,"pages":[{"block":0,"entries":[{"commit":0,"place":0,"epoch":1,"item":"init","kind":"dir","mode":493,"marks":["current","current","current"]},{"commit":1,"place":0,"epoch":1,"item":"bind","name":"a","to":"1.1","marks":[]}]}]}}}
{"line":2,"actor":0,"call":"create","step":"append","at":1,"reply":"moved","hand":{"data":[],"log":[],"chain":[],"ino":1,"killed":0},"lent":{"cell":{"ino":1,"gen":1,"tail":0,"pages":[{"block":1,"entries":[{"commit":1,"place":1,"epoch":1,"item":"init","kind":"file","mode":420,"marks":[]}]}]}}}
{"line":2,"actor":0,"call":"create","step":"open","at":0,"reply":"moved","hand":{"data":[],"log":[],"chain":[],"ino":1,"killed":0},"lent":{"book":{"epoch":1,"commit":1,"journals":[{"cpu":0,"tails":[[0,1],[1,0]]}],"snaps":[],"deferred":[]}}}
{"line":2,"actor":0,"call":"create","step":"publish","at":0,"reply":"moved","hand":{"data":[],"log":[],"chain":[],"ino":1,"killed":0},"lent":{"cell":{"ino":0,"gen":1,"tail":2,"pages":[{"block":0,"entries":[{"commit":0,"place":0,"epoch":1,"item":"init","kind":"dir","mode":493,"marks":["current","current","current"]},{"commit":1,"place":0,"epoch":1,"item":"bind","name":"a","to":"1.1","marks":["current"]}]}]}}}
{"line":2,"actor":0,"call":"create","step":"publish","at":1,"reply":"moved","hand":{"data":[],"log":[],"chain":[],"ino":1,"killed":0},"lent":{"cell":{"ino":1,"gen":1,"tail":1,"pages":[{"block":1,"entries":[{"commit":1,"place":1,"epoch":1,"item":"init","kind":"file","mode":420,"marks":["current","current","current"]}]}]}}}
{"line":2,"actor":0,"call":"create","step":"close","at":0,"reply":"moved","commit":1,"hand":{"data":[],"log":[],"chain":[],"ino":null,"killed":0},"lent":{"book":{"epoch":1,"commit":1,"journals":[],"snaps":[],"deferred":[]}}}
{"line":2,"actor":0,"call":"create","step":"retire","at":0,"reply":"moved","hand":{"data":[],"log":[],"chain":[],"ino":null,"killed":0},"lent":{"cell":{"ino":0,"gen":1,"tail":2,"pages":[{"block":0,"entries":[{"commit":0,"place":0,"epoch":1,"item":"init","kind":"dir","mode":493,"marks":["current","current","current"]},{"commit":1,"place":0,"epoch":1,"item":"bind","name":"a","to":"1.1","marks":["current"]}]}]},"book":{"epoch":1,"commit":1,"journals":[],"snaps":[],"deferred":[]}}}
{"line":2,"actor":0,"call":"create","step":"retire","at":1,"reply":"moved","hand":{"data":[],"log":[],"chain":[],"ino":null,"killed":0},"lent":{"cell":{"ino":1,"gen":1,"tail":1,"pages":[{"block":1,"entries":[{"commit":1,"place":1,"epoch":1,"item":"init","kind":"file","mode":420,"marks":["current","current","current"]}]}]},"book":{"epoch":1,"commit":1,"journals":[],"snaps":[],"deferred":[]}}}
{"line":2,"actor":0,"call":"create","step":"leave","reply":"moved","hand":{"data":[],"log":[],"chain":[],"ino":null,"killed":0},"lent":{"commit_lock":null}}
{"line":2,"actor":0,"call":"create","step":"unlock","at":0,"reply":"moved","hand":{"data":[],"log":[],"chain":[],"ino":null,"killed":0},"lent":{"lock":{"ino":0,"owner":null}}}
{"line":2,"actor":0,"call":"create","step":"unlock","at":1,"reply":"done","hand":{"data":[],"log":[],"chain":[],"ino":null,"killed":0},"lent":{"lock":{"ino":1,"owner":null}}}
{"line":2,"answer":"done 1.1"}
{"line":4,"text":"do 0 write 1.1 3 abcdefghij"}
{"line":4,"actor":0,"call":"write","step":"start","reply":"started"}
{"line":4,"actor":0,"call":"write","step":"lock","at":1,"reply":"moved","hand":{"data":[],"log":[],"chain":[],"ino":null,"killed":0},"lent":{"lock":{"ino":1,"owner":0}}}
{"line":4,"actor":0,"call":"write","step":"check","reply":"moved","hand":{"data":[],"log":[],"chain":[],"ino":null,"killed":0},"lent":{}}
{"line":4,"actor":0,"call":"write","step":"take_blocks","at":0,"reply":"moved","hand":{"data":[2,3,4,5],"log":[],"chain":[],"ino":null,"killed":0},"lent":{"list":{"cpu":0,"free":[[6,7]]}}}
{"line":4,"actor":0,"call":"write","step":"ready","reply":"moved","hand":{"data":[2,3,4,5],"log":[],"chain":[],"ino":null,"killed":0},"lent":{}}
{"line":4,"actor":0,"call":"write","step":"enter","reply":"moved","hand":{"data":[2,3,4,5],"log":[],"chain":[],"ino":null,"killed":0},"lent":{"book":{"epoch":1,"commit":2,"journals":[],"snaps":[],"deferred":[]},"commit_lock":0}}
{"line":4,"actor":0,"call":"write","step":"append","at":1,"reply":"moved","hand":{"data":[],"log":[],"chain":[],"ino":null,"killed":0},"lent":{"cell":{"ino":1,"gen":1,"tail":1,"pages":[{"block":1,"entries":[{"commit":1,"place":1,"epoch":1,"item":"init","kind":"file","mode":420,"marks":["current","current","current"]},{"commit":2,"place":0,"epoch":1,"item":"write","first":0,"start":2,"len":4,"size":13,"marks":[]}]}]}}}
{"line":4,"actor":0,"call":"write","step":"publish","at":1,"reply":"moved","commit":2,"hand":{"data":[],"log":[],"chain":[],"ino":null,"killed":1},"lent":{"cell":{"ino":1,"gen":1,"tail":2,"pages":[{"block":1,"entries":[{"commit":1,"place":1,"epoch":1,"item":"init","kind":"file","mode":420,"marks":["current","current","killed"]},{"commit":2,"place":0,"epoch":1,"item":"write","first":0,"start":2,"len":4,"size":13,"marks":["current","current","current","current","current"]}]}]}}}
{"line":4,"actor":0,"call":"write","step":"retire","at":1,"reply":"moved","hand":{"data":[],"log":[],"chain":[],"ino":null,"killed":0},"lent":{"cell":{"ino":1,"gen":1,"tail":2,"pages":[{"block":1,"entries":[{"commit":1,"place":1,"epoch":1,"item":"init","kind":"file","mode":420,"marks":["current","current","out"]},{"commit":2,"place":0,"epoch":1,"item":"write","first":0,"start":2,"len":4,"size":13,"marks":["current","current","current","current","current"]}]}]},"book":{"epoch":1,"commit":2,"journals":[],"snaps":[],"deferred":[]}}}
{"line":4,"actor":0,"call":"write","step":"leave","reply":"moved","hand":{"data":[],"log":[],"chain":[],"ino":null,"killed":0},"lent":{"commit_lock":null}}
{"line":4,"actor":0,"call":"write","step":"unlock","at":1,"reply":"done","hand":{"data":[],"log":[],"chain":[],"ino":null,"killed":0},"lent":{"lock":{"ino":1,"owner":null}}}
{"line":4,"answer":"done 10"}
{"line":5,"text":"do 0 read 1.1 0 20"}
{"line":5,"actor":0,"call":"read","step":"start","reply":"started"}
{"line":5,"actor":0,"call":"read","step":"visit","at":1,"reply":"done","hand":{"data":[],"log":[],"chain":[],"ino":null,"killed":0},"lent":{}}
{"line":5,"answer":"done 13 %00%00%00abcdefghij"}
{"line":6,"text":"tree"}
{"line":6,"answer":"/ d 493"}
{"line":6,"answer":"/a f 420 13 %00%00%00abcdefghij"}
{"line":6,"answer":"end"}
"#;

/// A reader that waits for a writer, and behind it a line that is no command.
const WAITING: &str = "\
format blocks=16 cpus=2 block=4 page=4 inodes=8 snaps=4 actors=3
do 0 create 0.1 a 420
start 0 mode 1.1 0
go 0
start 2 stat 1.1
go 2
go 1
staart
";

const WAITING_TOLD: &str = r#"{"line":5,"text":"start 2 stat 1.1"}
{"line":5,"actor":2,"call":"stat","step":"start","reply":"started"}
{"line":5,"answer":"started"}
{"line":6,"text":"go 2"}
{"line":6,"actor":2,"call":"stat","step":"visit","at":1,"reply":"waits","for":0}
{"line":6,"answer":"waits"}
{"line":7,"text":"go 1"}
{"line":7,"answer":"refused E22 ActorIdle"}
"#;

/// A name that JSON quotes and scripts escape.
const NAMED: &str = "\
format blocks=16 cpus=2 block=4 page=4 inodes=8 snaps=4 actors=3
do 0 create 0.1 <b>\"\\%25 420
";

/// How a script ends that is traced as JSON, and what it writes.
fn told(alloc: Global, script: &str) -> (Result<(), Fault>, Vec<u8>) {
    let mut reader = script.as_bytes();
    let mut written = Vec::new(alloc);
    let ended = trace_json_and_leave(alloc, &mut reader, &mut written);
    (ended, written)
}

/// A trace of the first script as JSON, worked out by hand.
#[test]
fn the_first_script_as_json(rt: HostRuntime) {
    let (ended, written) = told(rt.alloc(), FIRST);
    same(&rt, ended, Ok(()));
    same(&rt, written.as_slice(), FIRST_TOLD.as_bytes());
}

/// A trace as JSON of a reader that waits, worked out by hand.
#[test]
fn a_step_that_waits_has_no_parts(rt: HostRuntime) {
    let (ended, written) = told(rt.alloc(), WAITING);
    same(
        &rt,
        ended,
        Err(Fault::ScriptFault(ScriptFaultKind::Word, 8)),
    );
    same(
        &rt,
        written.as_slice().ends_with(WAITING_TOLD.as_bytes()),
        true,
    );
}

/// A name is quoted as JSON is: text that was worked out by hand.
#[test]
fn a_name_is_quoted(rt: HostRuntime) {
    let (ended, written) = told(rt.alloc(), NAMED);
    same(&rt, ended, Ok(()));
    let text = str::from_utf8(written.as_slice()).unwrap_or("");
    for part in [
        r#""text":"do 0 create 0.1 <b>\"\\%25 420"}"#,
        r#""item":"bind","name":"<b>\"\\%25","to":"1.1""#,
    ] {
        same(&rt, text.contains(part), true);
    }
}

/// A writer that takes no more ends the trace by `E29` behind a front.
#[test]
fn an_output_without_room_for_json(rt: HostRuntime) {
    let mut room = [0u8; 15];
    let mut reader = FIRST.as_bytes();
    let mut writer = room.as_mut_slice();
    let ended = trace_json_and_leave(rt.alloc(), &mut reader, &mut writer);
    same(&rt, ended, Err(Fault::Write));
    same(&rt, room.as_slice(), b"{\"line\":1,\"text".as_slice());
}

/// The first script, in which each growth is refused in turn. Where that ends it, it wrote nothing of the line that was refused.
fn sweep(rt: &impl Abort, alloc: Global, tally: &mut Tally) -> Result<(), AllocError> {
    for growth in 1..u64::MAX {
        let mut written = Vec::with_capacity(alloc, FIRST_TOLD.len().saturating_mul(2))?;
        let mut reader = FIRST.as_bytes();
        refuse(alloc, growth);
        let ended = trace_json_and_leave(alloc, &mut reader, &mut written);
        if !tally.ended(alloc) {
            same(rt, written.as_slice(), FIRST_TOLD.as_bytes());
            return Ok(());
        }
        if matches!(ended, Err(Fault::OutOfMemory(_))) {
            same_for(rt, &growth, ends_before_a_text(written.as_slice()), true);
        }
    }
    Ok(())
}

/// Whether this is a front of what the first script writes, behind which nothing stands or the text of a line.
fn ends_before_a_text(written: &[u8]) -> bool {
    let front = str::from_utf8(written).unwrap_or("no front");
    match FIRST_TOLD.strip_prefix(front) {
        Some(rest) => rest.is_empty() || next_line(rest).contains(",\"text\":"),
        None => false,
    }
}

fn next_line(text: &str) -> &str {
    text.lines().next().unwrap_or("")
}

/// Each growth of a trace as JSON is refused in turn, and no line is cut in two: a clause lets it be any front.
#[test]
fn the_first_script_with_one_refused_growth(rt: HostRuntime) -> Result<(), AllocError> {
    let mut tally = Tally::new();
    sweep(&rt, rt.alloc(), &mut tally)?;
    tally.tell(&rt, "trace as JSON");
    Ok(())
}
