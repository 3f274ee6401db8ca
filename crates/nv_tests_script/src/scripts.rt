//! Whole scripts, and what they write.

use crate::cleaners::OF_CLEANERS;
use crate::compare::same_for;
use crate::rows::{FORMAT, SCRIPTS};
use crate::snapshots::OF_SNAPSHOTS;
use crate::stops::OF_STOPS;
use crate::worked::{Row, WORKED};
use nv_base::Fault;
use nv_script::play;
use std::alloc::{AllocError, Global};
use std::cell::Cell;
use std::io;
use std::io::{Read, Write};
use std::process::Abort;
use std::test::Fail;

/// Plays a script, and asserts how it ends and what it writes.
pub fn check<R: AllocGlobal + Abort>(
    rt: &R,
    script: &[u8],
    outcome: Result<(), Fault>,
    text: &[u8],
) {
    let mut reader = script;
    let mut written = Vec::new(rt.alloc());
    let ended = play(rt.alloc(), &mut reader, &mut written);
    same_for(rt, &script, ended, outcome);
    same_for(rt, &script, written.as_slice(), text);
}

/// A front, so many bytes, and an end.
pub fn filled(
    alloc: Global,
    front: &str,
    byte: u8,
    count: usize,
    end: &[u8],
) -> Result<Vec<u8>, AllocError> {
    let mut bytes = Vec::from_slice(alloc, front.as_bytes())?;
    bytes.extend_from_slice(&vec![in alloc; byte; count]?)?;
    bytes.extend_from_slice(end)?;
    Ok(bytes)
}

/// Plays each script whole, and asserts what it writes.
fn check_all<R: AllocGlobal + Abort>(rt: &R, rows: &[Row]) {
    for (script, text) in rows {
        check(rt, script.as_bytes(), Ok(()), text.as_bytes());
    }
}

/// Each worked row has the text that was worked out by hand: with ample memory no call of it is refused memory.
#[test]
fn scripts_write_their_texts(rt: HostRuntime) -> Result<(), Fail> {
    check_all(&rt, &WORKED);
    check_all(&rt, &SCRIPTS);
    check_all(&rt, OF_SNAPSHOTS);
    check_all(&rt, OF_CLEANERS);
    check_all(&rt, OF_STOPS);
    for (front, letters, end, text) in LONGEST {
        let script = filled(rt.alloc(), front, b'a', *letters, end.as_bytes())?;
        check(&rt, &script, Ok(()), text.as_bytes());
    }
    Ok(())
}

const ONE_PAGE: &str = "format blocks=2000 cpus=1 block=1 page=2 inodes=2 snaps=1 actors=1\n\
                        do 0 create 0.1 a 420\n\
                        do 0 write 1.1 0 ";

/// The rows `limits_without_size` and `limits`, up to a write of 1,025 letters.
const LIMITS_WITHOUT_SIZE: &str =
    "format blocks=8 cpus=9 block=1 page=2 inodes=2 snaps=1 actors=1\n\
     format blocks=8 cpus=1 block=1 page=2 inodes=2 snaps=1 actors=1\n\
     do 0 create 0.1 a 420\n\
     do 0 create 0.1 b 420\n\
     do 0 write 1.1 65536 a\n\
     do 0 write 1.1 65536 ";

const LIMITS: &str = "format blocks=8 cpus=9 block=1 page=2 inodes=2 snaps=1 actors=1\n\
     format blocks=8 cpus=1 block=1 page=2 inodes=2 snaps=1 actors=1\n\
     do 0 create 0.1 a 420\n\
     do 0 create 0.1 b 420\n\
     do 0 size 1.1 65536\n\
     do 0 write 1.1 65536 a\n\
     do 0 write 1.1 65536 ";

/// What stands before so many letters, what stands behind them, and the text of that script.
const LONGEST: &[(&str, usize, &str, &str)] = &[
    (ONE_PAGE, 1_024, "\n", "formatted\ndone 1.1\ndone 1024\n"),
    (
        ONE_PAGE,
        1_025,
        "\n",
        "formatted\ndone 1.1\nrefused E11 WriteTooBig\n",
    ),
    (
        LIMITS_WITHOUT_SIZE,
        1_025,
        "\n",
        "refused E2 BadGeometry(cpus)\n\
         formatted\n\
         done 1.1\n\
         refused E12 NoInode\n\
         refused E10 FileTooBig\n\
         refused E11 WriteTooBig\n",
    ),
    (
        LIMITS,
        1_025,
        "\n\
         do 0 read 1.1 65535 9\n\
         do 0 read 1.1 65536 9\n",
        "refused E2 BadGeometry(cpus)\n\
         formatted\n\
         done 1.1\n\
         refused E12 NoInode\n\
         done\n\
         refused E10 FileTooBig\n\
         refused E11 WriteTooBig\n\
         done 1 %00\n\
         done 0\n",
    ),
];

/// Gives one line at a time, or takes any bytes. Each line's text must have been taken before the next line
/// is asked for.
#[derive(Drop)]
struct Terminal<'a> {
    lines: &'a [(&'a str, &'a str)],
    given: usize,
    taken: &'a Cell<usize>,
    texts: usize,
    is_answered: bool,
}

impl<'a> Read for Terminal<'a> {
    fn read(&mut self, buf: &mut [u8]) -> io::Result<usize> {
        self.is_answered = self.is_answered && self.taken.get() == self.texts;
        if self.given >= self.lines.len() {
            return Ok(0);
        }
        let (line, text) = self.lines[self.given];
        let count = line.len().min(buf.len());
        buf[..count].copy_from_slice(&line.as_bytes()[..count]);
        self.texts = self.texts.saturating_add(text.len());
        self.given += 1;
        Ok(count)
    }
}

/// Counts the bytes that it takes, and the calls.
#[derive(Drop)]
struct Screen<'a> {
    taken: &'a Cell<usize>,
    calls: usize,
}

impl<'a> Write for Screen<'a> {
    fn write(&mut self, buf: &[u8]) -> io::Result<usize> {
        self.taken.set(self.taken.get().saturating_add(buf.len()));
        self.calls = self.calls.saturating_add(1);
        Ok(buf.len())
    }

    fn flush(&mut self) -> io::Result<()> {
        Ok(())
    }
}

/// Lines, each with its text.
const DIALOGUE: &[(&str, &str)] = &[
    (FORMAT, "formatted\n"),
    ("# a comment\n", ""),
    ("do 0 create 0.1 a 420\n", "done 1.1\n"),
    ("do 0 create 0.1 a 420\n", "refused E8 Exists\n"),
    ("tree\n", "/ d 493\n/a f 420 0\nend\n"),
];

/// At a terminal each line is answered before the next read: no clause orders reads and writes.
#[test]
fn each_line_is_answered_before_the_next_is_asked_for(rt: HostRuntime) -> Result<(), Fail> {
    let taken = Cell::new(0);
    let mut reader = Terminal {
        lines: DIALOGUE,
        given: 0,
        taken: &taken,
        texts: 0,
        is_answered: true,
    };
    let mut writer = Screen {
        taken: &taken,
        calls: 0,
    };
    let outcome = play(rt.alloc(), &mut reader, &mut writer);
    assert!(rt; outcome.is_ok() && reader.is_answered && reader.given == 5);
    assert!(rt; writer.calls == 4);
    Ok(())
}

/// Plays a script; how it ends, how many bytes it writes, and by how many calls.
fn counts_of(alloc: Global, script: &str) -> (Result<(), Fault>, usize, usize) {
    let taken = Cell::new(0);
    let mut reader = script.as_bytes();
    let mut writer = Screen {
        taken: &taken,
        calls: 0,
    };
    let outcome = play(alloc, &mut reader, &mut writer);
    (outcome, taken.get(), writer.calls)
}

fn are_one_write<R: AllocGlobal + Abort>(rt: &R, rows: &[Row]) {
    for (script, text) in rows {
        let want = (Ok(()), text.len(), text.len().min(1));
        same_for(rt, script, counts_of(rt.alloc(), script), want);
    }
}

/// Where no line is waited for all answers are one write: no clause counts writes.
#[test]
fn answers_are_one_write_where_no_line_is_waited_for(rt: HostRuntime) {
    are_one_write(&rt, &WORKED);
    are_one_write(&rt, &SCRIPTS);
    are_one_write(&rt, OF_SNAPSHOTS);
    are_one_write(&rt, OF_CLEANERS);
}
