//! What the lines of a row are told where no growth is refused, and which calls are on their way between them.

use crate::compare::{same_for, same_text, shown};
use crate::playing::{Playing, behind_first_word, next_line, word};
use crate::reports::Reports;
use nv_base::Fault;
use nv_script::command::is_skipped;
use std::alloc::Global;
use std::process::Abort;
use std::test::Fail;

/// A line, what it is told, and what is reported behind it.
#[derive(Debug, Drop)]
pub struct Told {
    pub line: Vec<u8>,
    pub answer: Vec<u8>,
    /// How it ends the script, if it does.
    pub end: Option<Fault>,
    pub reports: Reports,
}

/// The actors of rows.
pub const ACTORS: &[&[u8]] = &[b"0", b"1", b"2", b"3", b"4", b"5", b"6", b"7"];

/// What the lines of a row are told, up to one that ends it. All their answers are what it is to write.
pub fn told_of(
    rt: &impl Abort,
    alloc: Global,
    name: &str,
    script: &[u8],
    want: &[u8],
) -> Result<Vec<Told>, Fail> {
    let mut playing = Playing::new(alloc)?;
    let mut all = Vec::new(alloc);
    let mut text = Vec::new(alloc);
    let mut rest = script;
    for _line in 0..script.len() {
        let Some((line, behind)) = next_line(rest) else {
            break;
        };
        rest = behind;
        if !is_skipped(line) {
            let told = told_line(rt, alloc, &mut playing, line)?;
            text.extend_from_slice(told.answer.as_slice())?;
            let is_last = told.end.is_some();
            all.push(told)?;
            if is_last {
                break;
            }
        }
    }
    same_text(rt, &name, text.as_slice(), want);
    Ok(all)
}

/// Plays a line, and asks for the reports behind it.
fn told_line(
    rt: &impl Abort,
    alloc: Global,
    playing: &mut Playing,
    line: &[u8],
) -> Result<Told, Fail> {
    let end = playing.answer(alloc, line).err();
    let answer = Vec::from_slice(alloc, playing.text())?;
    let reports = Reports::of(alloc, playing)?;
    same_for(rt, &shown(line), reports.are_sound(), true);
    Ok(Told {
        line: Vec::from_slice(alloc, line)?,
        answer,
        end,
        reports,
    })
}

/// Whether a line makes steps of a call that was started.
pub fn goes_on(line: &[u8]) -> bool {
    line.starts_with(b"go ") || line.starts_with(b"run ")
}

/// Whether a line starts a call or makes steps of one.
fn is_event(line: &[u8]) -> bool {
    goes_on(line) || starts(line)
}

/// Whether a line starts a call.
fn starts(line: &[u8]) -> bool {
    line.starts_with(b"start ") || line.starts_with(b"do ")
}

/// Whether an answer tells that the call is on its way.
fn is_on_its_way(answer: &[u8]) -> bool {
    answer == b"started\n".as_slice()
        || answer == b"moved\n".as_slice()
        || answer == b"waits\n".as_slice()
}

/// Whether the machine stopped at a line, so that no call is on its way behind it.
pub fn has_stopped(told: &Told) -> bool {
    told.answer.as_slice() == b"stopped\n".as_slice()
}

/// Whether a call of an actor is on its way behind these lines.
pub fn has_call(before: &[Told], actor: &[u8]) -> bool {
    let mut has = false;
    for told in before {
        let line = told.line.as_slice();
        let is_refused_start = told.answer.starts_with(b"refused E21 ");
        if has_stopped(told) {
            has = false;
        } else if is_event(line) && word(line, 1) == actor && !is_refused_start {
            has = is_on_its_way(told.answer.as_slice());
        }
    }
    has
}

/// Whether a call of another actor is.
pub fn has_other_call(before: &[Told], actor: &[u8]) -> bool {
    for other in ACTORS {
        if *other != actor && has_call(before, other) {
            return true;
        }
    }
    false
}

/// The line that makes the call anew which an actor started last.
pub fn started_last(alloc: Global, before: &[Told], actor: &[u8]) -> Result<Vec<u8>, Fail> {
    let mut call: &[u8] = b"";
    for told in before {
        let line = told.line.as_slice();
        if starts(line) && word(line, 1) == actor && is_on_its_way(told.answer.as_slice()) {
            call = behind_first_word(line);
        }
    }
    let mut line = Vec::from_slice(alloc, b"do")?;
    line.extend_from_slice(call)?;
    Ok(line)
}

/// Plays what these lines have done, one call after another, and the stops between them.
pub fn serially(rt: &impl Abort, alloc: Global, before: &[Told]) -> Result<Playing, Fail> {
    let mut playing = Playing::new(alloc)?;
    for at in 0..before.len() {
        let told = &before[at];
        let line = told.line.as_slice();
        let is_done = told.answer.starts_with(b"done") || told.answer.starts_with(b"formatted");
        if is_done && goes_on(line) {
            let (front, _) = before.split_at(at);
            let call = started_last(alloc, front, word(line, 1))?;
            answers_as_told(rt, alloc, &mut playing, call.as_slice(), told);
        } else if is_done || has_stopped(told) {
            answers_as_told(rt, alloc, &mut playing, line, told);
        }
    }
    Ok(playing)
}

/// Plays a line, which is answered as another was told.
pub fn answers_as_told(
    rt: &impl Abort,
    alloc: Global,
    playing: &mut Playing,
    line: &[u8],
    told: &Told,
) {
    let end = playing.answer(alloc, line).err();
    is_told(rt, playing, end, told);
}

/// Compares what was answered last with what a line was told.
pub fn is_told(rt: &impl Abort, playing: &Playing, end: Option<Fault>, told: &Told) {
    same_for(rt, &shown(told.line.as_slice()), end, told.end);
    same_text(
        rt,
        &shown(told.line.as_slice()),
        playing.text(),
        told.answer.as_slice(),
    );
}
