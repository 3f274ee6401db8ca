//! Worked rows in which each growth is refused in turn. A row is played to each of its lines, and the growths of that line are refused
//! there, each in a world of its own. Where a line is refused for want of memory, the world reports what it did before the line, and
//! the line, given again, has its answer; a call that was refused on its way is made again by `do`. The rest of the row goes on
//! from there. `tools/refused-growths` loads what refuses, and sweeps each row of a folder so. Without it each line is played once.

use crate::cleaners_beside::A_DRAIN_OF_ITS_FILE_MEANWHILE;
use crate::compare::{same_for, same_text, shown};
use crate::pieces::ending;
use crate::playing::{Playing, word};
use crate::reports::Reports;
use crate::snapshots::A_WRITE_ACROSS_A_SNAPSHOT;
use crate::told::{
    Told, answers_as_told, goes_on, has_other_call, has_stopped, is_told, started_last, told_of,
};
use crate::twins::{beside_a_twin, stops_as_told};
use crate::worked::{Row, TREE_BY_SETTLED_LOGS};
use nv_base::Fault;
use nv_refuser::{Tally, refuse, refuse_rest};
use std::alloc::Global;
use std::io::Print;
use std::process::Abort;
use std::test::Fail;

const REFUSED: &[u8] = b"refused E1 OutOfMemory\n";

/// Plays a row to each of its lines, and has each growth of that line refused; then whole.
pub fn sweep<R: AllocGlobal + Abort + Print>(
    rt: &R,
    name: &str,
    script: &[u8],
    want: &[u8],
) -> Result<(), Fail> {
    let alloc = rt.alloc();
    let told = told_of(rt, alloc, name, script, want)?;
    let mut tally = Tally::new();
    for at in 0..told.len() {
        for refusal in [Refusal::One, Refusal::Rest] {
            sweep_line(rt, alloc, told.as_slice(), at, refusal, &mut tally)?;
        }
    }
    sweep_whole(rt, alloc, script, want, &mut tally)?;
    tally.tell(rt, name);
    Ok(())
}

/// What is refused of the growths of a line: one, or that one and all behind it. A list that is collected asks for less where it was
/// refused room for as much as it may have.
#[derive(Clone, Copy, Debug, PartialEq, Eq)]
enum Refusal {
    One,
    Rest,
}

/// Plays a row to a line, and has each growth of that line refused.
fn sweep_line(
    rt: &impl Abort,
    alloc: Global,
    told: &[Told],
    at: usize,
    refusal: Refusal,
    tally: &mut Tally,
) -> Result<(), Fail> {
    assert!(rt; at < told.len());
    let (before, here) = (told.split_at(at).0, &told[at]);
    for growth in 1..u64::MAX {
        let mut playing = played(rt, alloc, before)?;
        match refusal {
            Refusal::One => refuse(alloc, growth),
            Refusal::Rest => refuse_rest(alloc, growth),
        }
        let end = playing.answer(alloc, here.line.as_slice()).err();
        if !tally.ended(alloc) {
            is_told(rt, &playing, end, here);
            return Ok(());
        }
        let is_refused = go_on(rt, alloc, told, at, &mut playing, end)?;
        let is_well = is_refused || refusal == Refusal::One;
        same_for(rt, &(shown(here.line.as_slice()), growth), is_well, true);
    }
    Ok(())
}

/// Plays the first lines of a row.
fn played(rt: &impl Abort, alloc: Global, before: &[Told]) -> Result<Playing, Fail> {
    let mut playing = Playing::new(alloc)?;
    for here in before {
        answers_as_told(rt, alloc, &mut playing, here.line.as_slice(), here);
    }
    Ok(playing)
}

/// Goes on with a row from a line, which has ended so, to its end or to the line that is refused. Whether that was told: it is at the
/// end of a call, to which the row may not come, as where the machine stops before.
fn go_on(
    rt: &impl Abort,
    alloc: Global,
    told: &[Told],
    at: usize,
    playing: &mut Playing,
    end: Option<Fault>,
) -> Result<bool, Fail> {
    let mut end = end;
    let mut is_cut_off = false;
    for now in at..told.len() {
        let here = &told[now];
        if now > at {
            end = playing.answer(alloc, here.line.as_slice()).err();
        }
        if matches!(end, Some(Fault::OutOfMemory(_))) {
            is_front(rt, playing.text(), here.answer.as_slice());
            return Ok(true);
        }
        if playing.text() == REFUSED && here.answer.as_slice() != REFUSED {
            refused_at(rt, alloc, told, now, playing)?;
            return Ok(true);
        }
        is_told(rt, playing, end, here);
        if has_stopped(here) && has_other_call(told.split_at(now).0, b"") {
            is_cut_off = true;
            if !stops_as_told(rt, alloc, told, now, playing)? {
                return Ok(true);
            }
        }
    }
    is_at_end(rt, alloc, told, playing)?;
    Ok(is_cut_off || has_other_call(told, b""))
}

/// A line of a row was refused memory: nothing that it did is seen, and it is given again.
fn refused_at(
    rt: &impl Abort,
    alloc: Global,
    told: &[Told],
    now: usize,
    playing: &mut Playing,
) -> Result<(), Fail> {
    assert!(rt; now < told.len());
    let (before, here) = (told.split_at(now).0, &told[now]);
    let line = here.line.as_slice();
    let reports = Reports::of(alloc, playing)?;
    let Some(last) = before.last() else {
        answers_as_told(rt, alloc, playing, line, here);
        return play_rest(rt, alloc, told, now, playing);
    };
    if goes_on(line) {
        reports.are_seen_as(rt, alloc, shown(line), &last.reports)?;
        return refused_on_its_way(rt, alloc, told, now, playing, &reports);
    }
    reports.are(rt, shown(line), &last.reports);
    answers_as_told(rt, alloc, playing, line, here);
    play_rest(rt, alloc, told, now, playing)
}

/// A call was refused memory in a line that goes on with it. It is made again by `do`, and answered as in the row where the line
/// ended it there.
fn refused_on_its_way(
    rt: &impl Abort,
    alloc: Global,
    told: &[Told],
    now: usize,
    playing: &mut Playing,
    reports: &Reports,
) -> Result<(), Fail> {
    assert!(rt; now < told.len());
    let (before, here) = (told.split_at(now).0, &told[now]);
    let actor = word(here.line.as_slice(), 1);
    let is_alone = !has_other_call(before, actor);
    same_for(rt, &"at rest", !is_alone || reports.are_at_rest(), true);
    let call = started_last(alloc, before, actor)?;
    if !here.answer.starts_with(b"done") {
        return beside_a_twin(rt, alloc, told, now, call.as_slice(), playing);
    }
    answers_as_told(rt, alloc, playing, call.as_slice(), here);
    play_rest(rt, alloc, told, now, playing)
}

/// Plays the lines behind one, each of which is answered as it was told.
fn play_rest(
    rt: &impl Abort,
    alloc: Global,
    told: &[Told],
    now: usize,
    playing: &mut Playing,
) -> Result<(), Fail> {
    assert!(rt; now < told.len());
    for here in told.split_at(now + 1).1 {
        answers_as_told(rt, alloc, playing, here.line.as_slice(), here);
    }
    is_at_end(rt, alloc, told, playing)
}

/// Behind a row the world reports what it was told to. Where a call is on its way there, it may have given back what it had.
fn is_at_end(
    rt: &impl Abort,
    alloc: Global,
    told: &[Told],
    playing: &mut Playing,
) -> Result<(), Fail> {
    let reports = Reports::of(alloc, playing)?;
    if let Some(last) = told.last() {
        if has_other_call(told, b"") {
            return reports.are_seen_as(rt, alloc, Some("the end"), &last.reports);
        }
        reports.are(rt, Some("the end"), &last.reports);
    }
    Ok(())
}

/// Whole lines of a text, from its first on.
fn is_front(rt: &impl Abort, found: &[u8], text: &[u8]) {
    let is_whole = found.is_empty() || found.ends_with(b"\n");
    same_for(
        rt,
        &"whole lines",
        is_whole && text.starts_with(found),
        true,
    );
}

/// Plays a row as one script, in which each growth is refused. Where that ends the script, it wrote whole lines of what it writes.
fn sweep_whole(
    rt: &impl Abort,
    alloc: Global,
    script: &[u8],
    want: &[u8],
    tally: &mut Tally,
) -> Result<(), Fail> {
    for growth in 1..u64::MAX {
        let mut written = Vec::with_capacity(alloc, want.len().saturating_add(script.len()))?;
        let mut reader = script;
        refuse(alloc, growth);
        let outcome = ending(alloc, &mut reader, &mut written);
        if !tally.ended(alloc) {
            same_text(rt, &"the whole row", written.as_slice(), want);
            return Ok(());
        }
        if matches!(outcome, Err(Fault::OutOfMemory(_))) {
            is_front(rt, written.as_slice(), want);
        }
    }
    Ok(())
}

/// Sweeps a row of the tables.
fn sweep_row<R: AllocGlobal + Abort + Print>(rt: &R, name: &str, row: Row) -> Result<(), Fail> {
    sweep(rt, name, row.0.as_bytes(), row.1.as_bytes())
}

/// Each growth of a row with a snapshot is refused in turn: the line, given again, has its answer.
#[test]
fn a_write_under_a_snapshot_with_one_refused_growth(rt: HostRuntime) -> Result<(), Fail> {
    sweep_row(&rt, "a_write_under_a_snapshot", A_WRITE_ACROSS_A_SNAPSHOT)
}

/// The same of a row whose drain and cleaner are on their way at once.
#[test]
fn a_drain_beside_a_cleaner_with_one_refused_growth(rt: HostRuntime) -> Result<(), Fail> {
    sweep_row(
        &rt,
        "a_drain_beside_a_cleaner",
        A_DRAIN_OF_ITS_FILE_MEANWHILE,
    )
}

/// The same of a row whose rename is a commit of three inodes.
#[test]
fn a_rename_over_a_file_with_one_refused_growth(rt: HostRuntime) -> Result<(), Fail> {
    sweep_row(&rt, "a_rename_over_a_file", TREE_BY_SETTLED_LOGS)
}
