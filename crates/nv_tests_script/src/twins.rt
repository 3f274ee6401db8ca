//! A call that was refused on its way in a row and is made again, beside a twin world in which calls are made one after another.

use crate::compare::{same_for, same_text, shown};
use crate::playing::{Playing, word};
use crate::reports::Reports;
use crate::told::{Told, has_other_call, serially};
use std::alloc::Global;
use std::process::Abort;
use std::test::Fail;

/// A call that the row goes on with was refused on its way. Made again by `do`, it is answered as in a world in which only what was
/// done before was done, call by call. Where no other call is on its way, the rest of the row goes on alike in both.
pub fn beside_a_twin(
    rt: &impl Abort,
    alloc: Global,
    told: &[Told],
    now: usize,
    call: &[u8],
    playing: &mut Playing,
) -> Result<(), Fail> {
    assert!(rt; now < told.len());
    let (before, here) = (told.split_at(now).0, &told[now]);
    let is_alone = !has_other_call(before, word(here.line.as_slice(), 1));
    let mut twin = serially(rt, alloc, before)?;
    are_alike(rt, alloc, playing, &mut twin, call)?;
    for here in told.split_at(now + 1).1 {
        let line = here.line.as_slice();
        if is_alone {
            are_alike(rt, alloc, playing, &mut twin, line)?;
        } else {
            let _answered = playing.answer(alloc, line);
        }
    }
    finish_all(alloc, playing);
    let reports = Reports::of(alloc, playing)?;
    let is_sound = reports.are_sound() && reports.are_at_rest();
    same_for(rt, &"behind all calls", is_sound, true);
    Ok(())
}

/// The machine stopped while a call was on its way, which may have been refused by then without a word. Tells whether all is as the
/// row was told. Else only what was done before was done, and the rest of the row goes on so.
pub fn stops_as_told(
    rt: &impl Abort,
    alloc: Global,
    told: &[Told],
    now: usize,
    playing: &mut Playing,
) -> Result<bool, Fail> {
    assert!(rt; now < told.len());
    let reports = Reports::of(alloc, playing)?;
    if reports.is_same(&told[now].reports) {
        return Ok(true);
    }
    let (before, rest) = told.split_at(now + 1);
    let mut twin = serially(rt, alloc, before)?;
    reports.are(rt, Some("a stop"), &Reports::of(alloc, &mut twin)?);
    for here in rest {
        are_alike(rt, alloc, playing, &mut twin, here.line.as_slice())?;
    }
    Ok(false)
}

/// Both worlds answer a line alike, and are seen alike behind it.
fn are_alike(
    rt: &impl Abort,
    alloc: Global,
    playing: &mut Playing,
    twin: &mut Playing,
    line: &[u8],
) -> Result<(), Fail> {
    let end = playing.answer(alloc, line).err();
    let want = twin.answer(alloc, line).err();
    same_for(rt, &shown(line), end, want);
    same_text(rt, &shown(line), playing.text(), twin.text());
    let reports = Reports::of(alloc, playing)?;
    let want = Reports::of(alloc, twin)?;
    reports.are_seen_as(rt, alloc, shown(line), &want)
}

/// The calls of all actors go on to their ends, also of those that wait for others.
const RUNS: &[&[u8]] = &[
    b"run 0", b"run 1", b"run 2", b"run 3", b"run 4", b"run 5", b"run 6", b"run 7", b"run 0",
    b"run 1", b"run 2", b"run 3", b"run 4", b"run 5", b"run 6", b"run 7",
];

fn finish_all(alloc: Global, playing: &mut Playing) {
    for line in RUNS {
        let _answered = playing.answer(alloc, line);
    }
}
