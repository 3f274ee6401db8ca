//! A run put in place of what runs have of its pages.

ghost use Rattle.std.specs.Prelude.{◌≡◌, true, ◌+◌, ◌-◌, ◌<◌, ◌≤◌, max, [], ◌∷◌, ◌++◌, length, take, drop, slice_get, nat_lt, is_some, option_map};
ghost use Rattle.nv_findex.specs.Pages.{IsRun};
ghost use Rattle.nv_findex.specs.Runs.{ArePlaces, IsBorder, IsEmptyCount, IsJust, IsPut, IsPutBefore, SkipsEmpty, has_page, join, present, rest_from, spread};

use crate::PageRun;
use crate::empty_places::{behind_empty, empty_in, squeeze_full, squeeze_sparse, vacate};
use crate::run_rows::RunRows;
use crate::runs::keep_below;
use crate::search::{ended_at, ended_from};

/// Puts a run at a place: in the place of the first of the runs from there on and before `to`, if there are any. Returns
/// where the others of those end then.
fn put_one(runs: &mut RunRows, from: usize, to: usize, one: PageRun) -> usize
    requires order { from ≤ to }
    requires within { to ≤ length runs.old.items }
    requires room { length runs.old.items < runs.old.capacity }
    ensures front { take (from + 1) runs.new.items ≡ take from runs.old.items ++ one ∷ [] }
    ensures behind { drop result runs.new.items ≡ drop to runs.old.items }
    ensures end { result ≡ max (from + 1) to }
    ensures within { result ≤ length runs.new.items }
    ensures len { length runs.new.items ≤ length runs.old.items + 1 }
    ensures capacity { runs.new.capacity ≡ runs.old.capacity }
{
    if from < to {
        runs.replace(from, one);
        return to;
    }
    runs.insert(from, one);
    let len = runs.len();
    prove!(to < len);
    to + 1
}

/// Puts a run at a place: in the place of the last of those from there on and before `to`, if there are any. Returns where
/// it is.
fn put_behind(runs: &mut RunRows, from: usize, to: usize, one: PageRun) -> usize
    requires order { from ≤ to }
    requires within { to ≤ length runs.old.items }
    requires room { length runs.old.items < runs.old.capacity }
    ensures front { take result runs.new.items ≡ take result runs.old.items }
    ensures behind { drop result runs.new.items ≡ one ∷ drop to runs.old.items }
    ensures place { result ≡ max from (to - 1) }
    ensures within { result < length runs.new.items }
    ensures len { length runs.new.items ≤ length runs.old.items + 1 }
    ensures capacity { runs.new.capacity ≡ runs.old.capacity }
{
    if from < to {
        runs.replace(to - 1, one);
        return to - 1;
    }
    runs.insert(from, one);
    from
}

/// The pages from `page` on of the run that has it, or else of the first one behind it, which is at `at`.
fn rest_at(runs: &RunRows, at: usize, page: u32) -> Option<PageRun>
    requires places { ArePlaces runs.now.items }
    requires border { IsBorder page at runs.now.items }
    ensures rest { result ≡ option_map (rest_from page) (slice_get runs.now.items at) }
    ensures variant { is_some result ≡ nat_lt at (length runs.now.items) }
{
    let run = runs.get(at)?;
    Some(run.rest_from(page))
}

/// Puts a run in place of those from `from` on and before `to`, and `rest` behind it. The two are joined where the run
/// goes on in `rest`. Returns how many places are left empty.
fn put_both(runs: &mut RunRows, from: usize, to: usize, run: PageRun, rest: PageRun) -> usize
    requires run { IsRun run }
    requires order { from ≤ to }
    requires within { to ≤ length runs.old.items }
    requires room { length runs.old.items + 2 ≤ runs.old.capacity }
    ensures items { runs.new.items ≡ take from runs.old.items
        ++ (spread (to - from) (join run (rest ∷ [])) ++ drop to runs.old.items) }
    ensures empty { result ≡ to - from - length (join run (rest ∷ [])) }
    ensures capacity { runs.new.capacity ≡ runs.old.capacity }
{
    if run.goes_on(&rest) {
        let joined = PageRun {
            end: rest.end,
            ..run
        };
        let end = put_one(runs, from, to, joined);
        vacate(runs, from + 1, end, &joined);
        return end - (from + 1);
    }
    let middle = put_one(runs, from, to, run);
    let last = put_behind(runs, from + 1, middle, rest);
    vacate(runs, from + 1, last, &run);
    last - (from + 1)
}

/// Where the places end that a run may take which is put in place of those from `from` on up to the one at `to`. Where
/// those are one at most, empty ones behind them are theirs too.
fn end_of_free(runs: &RunRows, from: usize, to: usize) -> usize
    requires { to < length runs.now.items }
    ensures order { to < result }
    ensures within { result ≤ length runs.now.items }
    ensures skips { SkipsEmpty (drop (to + 1) runs.now.items) (drop result runs.now.items) }
{
    let len = runs.len();
    prove!(to < len);
    let next = to + 1;
    if from < to {
        return next;
    }
    behind_empty(runs, next)
}

/// Puts a run in place of those from `from` on up to the one at `to`, of which `rest` stays.
fn put_before(
    runs: &mut RunRows,
    empty: &mut usize,
    from: usize,
    to: usize,
    run: PageRun,
    rest: PageRun,
)
    requires run { IsRun run }
    requires order { from ≤ to + 1 }
    requires within { to < length runs.old.items }
    requires empty { IsEmptyCount empty.old runs.old.items }
    requires rest { has_page rest ≡ true }
    requires room { length runs.old.items + 2 ≤ runs.old.capacity }
    ensures put { IsPutBefore run rest from to runs.old.items runs.new.items }
    ensures empty { IsEmptyCount empty.new runs.new.items }
    ensures capacity { runs.new.capacity ≡ runs.old.capacity }
{
    let end = end_of_free(runs, from, to);
    let len = runs.len();
    prove!(end <= len);
    *empty -= empty_in(runs, *empty, from, end);
    *empty += put_both(runs, from, end, run, rest);
}

/// Puts a run in place of those from `from` on.
fn put_last(runs: &mut RunRows, empty: &mut usize, from: usize, run: PageRun)
    requires from { from ≤ length runs.old.items }
    requires empty { IsEmptyCount empty.old runs.old.items }
    requires run { has_page run ≡ true }
    requires room { length runs.old.items < runs.old.capacity }
    ensures items { runs.new.items ≡ take from runs.old.items ++ run ∷ [] }
    ensures empty { IsEmptyCount empty.new runs.new.items }
    ensures capacity { runs.new.capacity ≡ runs.old.capacity }
{
    *empty -= empty_in(runs, *empty, from, runs.len());
    runs.truncate(from);
    runs.insert(from, run);
}

/// Whether a run has just the pages of the one at a place, and may stand there.
fn is_just(runs: &RunRows, at: usize, run: &PageRun) -> bool
    requires { IsRun run.now }
    ensures { result ≡ true → IsJust run.now at runs.now.items }
{
    let Some(old) = runs.get(at) else {
        return false;
    };
    if old.first != run.first || old.end != run.end {
        return false;
    }
    let len = runs.len();
    prove!(at < len);
    match runs.get(at + 1) {
        None => true,
        Some(next) => next.has_page() && !run.goes_on(&next),
    }
}

/// Puts a run in place of what the runs from a place on have of its pages.
fn put_at(runs: &mut RunRows, empty: &mut usize, at: usize, run: PageRun)
    requires places { ArePlaces runs.old.items }
    requires empty { IsEmptyCount empty.old runs.old.items }
    requires run { IsRun run }
    requires place { run.start.place ≡ 0 }
    requires within { at ≤ length runs.old.items }
    requires border { IsBorder run.first at runs.old.items }
    requires room { length runs.old.items + 2 ≤ runs.old.capacity }
    ensures put { IsPut run (present runs.old.items) (present runs.new.items) }
    ensures places { ArePlaces runs.new.items }
    ensures empty { IsEmptyCount empty.new runs.new.items }
    ensures capacity { runs.new.capacity ≡ runs.old.capacity }
{
    let to = ended_from(runs, at, run.end);
    let rest = rest_at(runs, to, run.end);
    let kept = keep_below(runs, at, run.first);
    match rest {
        None => put_last(runs, empty, kept, run),
        Some(rest) => put_before(runs, empty, kept, to, run, rest),
    }
}

/// Puts a run in place of what the runs have of its pages, of which the first is looked for at `place` first. So many of
/// their places are empty. Those of runs that went stay, empty, until they are more than half of all or the room is
/// needed.
pub fn put(runs: &mut RunRows, empty: &mut usize, run: PageRun, place: usize)
    requires places { ArePlaces runs.old.items }
    requires empty { IsEmptyCount empty.old runs.old.items }
    requires run { IsRun run }
    requires place { run.start.place ≡ 0 }
    requires room { length (present runs.old.items) + 2 ≤ runs.old.capacity }
    ensures put { IsPut run (present runs.old.items) (present runs.new.items) }
    ensures places { ArePlaces runs.new.items }
    ensures empty { IsEmptyCount empty.new runs.new.items }
    ensures capacity { runs.new.capacity ≡ runs.old.capacity }
{
    squeeze_full(runs, empty);
    let at = ended_at(runs, place, run.first);
    if is_just(runs, at, &run) {
        runs.replace(at, run);
        return;
    }
    put_at(runs, empty, at, run);
    squeeze_sparse(runs, empty);
}
