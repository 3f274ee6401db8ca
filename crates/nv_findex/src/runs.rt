//! Sorted runs of pages.

ghost use Rattle.std.specs.Prelude.{◌≡◌, ℕ, true, ◌+◌, ◌^◌, ◌<◌, ◌≤◌, length, take, drop, slice_get, IfSome};
ghost use Rattle.nv_findex.specs.Pages.{IsRun, IsRunFrom, IsNextFrom, CutsFrom, ref_at, present_from};
ghost use Rattle.nv_findex.specs.Runs.{ArePlaces, IsEmptyCount, before, has_page, pages_past, present};

use crate::empty_places::empty_in;
use crate::run_rows::RunRows;
use crate::search::{ended_at, ended_by};
use crate::{PageRef, PageRun};

/// The run that holds a page, or else the first one behind it.
pub fn run_from(runs: &RunRows, page: u32) -> Option<PageRun>
    requires { ArePlaces runs.now.items }
    ensures run { IsRunFrom page (ref_at (present runs.now.items)) result }
    ensures within { IfSome result (λ run. IsRun run) }
{
    runs.get(ended_by(runs, page))
}

/// The run that holds a page, or else the first one behind it, which is looked for at a place first. That becomes
/// the place behind it.
pub fn run_near(runs: &RunRows, page: u32, place: &mut usize) -> Option<PageRun>
    requires { ArePlaces runs.now.items }
    ensures run { IsRunFrom page (ref_at (present runs.now.items)) result }
    ensures within { IfSome result (λ run. IsRun run) }
{
    let at = ended_at(runs, *place, page);
    *place = at.saturating_add(1);
    runs.get(at)
}

/// Where a page lies.
pub fn find(runs: &RunRows, page: u32) -> Option<PageRef>
    requires { ArePlaces runs.now.items }
    ensures { result ≡ ref_at (present runs.now.items) page }
{
    let run = run_from(runs, page)?;
    if page < run.first {
        return None;
    }
    Some(run.page_ref(page))
}

/// The least present page that isn't below `page`, and where it lies.
pub fn find_next(runs: &RunRows, page: u32) -> Option<(u32, PageRef)>
    requires { ArePlaces runs.now.items }
    ensures { IsNextFrom page (ref_at (present runs.now.items)) result }
{
    let run = run_from(runs, page)?;
    let found = run.first.max(page);
    Some((found, run.page_ref(found)))
}

/// How many pages of the runs from the place `from` on aren't below `page`.
fn pages_past(runs: &RunRows, from: usize, page: u32) -> u32
    requires { pages_past page (drop from runs.now.items) < 2 ^ 32 }
    ensures { result ≡ pages_past page (drop from runs.now.items) }
{
    let mut count = 0;
    for at in from..runs.len() {
        let run = runs.at(at);
        count += run.end.saturating_sub(run.first.max(page));
    }
    count
}

/// How many pages are present from `page` on.
pub fn count_from(runs: &RunRows, page: u32) -> u32
    requires { ArePlaces runs.now.items }
    ensures { result ≡ present_from page (present runs.now.items) }
{
    pages_past(runs, ended_by(runs, page), page)
}

/// Takes the pages from `page` on out of the run at `at` where it begins below. Returns how many places lie
/// below `page` then.
pub fn keep_below(runs: &mut RunRows, at: usize, page: u32) -> usize
    requires within { at ≤ length runs.old.items }
    requires page { IfSome (slice_get runs.old.items at) (λ run. has_page run ≡ true) }
    ensures before { take result runs.new.items ≡ before page at runs.old.items }
    ensures behind { (n : ℕ) → at < n → drop n runs.new.items ≡ drop n runs.old.items }
    ensures len { length runs.new.items ≡ length runs.old.items }
    ensures present { length (present runs.new.items) ≡ length (present runs.old.items) }
    ensures within { result ≤ length runs.new.items }
    ensures one { result ≤ at + 1 }
    ensures capacity { runs.new.capacity ≡ runs.old.capacity }
{
    let Some(run) = runs.get(at) else {
        return at;
    };
    if page <= run.first {
        return at;
    }
    let len = runs.len();
    prove!(at < len);
    runs.replace(at, PageRun { end: page, ..run });
    at + 1
}

/// Takes all pages from `page` on out of the runs, of which so many places are empty.
pub fn cut(runs: &mut RunRows, empty: &mut usize, page: u32)
    requires places { ArePlaces runs.old.items }
    requires empty { IsEmptyCount empty.old runs.old.items }
    ensures places { ArePlaces runs.new.items }
    ensures pages { CutsFrom page (ref_at (present runs.old.items)) (ref_at (present runs.new.items)) }
    ensures count { length (present runs.new.items) ≤ length (present runs.old.items) }
    ensures empty { IsEmptyCount empty.new runs.new.items }
    ensures capacity { runs.new.capacity ≡ runs.old.capacity }
{
    let at = ended_by(runs, page);
    let kept = keep_below(runs, at, page);
    *empty -= empty_in(runs, *empty, kept, runs.len());
    runs.truncate(kept);
}
