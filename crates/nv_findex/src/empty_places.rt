//! Places of a list of runs that are empty, since their runs went.

ghost use Rattle.std.specs.Prelude.{◌≡◌, ◌+◌, ◌-◌, ◌≤◌, ◌++◌, length, take, drop, replicate, slice_range};
ghost use Rattle.nv_findex.specs.Runs.{ArePlaces, IsEmptyCount, SkipsEmpty, emptied, present};

use crate::PageRun;
use crate::run_rows::RunRows;

/// How many of the places from `from` on and before `to` are empty, where so many of all are. Costs a step for each of
/// them, or one read where none is.
pub fn empty_in(runs: &RunRows, empty: usize, from: usize, to: usize) -> usize
    requires order { from ≤ to }
    requires within { to ≤ length runs.now.items }
    requires empty { IsEmptyCount empty runs.now.items }
    ensures { IsEmptyCount result (slice_range runs.now.items from to) }
{
    if empty == 0 {
        return 0;
    }
    let mut count = 0;
    for at in from..to {
        if !runs.at(at).has_page() {
            count += 1;
        }
    }
    count
}

/// The end of the empty places from one on, of which it looks at two.
pub fn behind_empty(runs: &RunRows, from: usize) -> usize
    requires { from ≤ length runs.now.items }
    ensures order { from ≤ result }
    ensures within { result ≤ length runs.now.items }
    ensures skips { SkipsEmpty (drop from runs.now.items) (drop result runs.now.items) }
{
    let mut end = from;
    'empty: while end < runs.len().min(from.saturating_add(2)) {
        if runs.at(end).has_page() {
            return end;
        }
        end += 1;
    }
    end
}

/// Empties the places from `from` on and before `to`, which lie behind a run.
pub fn vacate(runs: &mut RunRows, from: usize, to: usize, run: &PageRun)
    requires order { from ≤ to }
    requires within { to ≤ length runs.old.items }
    ensures items { runs.new.items ≡ take from runs.old.items
        ++ (replicate (to - from) (emptied run.now) ++ drop to runs.old.items) }
    ensures capacity { runs.new.capacity ≡ runs.old.capacity }
{
    for at in from..to {
        runs.replace(at, run.emptied());
    }
}

/// Takes the empty places out. Costs a step for each place.
pub fn squeeze(runs: &mut RunRows, empty: &mut usize)
    ensures items { runs.new.items ≡ present runs.old.items }
    ensures empty { empty.new ≡ 0 }
    ensures capacity { runs.new.capacity ≡ runs.old.capacity }
{
    let mut kept = 0;
    for at in 0..runs.len() {
        let run = runs.at(at);
        if run.has_page() {
            runs.replace(kept, run);
            kept += 1;
        }
    }
    runs.truncate(kept);
    *empty = 0;
}

/// Takes the empty places out where fewer than two places are left.
pub fn squeeze_full(runs: &mut RunRows, empty: &mut usize)
    requires places { ArePlaces runs.old.items }
    requires empty { IsEmptyCount empty.old runs.old.items }
    requires room { length (present runs.old.items) + 2 ≤ runs.old.capacity }
    ensures present { present runs.new.items ≡ present runs.old.items }
    ensures places { ArePlaces runs.new.items }
    ensures empty { IsEmptyCount empty.new runs.new.items }
    ensures room { length runs.new.items + 2 ≤ runs.new.capacity }
    ensures capacity { runs.new.capacity ≡ runs.old.capacity }
{
    if runs.capacity() - runs.len() < 2 {
        squeeze(runs, empty);
    }
}

/// Takes the empty places out where they are more than half of all.
pub fn squeeze_sparse(runs: &mut RunRows, empty: &mut usize)
    requires places { ArePlaces runs.old.items }
    requires empty { IsEmptyCount empty.old runs.old.items }
    ensures present { present runs.new.items ≡ present runs.old.items }
    ensures places { ArePlaces runs.new.items }
    ensures empty { IsEmptyCount empty.new runs.new.items }
    ensures capacity { runs.new.capacity ≡ runs.old.capacity }
{
    if runs.len() / 2 < *empty {
        squeeze(runs, empty);
    }
}
