//! Where a page would lie among sorted runs.

ghost use Rattle.std.specs.Prelude.{◌≡◌, true, ◌<◌, ◌≤◌, length};
ghost use Rattle.nv_findex.specs.Runs.{ArePlaces, EndsBefore, EndsBehind, IsBorder};

use crate::run_rows::RunRows;

/// How many of the places end at or before a page, where all before `from` do and the one at `to` does not. Costs the
/// logarithm of how many lie between.
fn ended_in(runs: &RunRows, from: usize, to: usize, page: u32) -> usize
    requires places { ArePlaces runs.now.items }
    requires order { from ≤ to }
    requires within { to ≤ length runs.now.items }
    requires before { EndsBefore page from runs.now.items }
    requires behind { EndsBehind page to runs.now.items }
    ensures within { result ≤ length runs.now.items }
    ensures border { IsBorder page result runs.now.items }
{
    let mut low = from;
    let mut high = to;
    'search: while low < high {
        let middle = low + (high - low) / 2;
        if runs.at(middle).end <= page {
            low = middle + 1;
        } else {
            high = middle;
        }
    }
    low
}

/// A place from `from` on that does not end at or before a page: `from` itself, or one that lies at most some four
/// times as far off as the first such place. Costs the logarithm of how far off that is.
fn bound_behind(runs: &RunRows, from: usize, page: u32) -> usize
    requires { from ≤ length runs.now.items }
    ensures order { from ≤ result }
    ensures within { result ≤ length runs.now.items }
    ensures behind { EndsBehind page result runs.now.items }
{
    let mut place = from;
    let mut step = 1usize;
    'up: while place < runs.len() && runs.at(place).end <= page {
        place = place.saturating_add(step).min(runs.len());
        step = step.saturating_mul(4);
    }
    place
}

/// A place up to `from` before which all end at or before a page. Costs what `bound_behind` does.
fn bound_before(runs: &RunRows, from: usize, page: u32) -> usize
    requires { from ≤ length runs.now.items }
    ensures order { result ≤ from }
    ensures before { EndsBefore page result runs.now.items }
{
    let mut place = from;
    let mut step = 1usize;
    'down: while 0 < place && page < runs.at(place - 1).end {
        place = place.saturating_sub(step);
        step = step.saturating_mul(4);
    }
    place
}

/// Where the border of a page would be if the runs lay evenly.
fn guess(runs: &RunRows, page: u32) -> usize {
    let last = runs.len().saturating_sub(1);
    let end = runs.get(last).map_or(1, |run| run.end.max(1));
    let pages = (page as u64).saturating_mul(runs.len() as u64);
    (pages / (end as u64)) as usize
}

/// Where the border of a page would be if the runs lay evenly on both sides of the one at a place.
fn guess_from(runs: &RunRows, place: usize, page: u32) -> usize {
    let last = runs.len().saturating_sub(1);
    let (Some(at), Some(end)) = (runs.get(place), runs.get(last)) else {
        return place;
    };
    let steps = |pages: u32| {
        let places_off = (pages as u64).saturating_mul(runs.len() as u64);
        (places_off / (end.end.max(1) as u64)) as usize
    };
    if at.first <= page {
        place.saturating_add(steps(page - at.first))
    } else {
        place.saturating_sub(steps(at.first - page))
    }
}

/// Whether the places before one, and no others, end at or before a page.
fn is_border(runs: &RunRows, at: usize, page: u32) -> bool
    requires places { ArePlaces runs.now.items }
    requires within { at ≤ length runs.now.items }
    ensures { result ≡ true → IsBorder page at runs.now.items }
{
    if 0 < at && page < runs.at(at - 1).end {
        return false;
    }
    if at < runs.len() && runs.at(at).end <= page {
        return false;
    }
    true
}

/// How many of the places end at or before a page. That is guessed as if all runs lay evenly, and once more as if those
/// around the guess did. Costs the logarithm of how far off the second guess is.
pub fn ended_by(runs: &RunRows, page: u32) -> usize
    requires { ArePlaces runs.now.items }
    ensures within { result ≤ length runs.now.items }
    ensures border { IsBorder page result runs.now.items }
{
    let guess = guess(runs, page).min(runs.len());
    // Where the runs lie evenly it is right.
    if is_border(runs, guess, page) {
        return guess;
    }
    let closer = guess_from(runs, guess, page).min(runs.len());
    let low = bound_before(runs, closer, page);
    let high = bound_behind(runs, closer, page);
    ended_in(runs, low, high, page)
}

/// How many of the places end at or before a page, where that number may be known. A right guess spares the search. One
/// that is too low costs the logarithm of how far off it is, as where empty places lie behind it.
pub fn ended_at(runs: &RunRows, guess: usize, page: u32) -> usize
    requires { ArePlaces runs.now.items }
    ensures within { result ≤ length runs.now.items }
    ensures border { IsBorder page result runs.now.items }
{
    let guess = guess.min(runs.len());
    if is_border(runs, guess, page) {
        return guess;
    }
    if guess == 0 || page < runs.at(guess - 1).end {
        return ended_by(runs, page);
    }
    ended_from(runs, guess, page)
}

/// How many of the places end at or before a page, where all before `from` do. Costs the logarithm of how many more
/// do.
pub fn ended_from(runs: &RunRows, from: usize, page: u32) -> usize
    requires places { ArePlaces runs.now.items }
    requires within { from ≤ length runs.now.items }
    requires before { EndsBefore page from runs.now.items }
    ensures within { result ≤ length runs.now.items }
    ensures border { IsBorder page result runs.now.items }
{
    let bound = bound_behind(runs, from, page);
    ended_in(runs, from, bound, page)
}
