//! The search for an entry by its id.

ghost use Rattle.std.specs.Prelude.{◌≡◌, ◌<◌, ◌≤◌, ◌↔◌, IfSome, IsTrue, Some, length, true};
ghost use Rattle.nv_base.specs.Ids.{IsIdBefore};
ghost use Rattle.nv_entry.specs.Log.{IsLog};
ghost use Rattle.nv_log.specs.Chain.{place_of_id};
ghost use Rattle.nv_log.specs.CommitRun.{IsCommitRun};

use crate::commit_run::CommitRun;
use nv_base::{EntryId, Epoch};
use nv_entry::Entry;

/// Whether an entry of that id and epoch may stand somewhere behind another.
pub fn may_follow(earlier: &Entry, id: EntryId, epoch: Epoch) -> bool
    ensures { IsTrue result ↔ (IsIdBefore earlier.now.id id × (earlier.now.epoch ≤ epoch)) }
{
    earlier.id.is_before(id) && earlier.epoch <= epoch
}

/// How many entries before and behind a guess are looked at before all are.
const NEAR: usize = 16;

/// Whether the entry of that id stands at a place.
fn is_at(entries: &[Entry], place: usize, id: EntryId) -> bool
    requires { IsLog entries.now }
    ensures { result ≡ true → place_of_id entries.now id ≡ Some place }
{
    place < entries.len() && entries[place].id == id
}

/// Where an id would stand if commits lay evenly on both sides of the entry at a place.
fn guess_from(entries: &[Entry], place: usize, id: EntryId) -> usize {
    let (Some(first), Some(at), Some(last)) = (entries.first(), entries.get(place), entries.last())
    else {
        return 0;
    };
    let commits = last
        .id
        .commit
        .number()
        .saturating_sub(first.id.commit.number());
    let steps = |commits_off: u64| {
        let entries_off = commits_off.saturating_mul(entries.len() as u64 - 1);
        (entries_off / commits.max(1)) as usize
    };
    let (from, to) = (at.id.commit.number(), id.commit.number());
    if from <= to {
        place.saturating_add(steps(to - from))
    } else {
        place.saturating_sub(steps(from - to))
    }
}

/// Where an id would stand if commits followed one another from the entry at a place on, or up to it.
fn follow_from(entries: &[Entry], place: usize, id: EntryId) -> usize {
    let Some(at) = entries.get(place) else {
        return 0;
    };
    let (from, to) = (at.id.commit.number(), id.commit.number());
    place.wrapping_add(to.wrapping_sub(from) as usize)
}

/// Where an id would stand among the entries near a place.
fn near(entries: &[Entry], place: usize, id: EntryId) -> usize {
    let low = place.saturating_sub(NEAR).min(entries.len());
    let high = place.saturating_add(NEAR).min(entries.len());
    low + entries[low..high].partition_point(|entry| entry.id < id)
}

/// The place of the entry of that id. In a run of commits it is told by the id. The last entry and the first are asked
/// before others, since most parts that are looked for are theirs. Among more than a few entries it is guessed
/// as if commits lay evenly, then as if they followed one another from what stands at the guess, and twice more as if they
/// lay evenly: where the entry is near, this costs the same at any number of entries, and else the logarithm of them all.
pub fn place_of(entries: &[Entry], run: CommitRun, id: EntryId) -> Option<usize>
    requires log { IsLog entries.now }
    requires run { IsCommitRun entries.now run }
    ensures value { result ≡ place_of_id entries.now id }
    ensures within { IfSome result (λ place. place < length entries.now) }
{
    if let Some(place) = run.place_of(entries, id) {
        return Some(place);
    }
    let last = entries.len().saturating_sub(1);
    if is_at(entries, last, id) {
        return Some(last);
    }
    if is_at(entries, 0, id) {
        return Some(0);
    }
    if entries.len() > NEAR {
        let guess = guess_from(entries, 0, id);
        if is_at(entries, guess, id) {
            return Some(guess);
        }
        let place = follow_from(entries, guess, id);
        if is_at(entries, place, id) {
            return Some(place);
        }
        let closer = guess_from(entries, guess, id);
        let place = near(entries, guess_from(entries, closer, id), id);
        if is_at(entries, place, id) {
            return Some(place);
        }
    }
    entries.binary_search_by(|entry| entry.id.cmp(&id)).ok()
}
