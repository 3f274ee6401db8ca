//! Lists of runs, whose nodes go from one to another.

ghost use Rattle.std.specs.Prelude.{◌≡◌, ℕ, ◌+◌, ◌<◌, ◌≤◌, ◌^◌, [], ◌∷◌, ◌++◌, if◌then◌else◌, drop, length, filter, not, slice_get, sum_by};
ghost use Rattle.nv_epoch.specs.Holders.{IsRising};
ghost use Rattle.nv_book.specs.HeldSpans.{AddsSpan, HasRoom};
ghost use Rattle.nv_book.specs.Manifests.{snapshots};
ghost use Rattle.nv_book.specs.Records.{is_born_by, is_held_by};
ghost use Rattle.nv_book.specs.Runs.{IsRun, AreRuns, joins_last, pages_of, pages_where, put, records_of};

use crate::Record;
use crate::held_spans::HeldSpans;
use crate::manifest::Manifest;
use crate::run::RecordRun;
use nv_base::Epoch;
use std::collections::LinkedList;
use std::mem;

/// Makes the run one with the last of the list, if it goes on there.
fn join_last(list: &mut LinkedList<RecordRun>, run: &RecordRun) -> bool
    requires runs { AreRuns list.old }
    requires run { IsRun run.now }
    ensures joins { result ≡ joins_last list.old run.now }
    ensures list { list.new ≡ (if result then put list.old run.now else list.old) }
{
    let Some(last) = list.back_mut() else {
        return false;
    };
    if !last.joins(run) {
        return false;
    }
    last.more += 1 + run.more;
    true
}

/// Takes the last node of the spare ones.
fn take_node(spare: &mut LinkedList<RecordRun>) -> LinkedList<RecordRun>
    requires { 0 < length spare.old }
    ensures one { length result ≡ 1 }
    ensures rest { length spare.old ≡ length spare.new + 1 }
{
    let last = spare.len() - 1;
    match spare.split_off(last) {
        Ok(node) => node,
        Err(_) => unreachable!(),
    }
}

/// Writes a run into a node.
fn fill(node: &mut LinkedList<RecordRun>, run: RecordRun)
    requires { length node.old ≡ 1 }
    ensures { node.new ≡ run ∷ [] }
{
    let Some(place) = node.front_mut() else {
        unreachable!();
    };
    *place = run;
}

/// Puts a run to the end of a list, in a spare node where it isn't one with the last.
#[tactic(auto, using(crate::proofs::Putting::put_laws))]
pub fn add(list: &mut LinkedList<RecordRun>, spare: &mut LinkedList<RecordRun>, run: RecordRun)
    requires runs { AreRuns list.old }
    requires run { IsRun run }
    requires spare { 0 < length spare.old }
    requires fits { length list.old + length spare.old < 2 ^ 63 }
    ensures list { list.new ≡ put list.old run }
    ensures runs { AreRuns list.new }
    ensures room { length spare.new + length list.new ≡ length spare.old + length list.old }
    ensures one { length spare.old ≤ length spare.new + 1 }
{
    if join_last(list, &run) {
        return;
    }
    let mut node = take_node(spare);
    fill(&mut node, run);
    let Ok(()) = list.append(&mut node) else {
        unreachable!();
    };
}

/// Takes the first run out of a list, with its node.
pub fn take_first(list: &mut LinkedList<RecordRun>) -> (RecordRun, LinkedList<RecordRun>)
    requires runs { AreRuns list.old }
    requires some { 0 < length list.old }
    ensures rest { list.old ≡ result.0 ∷ list.new }
    ensures node { result.1 ≡ result.0 ∷ [] }
    ensures run { IsRun result.0 }
    ensures runs { AreRuns list.new }
{
    let Some(first) = list.front() else {
        unreachable!();
    };
    let run = *first;
    let Ok(rest) = list.split_off(1) else {
        unreachable!();
    };
    let node = mem::replace(list, rest);
    (run, node)
}

/// Puts a run that has a node of its own to the end of a list.
#[tactic(auto, using(crate::proofs::Putting::put_laws))]
pub fn put_node(list: &mut LinkedList<RecordRun>, run: RecordRun, mut node: LinkedList<RecordRun>)
    requires runs { AreRuns list.old }
    requires run { IsRun run }
    requires node { node ≡ run ∷ [] }
    requires fits { length list.old + 1 < 2 ^ 63 }
    ensures list { list.new ≡ put list.old run }
    ensures runs { AreRuns list.new }
    ensures room { length list.new ≤ length list.old + 1 }
{
    if join_last(list, &run) {
        return;
    }
    let Ok(()) = list.append(&mut node) else {
        unreachable!();
    };
}

/// Takes the first record out of a list. A run of several keeps its node.
pub fn pick(list: &mut LinkedList<RecordRun>) -> Option<Record>
    requires { AreRuns list.old }
    ensures first { result ≡ slice_get (records_of list.old) 0 }
    ensures rest { records_of list.new ≡ drop 1 (records_of list.old) }
    ensures runs { AreRuns list.new }
    ensures room { length list.new ≤ length list.old }
{
    let first = list.front_mut()?;
    let record = first.first;
    if first.more > 0 {
        first.cut();
        return Some(record);
    }
    let _node = list.pop_front();
    Some(record)
}

/// Moves the runs of a list in order: those born by the snapshot `older` to the end of `kept`, all others to the
/// end of `deferred`.
pub fn split_by_birth(
    mut from: LinkedList<RecordRun>,
    older: &Option<Epoch>,
    kept: &mut LinkedList<RecordRun>,
    deferred: &mut LinkedList<RecordRun>,
)
    requires from { AreRuns from }
    requires kept { AreRuns kept.old }
    requires deferred { AreRuns deferred.old }
    requires fits { length from + length kept.old + length deferred.old < 2 ^ 63 }
    ensures kept { records_of kept.new ≡
        records_of kept.old ++ filter (λ r. is_born_by older.now r) (records_of from) }
    ensures deferred { records_of deferred.new ≡
        records_of deferred.old ++ filter (λ r. not (is_born_by older.now r)) (records_of from) }
    ensures kept_runs { AreRuns kept.new }
    ensures deferred_runs { AreRuns deferred.new }
    ensures room { length kept.new + length deferred.new ≤ length from + length kept.old
        + length deferred.old }
{
    while !from.is_empty() {
        let (run, node) = take_first(&mut from);
        if run.first.is_born_by(older) {
            put_node(kept, run, node);
        } else {
            put_node(deferred, run, node);
        }
    }
}

/// How many blocks the runs have that the snapshot `s` holds.
pub fn held(list: &LinkedList<RecordRun>, s: Epoch) -> u64
    requires { pages_where (is_held_by s) list.now < 2 ^ 64 }
    ensures { result ≡ pages_where (is_held_by s) list.now }
{
    let held = list.iter().filter(|run| run.first.is_held_by(s));
    held.map(|run| run.pages()).sum()
}

/// Adds the runs of the manifest at a place to the spans over all.
pub fn span(
    list: &LinkedList<RecordRun>,
    manifests: &[Manifest],
    place: usize,
    spans: &mut HeldSpans,
)
    requires rising { IsRising (snapshots manifests.now) }
    requires room { HasRoom spans.old (length manifests.now) (sum_by pages_of list.now) }
    ensures room { (more : ℕ) →
        HasRoom spans.old (length manifests.now) (sum_by pages_of list.now + more)
        → HasRoom spans.new (length manifests.now) more }
    ensures held { AddsSpan (snapshots manifests.now) (λ s. pages_where (is_held_by s) list.now)
        spans.old spans.new }
{
    for run in list.iter() {
        spans.add(manifests, place, run);
    }
}

/// How many blocks the runs have that were not born by the snapshot `older`.
pub fn blocks_not_born_by(list: &LinkedList<RecordRun>, older: &Option<Epoch>) -> u64
    requires { pages_where (λ r. not (is_born_by older.now r)) list.now < 2 ^ 64 }
    ensures { result ≡ pages_where (λ r. not (is_born_by older.now r)) list.now }
{
    let others = list.iter().filter(|run| !run.first.is_born_by(older));
    others.map(|run| run.pages()).sum()
}
