//! How many blocks the living snapshots hold, told for all of them by one pass over the records.

ghost use Rattle.std.specs.Prelude.{◌≡◌, ℕ, ◌+◌, ◌<◌, ◌≤◌, ◌^◌, if◌then◌else◌, length, map, nat_lt, replicate, slice_index, take, true, false, IfErr, IfOk};
ghost use Rattle.std.specs.List.{sum};
ghost use Rattle.nv_base.specs.Memory.{out_of_memory};
ghost use Rattle.nv_base.specs.Refusals.{FailsOnly};
ghost use Rattle.nv_epoch.specs.Holders.{IsRising};
ghost use Rattle.nv_book.specs.HeldSpans.{AddsSpan, HasRoom, Tells};
ghost use Rattle.nv_book.specs.Manifests.{held_of, snapshots};
ghost use Rattle.nv_book.specs.Records.{is_held_by};
ghost use Rattle.nv_book.specs.Runs.{pages_of};

use crate::manifest::Manifest;
use crate::run::RecordRun;
use nv_base::{Epoch, Fault};
use std::alloc::Global;

/// The snapshots that hold a run stand side by side. So a run adds its blocks to one number alone, at the place of the
/// first that holds it, and to another behind the last; the sums of both up to a place tell what its snapshot holds.
#[derive(Debug, Drop)]
pub struct HeldSpans {
    begun: Vec<u64>,
    over: Vec<u64>,
}

/// Whether there is a manifest at the place, and it is of a snapshot below the bound.
fn is_below(manifests: &[Manifest], place: usize, bound: Epoch) -> bool
    requires { IsRising (snapshots manifests.now) }
    ensures below { result ≡ true → (k : ℕ) → k ≤ place → k < length manifests.now
        → slice_index (snapshots manifests.now) k < bound }
    ensures others { result ≡ false → (k : ℕ) → place ≤ k → k < length manifests.now
        → bound ≤ slice_index (snapshots manifests.now) k }
{
    place < manifests.len() && manifests[place].snapshot < bound
}

/// How many of the manifests are of snapshots below the bound: as many as guessed, or else found by halving.
fn count_below(manifests: &[Manifest], guess: usize, bound: Epoch) -> usize
    requires { IsRising (snapshots manifests.now) }
    ensures below { (k : ℕ) → k < result → k < length manifests.now
        → slice_index (snapshots manifests.now) k < bound }
    ensures others { (k : ℕ) → result ≤ k → k < length manifests.now
        → bound ≤ slice_index (snapshots manifests.now) k }
{
    let begins = guess == 0 || is_below(manifests, guess - 1, bound);
    if begins && !is_below(manifests, guess, bound) {
        return guess;
    }
    manifests.partition_point(|m| m.snapshot < bound)
}

/// Adds so many blocks at a place, if it is there.
fn add_at(numbers: &mut Vec<u64>, place: usize, blocks: u64)
    requires { sum numbers.old.items + blocks < 2 ^ 64 }
    ensures places { length numbers.new.items ≡ length numbers.old.items }
    ensures few { sum numbers.new.items ≤ sum numbers.old.items + blocks }
    ensures sums { (n : ℕ) → n ≤ length numbers.old.items → sum (take n numbers.new.items)
        ≡ sum (take n numbers.old.items) + (if nat_lt place n then blocks else 0) }
{
    if place < numbers.len() {
        numbers[place] += blocks;
    }
}

impl HeldSpans {
    /// Spans over so many places, with no blocks.
    ///
    /// The only error is `OutOfMemory`.
    pub fn new(alloc: Global, places: usize) -> Result<HeldSpans, Fault>
        ensures begun { IfOk result (λ spans. spans.begun.items ≡ replicate places 0) }
        ensures over { IfOk result (λ spans. spans.over.items ≡ replicate places 0) }
        ensures err { FailsOnly out_of_memory result }
    {
        Ok(HeldSpans {
            begun: vec![in alloc; 0; places]?,
            over: vec![in alloc; 0; places]?,
        })
    }

    /// Adds a run of the manifest at a place. Where that is of its youngest holder, as in a book, the run is held up to
    /// there, and only a run with blocks that an older snapshot holds too is looked up among the manifests.
    pub fn add(&mut self, manifests: &[Manifest], place: usize, run: &RecordRun)
        requires rising { IsRising (snapshots manifests.now) }
        requires room { HasRoom self.old (length manifests.now) (pages_of run.now) }
        ensures room { (more : ℕ) →
            HasRoom self.old (length manifests.now) (pages_of run.now + more)
            → HasRoom self.new (length manifests.now) more }
        ensures held { AddsSpan (snapshots manifests.now)
            (λ s. if is_held_by s run.now.first then pages_of run.now else 0) self.old self.new }
    {
        let blocks = run.pages();
        if blocks == 0 {
            return;
        }
        let first = count_below(manifests, place, run.first.birth);
        let end = count_below(manifests, place.saturating_add(1), run.first.death);
        if first < end {
            add_at(&mut self.begun, first, blocks);
            add_at(&mut self.over, end, blocks);
        }
    }

    /// What each snapshot holds, oldest first, where the records of all manifests have been added.
    ///
    /// The only error is `OutOfMemory`.
    pub fn held(&self, alloc: Global, manifests: &[Manifest]) -> Result<Vec<u64>, Fault>
        requires room { HasRoom self.now (length manifests.now) 0 }
        requires all { Tells (snapshots manifests.now) self.now (λ s. held_of s manifests.now) }
        ensures ok { IfOk result (λ held. held.items
            ≡ map (λ s. held_of s manifests.now) (snapshots manifests.now)) }
        ensures err { FailsOnly out_of_memory result }
    {
        let mut held = Vec::with_capacity(alloc, manifests.len())?;
        let mut begun = 0;
        let mut over = 0;
        for place in 0..manifests.len() {
            begun += self.begun[place];
            over += self.over[place];
            held.push(begun - over)?;
        }
        Ok(held)
    }
}
