//! Index and marks of a log, entry by entry.

ghost use Rattle.std.specs.Prelude.{◌≡◌, ℕ, ◌+◌, ◌-◌, ◌<◌, ◌≤◌, ◌^◌, List, [], if◌then◌else◌, IfOk, OnOk, length, min, replicate, slice_index, vec_capacity, vec_len};
ghost use Rattle.std.specs.List.Sorted.{IsStrictlyIncreasing};
ghost use Rattle.nv_base.specs.Memory.{out_of_memory};
ghost use Rattle.nv_base.specs.Refusals.{FailsOnly};
ghost use Rattle.nv_entry.specs.Covered.{part_total};
ghost use Rattle.nv_cell.specs.Anew.{birth_at, mark_ended};
ghost use Rattle.nv_cell.specs.Marks.{mark_at};
ghost use Rattle.nv_cell.specs.Numbers.{numbers_in, part_base};
ghost use Rattle.nv_cell.specs.Plan.{HaveEnds, IsScanned};
ghost use Rattle.nv_cell.specs.Tallies.{SameCapacity, end_at, is_in};
ghost use Rattle.nv_cell.specs.declared.mark.Mark.TheVariants as mark;

use crate::kills::push_covered;
use crate::marks::push_current;
use crate::needs::weight_of;
use crate::{CellIndex, Mark, Marks, NumberedPart, PartEnds};
use nv_base::{Epoch, Fault};
use nv_log::Chain;
use std::alloc::Global;

/// Index and marks of the first entries of a log. A part that has ended is kept where a living snapshot holds it, and
/// out where none does. What follows from the marks, beside where the parts of each entry end, is not told yet.
#[derive(Debug, Drop)]
pub struct Scan {
    pub index: CellIndex,
    pub marks: Marks,
    // The parts that the last entry has ended.
    pub ended: Vec<NumberedPart>,
}

/// How many parts all entries of a chain have, up to the greatest number.
fn count_parts(chain: &Chain) -> usize
    ensures { result ≡ min (part_total chain.now.state.entries) (2 ^ 64 - 1) }
{
    let mut total: usize = 0;
    for t in 0..chain.len() {
        total = total.saturating_add(chain.entry_at(t).item.part_count() as usize);
    }
    total
}

/// Tells where the parts of each entry end.
fn push_ends(ends: &mut PartEnds, chain: &Chain)
    requires none { ends.old.items ≡ [] }
    requires room { length chain.now.state.entries ≤ vec_capacity ends.old }
    requires small { part_total chain.now.state.entries < 2 ^ 64 }
    ensures len { length ends.new.items ≡ length chain.now.state.entries }
    ensures ended { (i : ℕ) → i < length chain.now.state.entries → end_at ends.new.items i
        ≡ part_base chain.now.state.entries (i + 1) }
    ensures capacity { vec_capacity ends.new ≡ vec_capacity ends.old }
{
    let mut end = 0;
    for t in 0..chain.len() {
        let count = chain.entry_at(t).item.part_count() as usize;
        end += count;
        ends.push_reserved(end);
    }
}

/// Marks of the parts of the first `tail` entries, all of them current, with room for what follows from the marks of
/// all entries.
///
/// The only error is `OutOfMemory`.
fn fresh_marks(alloc: Global, chain: &Chain, tail: usize) -> Result<Marks, Fault>
    requires { tail ≤ length chain.now.state.entries }
    ensures ends { IfOk result (HaveEnds chain.now) }
    ensures marks { IfOk result (λ marks. marks.marks.items
        ≡ replicate (part_base chain.now.state.entries tail) mark.Current) }
    ensures err { FailsOnly out_of_memory result }
{
    let mut marks = Marks::new(alloc);
    let pages = chain.blocks().len().saturating_add(chain.spare());
    marks.reserve(count_parts(chain), chain.len(), pages)?;
    push_ends(&mut marks.ends, chain);
    let parts = marks.first(tail);
    push_current(&mut marks.marks, parts);
    Ok(marks)
}

impl Marks {
    /// Marks parts that lived up to an epoch as ended. What follows from the marks is not told anew.
    fn end_all(&mut self, chain: &Chain, living: &[Epoch], ended: &[NumberedPart], death: Epoch)
        requires ends { HaveEnds chain.now self.old }
        requires rising { IsStrictlyIncreasing living.now }
        requires within { (i : ℕ) → i < length ended.now
            → slice_index (numbers_in ended.now) i < length self.old.marks.items }
        requires known { length self.old.marks.items ≤ part_total chain.now.state.entries }
        ensures marks { (n : ℕ) → mark_at self.new.marks.items n
            ≡ (if is_in n (numbers_in ended.now)
            then mark_ended living.now (birth_at chain.now.state.entries n) death
            else mark_at self.old.marks.items n) }
        ensures len { vec_len self.new.marks ≡ vec_len self.old.marks }
        ensures ends { self.new.ends ≡ self.old.ends }
        ensures room { SameCapacity self.old self.new }
    {
        for part in ended {
            let entry = chain.entry_at(self.entry_of(*part));
            self.marks[part.number] = Mark::ended(living, entry.epoch, death);
        }
    }
}

impl Scan {
    /// The scan of no entry, for the first `tail` entries of a chain.
    ///
    /// The only error is `OutOfMemory`.
    pub fn new(alloc: Global, chain: &Chain, tail: usize) -> Result<Scan, Fault>
        requires { tail ≤ length chain.now.state.entries }
        ensures ok { (block : ℕ) (living : List ℕ) → IfOk result
            (IsScanned block living chain.now tail 0) }
        ensures err { FailsOnly out_of_memory result }
    {
        Ok(Scan {
            index: CellIndex::new(alloc),
            marks: fresh_marks(alloc, chain, tail)?,
            ended: Vec::new(alloc),
        })
    }

    /// Goes on from the first `t` entries to one more. It costs what the entry ends and sets, with a look-up among the
    /// living snapshots for each part that it ends.
    ///
    /// The only error is `OutOfMemory`.
    pub fn take_in(
        &mut self,
        chain: &Chain,
        block: u64,
        living: &[Epoch],
        tail: usize,
        t: usize,
    ) -> Result<(), Fault>
        requires block { 0 < block }
        requires rising { IsStrictlyIncreasing living.now }
        requires next { t < tail }
        requires within { tail ≤ length chain.now.state.entries }
        requires scanned { IsScanned block living.now chain.now tail t self.old }
        ensures ok { OnOk result (IsScanned block living.now chain.now tail (t + 1) self.new) }
        ensures err { FailsOnly out_of_memory result }
    {
        chain.holds_together();
        let entry = chain.entry_at(t);
        // No name stands twice in the index, so that it has as many as the log.
        let names = self.index.name_count();
        let most = weight_of(&self.index, block, 0, names, &entry.item);
        self.ended.clear();
        self.ended.reserve(most)?;
        let place = push_covered(
            &mut self.ended,
            chain,
            &self.marks,
            &self.index,
            block,
            &entry.item,
        );
        self.index.reserve_for(&entry.item)?;
        self.index.put(block, entry, place);
        self.marks.end_all(chain, living, &self.ended, entry.epoch);
        Ok(())
    }
}
