//! A list of page runs in rows.

ghost use Rattle.std.specs.Prelude.{◌≡◌, ◌+◌, ◌-◌, ◌*◌, ◌/◌, ◌^◌, ◌<◌, ◌≤◌, [], ◌∷◌, ◌++◌, length, take, drop, set, slice_get, slice_index_or, vec_len, vec_capacity, max, OnOk, OnErr};
ghost use Rattle.std.specs.List.{insert};
ghost use Rattle.nv_findex.specs.Rows.{AreStarts, pushed, slot, turned};

use crate::PageRun;
use std::alloc::{AllocError, Global};
use std::marker::Model;

/// How many runs a full row has.
const ROW: usize = 128;

/// A list of runs in one block of memory, which lies there in rows: each full row is a ring that begins at a place of
/// its own, and what is behind the full rows lies in order. So a run goes on to the next row without a move of others.
#[derive(Debug, Drop)]
pub struct RunRows {
    runs: Vec<PageRun>,
    /// At which place each full row begins.
    starts: Vec<u8>,
}

impl Model for RunRows {
    ghost use Rattle.std.specs.Prelude.{◌+◌, ◌*◌, ◌<◌, length, vec_capacity};
    ghost use Rattle.nv_findex.specs.Rows.{RunList, AreStarts, in_rows};

    ghost Value = { RunList };

    ghost view = { λ r.
        record { items = in_rows r.starts.items r.runs.items; capacity = vec_capacity r.runs } };

    // It has as many starts as full rows of 128 page runs, each within its row.
    // Where there is room for page runs, there is room for the starts of all full rows of as many.
    ghost invariant = { λ r. AreStarts r.starts.items (length r.runs.items)
        × (vec_capacity r.runs < vec_capacity r.starts * 128 + 128) };
}

/// Where the run at a place lies.
fn slot(starts: &[u8], place: usize) -> usize
    ensures { result ≡ slot starts.now place }
{
    let row = place / ROW;
    if row < starts.len() {
        return row * ROW + (starts[row] as usize + place % ROW) % ROW;
    }
    place
}

/// Inserts a run where there is room for it. At the end that moves none.
fn insert_with_room(runs: &mut Vec<PageRun>, place: usize, run: PageRun)
    requires within { place ≤ vec_len runs.old }
    requires room { vec_len runs.old < vec_capacity runs.old }
    ensures items { runs.new.items ≡ insert runs.old.items place run }
    ensures len { vec_len runs.new ≡ vec_len runs.old + 1 }
    ensures capacity { vec_capacity runs.new ≡ vec_capacity runs.old }
{
    if place == runs.len() {
        return runs.push_reserved(run);
    }
    let _there_is_room = runs.insert(place, run);
}

/// Puts a run at the place `from`, moves those from there on and before `to` by one, and takes the last of them out.
fn push_within(runs: &mut Vec<PageRun>, from: usize, to: usize, run: PageRun) -> PageRun
    requires order { from < to }
    requires within { to ≤ vec_len runs.old }
    ensures items { runs.new.items ≡ pushed from to run runs.old.items }
    ensures value { result ≡ slice_index_or runs.old.items (to - 1) result }
    ensures len { vec_len runs.new ≡ vec_len runs.old }
    ensures capacity { vec_capacity runs.new ≡ vec_capacity runs.old }
{
    let out = runs[to - 1];
    runs.copy_within(from..to - 1, from + 1);
    runs[from] = run;
    out
}

/// Turns a row so that it begins with the run at its place `start`.
fn turn_row(runs: &mut [PageRun], row: usize, start: usize)
    requires row { row * ROW + ROW ≤ length runs.old }
    requires start { start ≤ ROW }
    ensures { runs.new ≡ take (row * ROW) runs.old
        ++ (turned start (take ROW (drop (row * ROW) runs.old))
        ++ drop (row * ROW + ROW) runs.old) }
{
    runs[row * ROW..row * ROW + ROW].rotate_left(start);
}

impl RunRows {
    /// A list without runs. It takes no memory yet.
    pub fn new(alloc: Global) -> Self
        ensures { result ≡ record { items = []; capacity = 0 } }
    {
        RunRows {
            runs: Vec::new(alloc),
            starts: Vec::new(alloc),
        }
    }

    /// How many runs the list has.
    #[tactic(auto, using(crate::proofs::Rows::length_rows))]
    pub fn len(&self) -> usize
        ensures { result ≡ length self.now.items }
    {
        self.runs.len()
    }

    /// For how many runs there is room in all.
    #[tactic(auto, using(crate::proofs::Rows::length_rows))]
    pub fn capacity(&self) -> usize
        ensures value { result ≡ self.now.capacity }
        ensures within { length self.now.items ≤ self.now.capacity }
    {
        self.runs.capacity()
    }

    /// The run at a place.
    #[tactic(auto, using(crate::proofs::Rows::rows_tell))]
    pub fn at(&self, place: usize) -> PageRun
        requires { place < length self.now.items }
        ensures { result ≡ slice_index_or self.now.items place result }
    {
        self.runs[slot(&self.starts, place)]
    }

    /// The run at a place, if there is one.
    pub fn get(&self, place: usize) -> Option<PageRun>
        ensures { result ≡ slice_get self.now.items place }
    {
        if self.len() <= place {
            return None;
        }
        Some(self.at(place))
    }

    /// Puts a run in the place of another, which it returns.
    #[tactic(auto, using(crate::proofs::Rows::rows_tell))]
    pub fn replace(&mut self, place: usize, run: PageRun) -> PageRun
        requires { place < length self.old.items }
        ensures value { result ≡ slice_index_or self.old.items place result }
        ensures items { self.new.items ≡ set self.old.items place run }
        ensures capacity { self.new.capacity ≡ self.old.capacity }
    {
        let at = slot(&self.starts, place);
        let out = self.runs[at];
        self.runs[at] = run;
        out
    }

    /// Makes room for as many more runs.
    #[tactic(auto, using(crate::proofs::Rows::rows_tell))]
    pub fn reserve_exact(&mut self, more: usize) -> Result<(), AllocError>
        ensures items { self.new.items ≡ self.old.items }
        ensures ok { OnOk result
            (self.new.capacity ≡ max self.old.capacity (length self.old.items + more)) }
        ensures err { OnErr result (self.new.capacity ≡ self.old.capacity) }
        ensures missing { OnErr result (self.old.capacity < length self.old.items + more) }
        ensures limit { OnOk result (self.new.capacity < 2 ^ 63) }
        ensures within { length self.old.items ≤ self.old.capacity }
    {
        if more <= self.capacity() - self.len() {
            return Ok(());
        }
        let rows = self.len().saturating_add(more) / ROW;
        self.starts
            .reserve_exact(rows.saturating_sub(self.starts.len()))?;
        self.runs.reserve_exact(more)
    }

    /// Puts a run in front of a full row, and takes the row's last one out. It moves no other.
    #[tactic(auto, using(crate::proofs::Rows::rows_tell))]
    fn pass_on(&mut self, row: usize, run: PageRun) -> PageRun
        requires { row * ROW + ROW ≤ length self.old.items }
        ensures items { insert self.old.items (row * ROW) run
            ≡ insert self.new.items (row * ROW + ROW) result }
        ensures len { length self.new.items ≡ length self.old.items }
        ensures capacity { self.new.capacity ≡ self.old.capacity }
    {
        let start = (self.starts[row] as usize + (ROW - 1)) % ROW;
        let at = row * ROW + start;
        let out = self.runs[at];
        self.runs[at] = run;
        self.starts[row] = start as u8;
        out
    }

    /// Puts a run at a place of a full row, moves those behind it in that row by one, and takes the last of them out.
    #[tactic(auto, using(crate::proofs::Rows::rows_tell))]
    fn push_in_row(&mut self, place: usize, run: PageRun) -> PageRun
        requires { place / ROW * ROW + ROW ≤ length self.old.items }
        ensures items { insert self.old.items place run
            ≡ insert self.new.items (place / ROW * ROW + ROW) result }
        ensures len { length self.new.items ≡ length self.old.items }
        ensures capacity { self.new.capacity ≡ self.old.capacity }
    {
        let first = place / ROW * ROW;
        let start = self.starts[place / ROW] as usize;
        let at = first + (start + place % ROW) % ROW;
        if at < first + start {
            return push_within(&mut self.runs, at, first + start, run);
        }
        let out = push_within(&mut self.runs, at, first + ROW, run);
        if start == 0 {
            return out;
        }
        push_within(&mut self.runs, first, first + start, out)
    }

    /// `pass_on` over whole rows.
    fn pass_rows(&mut self, from: usize, to: usize, run: PageRun) -> PageRun
        requires order { from ≤ to }
        requires within { to * ROW ≤ length self.old.items }
        ensures items { insert self.old.items (from * ROW) run
            ≡ insert self.new.items (to * ROW) result }
        ensures len { length self.new.items ≡ length self.old.items }
        ensures capacity { self.new.capacity ≡ self.old.capacity }
    {
        let mut out = run;
        for row in from..to {
            out = self.pass_on(row, out);
        }
        out
    }

    /// Puts a run at a place behind the full rows.
    #[inline(always)]
    #[tactic(auto, using(crate::proofs::Rows::rows_tell))]
    fn insert_last(&mut self, place: usize, run: PageRun)
        requires last { length self.old.items / ROW * ROW ≤ place }
        requires within { place ≤ length self.old.items }
        requires room { length self.old.items < self.old.capacity }
        ensures items { self.new.items ≡ insert self.old.items place run }
        ensures capacity { self.new.capacity ≡ self.old.capacity }
    {
        insert_with_room(&mut self.runs, place, run);
        if self.runs.len() == self.starts.len() * ROW + ROW {
            self.starts.push_reserved(0);
        }
    }

    /// Puts a run at a place, and moves those from there on by one. Costs a move of the runs of two rows at most, and a
    /// step for each row behind.
    pub fn insert(&mut self, place: usize, run: PageRun)
        requires within { place ≤ length self.old.items }
        requires room { length self.old.items < self.old.capacity }
        ensures items { self.new.items ≡ insert self.old.items place run }
        ensures capacity { self.new.capacity ≡ self.old.capacity }
    {
        let last_row = self.len() / ROW;
        if last_row * ROW <= place {
            return self.insert_last(place, run);
        }
        let next_row = place / ROW + 1;
        let out = self.push_in_row(place, run);
        let out = self.pass_rows(next_row, last_row, out);
        self.insert_last(last_row * ROW, out);
    }

    /// Keeps the first runs alone.
    #[tactic(auto, using(crate::proofs::Rows::rows_tell))]
    pub fn truncate(&mut self, len: usize)
        ensures items { self.new.items ≡ take len self.old.items }
        ensures capacity { self.new.capacity ≡ self.old.capacity }
    {
        if self.runs.len() <= len {
            return;
        }
        let row = len / ROW;
        if self.starts.len() <= row {
            return self.runs.truncate(len);
        }
        let start = self.starts[row] as usize;
        turn_row(&mut self.runs, row, start);
        self.starts.truncate(row);
        self.runs.truncate(len);
    }
}
