//! How many log pages a plan needs.

ghost use Rattle.std.specs.Prelude.{◌≡◌, ◌+◌, ◌<◌, ◌≤◌, ◌^◌, ℕ, List, length, not, true};
ghost use Rattle.std.specs.List.{AllByRecursion, sum_by};
ghost use Rattle.nv_alloc.specs.Block.{numbers_of};
ghost use Rattle.nv_alloc.specs.declared.hand.Hand.{Hand as HandValue};
ghost use Rattle.nv_log.specs.Chain.{room_of};
ghost use Rattle.nv_calls.specs.declared.log_pages.TheConstants.{MORE_PAGES};
ghost use Rattle.nv_calls.specs.declared.allocation.Allocation.{Allocation};
ghost use Rattle.nv_calls.specs.AllCalls.{plan};
ghost use Rattle.nv_calls.specs.ByNames.{goes_by_names};
ghost use Rattle.nv_calls.specs.Cells.{state_at};
ghost use Rattle.nv_calls.specs.PagesWanted.{entry_counts, goes_on, pages_wanted};
ghost use Rattle.nv_calls.specs.Plan.{block_runs_of};
ghost use Rattle.nv_calls.specs.Prepared.{CanReady, planned_by};
ghost use Rattle.nv_calls.specs.Updates.{blank_call};
ghost use Rattle.nv_calls.specs.calls.Rename.{bound_plan};

use crate::calls::rename;
use crate::looked::{found, look_all};
use crate::{Cells, HeldNodes, LookupResult, Nodes, Update};
use nv_alloc::{BlockQueue, Hand};
use nv_base::{Handle, Ino};

/// A call takes at most so many log pages more than data blocks: each of these may have an entry of its own, at most
/// three logs grow, and each by at most seven pages more than it gets entries.
pub const MORE_PAGES: u64 = 24;

/// For each of at most three inodes how many entries its log gets: none at a place that is left.
type EntryCounts = [(Ino, usize); 3];

fn none() -> (Ino, usize)
    ensures { result ≡ (0, 0) }
{
    (Ino::new(0), 0)
}

/// How many entries a call appends, inode by inode, where its blocks are so many runs.
fn entries_of<N: Nodes>(nodes: &N, made: Ino, runs: usize, update: &Update) -> EntryCounts
    requires { runs < 2 ^ 63 }
    ensures counts { (block : ℕ) (taken : Allocation) → taken.made.ino ≡ made
        → length taken.runs ≡ runs → result
        ≡ entry_counts (plan block (N.nodes_of nodes.now) taken (blank_call update.now)) }
    ensures few { sum_by (λ entries. entries.1) result ≤ runs + 3 }
{
    match update {
        Update::Create { dir, .. } | Update::Mkdir { dir, .. } => [(dir.ino, 1), (made, 1), none()],
        Update::Write { file, count, .. } => {
            if *count == 0 {
                return [none(); 3];
            }
            [(file.ino, runs), none(), none()]
        }
        Update::Size { file, .. } => [(file.ino, runs + 1), none(), none()],
        Update::Mode { handle, .. } => [(handle.ino, 1), none(), none()],
        Update::Unlink { dir, name } | Update::Rmdir { dir, name } => {
            match found(nodes, dir, name.as_slice()) {
                Some(to) => [(dir.ino, 1), (to.ino, 1), none()],
                None => [none(); 3],
            }
        }
        Update::Rename { from, old, to, new } => {
            if rename::is_own_place(from, old.as_slice(), to, new.as_slice()) {
                return [none(); 3];
            }
            rename_entries(from, to, &look_all(nodes, update))
        }
    }
}

/// How many of them for a rename that is not onto its own place.
fn rename_entries(from: &Handle, to: &Handle, looked: &LookupResult) -> EntryCounts
    ensures counts { (old new : List ℕ) → result ≡ entry_counts
        (bound_plan from.now old to.now new looked.now.first looked.now.second) }
    ensures few { sum_by (λ entries. entries.1) result ≤ 3 }
{
    if looked.first.is_none() {
        return [none(); 3];
    }
    let replaced = match looked.second {
        Some(other) => (other.ino, 1),
        None => none(),
    };
    if rename::is_same(from, to) {
        [(from.ino, 2), replaced, none()]
    } else {
        [(from.ino, 1), (to.ino, 1), replaced]
    }
}

/// How many maximal runs the blocks of a queue are.
fn run_count(queue: &BlockQueue) -> usize
    requires small { AllByRecursion (λ b. b.number < 2 ^ 32) queue.now.blocks }
    requires few { length queue.now.blocks < 2 ^ 32 }
    ensures runs { result ≡ length (block_runs_of (numbers_of queue.now.blocks)) }
    ensures few { result ≤ length queue.now.blocks }
{
    let mut runs = 0;
    let mut next = None;
    for block in queue.iter() {
        let number = block.number().number();
        runs += usize::from(begins_run(next, number));
        next = Some(number + 1);
    }
    runs
}

/// Whether a number begins a run, where the one before it would go on with `next`.
fn begins_run(next: Option<u64>, number: u64) -> bool
    ensures { result ≡ not (goes_on next number) }
{
    match next {
        Some(next) => next != number,
        None => true,
    }
}

/// Whether what a call appends hangs on what its names lead to.
fn goes_by_names(update: &Update) -> bool
    ensures { result ≡ goes_by_names update.now }
{
    matches!(
        update,
        Update::Unlink { .. } | Update::Rmdir { .. } | Update::Rename { .. }
    )
}

/// Whether the log of each cell takes so many entries in the pages that it has.
fn have_room<C: Cells>(cells: &C, entries: usize) -> bool
    requires { length (C.cells cells.now) ≤ 4 }
    ensures { (k : ℕ) → result ≡ true → k < length (C.cells cells.now)
        → entries ≤ room_of (state_at (C.cells cells.now) k).chain }
{
    for k in 0..cells.count() {
        if cells.cell(k).room() < entries {
            return false;
        }
    }
    true
}

/// Whether a call is known to take no log page, whatever its names lead to: it hangs on these, so that it appends at most
/// two entries to a log, and each log takes as many in the pages that it has.
fn takes_none<C: Cells>(cells: &C, update: &Update) -> bool
    requires { length (C.cells cells.now) ≤ 4 }
    ensures { (hand : HandValue) → result ≡ true
        → pages_wanted (C.cells cells.now) (planned_by (C.cells cells.now) hand update.now) ≡ 0 }
{
    if goes_by_names(update) {
        return have_room(cells, 2);
    }
    false
}

/// How many log pages the items of a call need, with the data blocks and the number of a new inode in the hand, beyond
/// those that the logs of its cells have room in. Takes no memory. Costs the data blocks in the hand, and the look-ups
/// of its plan where a log may lack room.
/// Only tested: counting the log pages takes no memory.
pub fn pages_wanted<C: Cells>(cells: &C, update: &Update, hand: &Hand) -> u64
    requires can { CanReady (C.cells cells.now) hand.now update.now }
    // How many log pages a call takes, with the data blocks and the number in its hand, is told.
    ensures wanted { result ≡ pages_wanted (C.cells cells.now)
        (planned_by (C.cells cells.now) hand.now update.now) }
    // A call takes at most `MORE_PAGES` log pages more than data blocks.
    ensures few { result ≤ length hand.now.data.blocks + MORE_PAGES }
{
    if takes_none(cells, update) {
        return 0;
    }
    count_pages(cells, update, hand)
}

/// How many log pages they need, inode by inode.
fn count_pages<C: Cells>(cells: &C, update: &Update, hand: &Hand) -> u64
    requires can { CanReady (C.cells cells.now) hand.now update.now }
    ensures wanted { result ≡ pages_wanted (C.cells cells.now)
        (planned_by (C.cells cells.now) hand.now update.now) }
    ensures few { result ≤ length hand.now.data.blocks + MORE_PAGES }
{
    let nodes = HeldNodes::new(cells);
    let made = hand.ino().unwrap_or(Ino::new(0));
    let runs = run_count(&hand.data);
    let entries = entries_of(&nodes, made, runs, update);
    let mut wanted = 0;
    for (ino, count) in &entries {
        if let Some(cell) = nodes.cell_of(*ino) {
            wanted += cell.pages_for(*count) as u64;
        }
    }
    wanted
}
