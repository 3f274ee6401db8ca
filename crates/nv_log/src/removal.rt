//! What is left of a chain's entries and pages once some are taken out. Flags say which stay, as do all items
//! past the flags. Nothing here takes memory.

ghost use Rattle.std.specs.Prelude.{◌≡◌, ℕ, ◌+◌, ◌-◌, ◌<◌, ◌≤◌, ◌++◌, length, reverse, take, drop, slice_range, slice_index_or, not, true, vec_len, vec_capacity};
ghost use Rattle.std.specs.List.{count_by};
ghost use Rattle.nv_alloc.specs.Block.{AreSized};
ghost use Rattle.nv_log.specs.Chain.{AreEnds, ends_from, flags_from, gone_of, joined, left_of, parts_from};

use nv_alloc::{Block, BlockQueue};
use nv_entry::Entry;
use std::collections::VecDeque;
use std::mem;

/// Whether the item at a place stays, by flags from place `first` on.
fn is_left(first: usize, stays: &[bool], place: usize) -> bool
    ensures { result ≡ slice_index_or (flags_from first stays.now) place true }
{
    if place < first {
        return true;
    }
    stays.get(place - first).copied().unwrap_or(true)
}

/// How many flags are set.
fn flagged(stays: &[bool]) -> usize
    ensures value { result ≡ count_by (λ stays. stays) stays.now }
    ensures most { result ≤ length stays.now }
{
    stays.iter().filter(|stays| **stays).count()
}

/// How many of the entries stay.
pub fn staying(entries: &[Entry], stays: &[bool]) -> usize
    requires { length stays.now ≤ length entries.now }
    ensures { result ≡ length (left_of stays.now entries.now) }
{
    flagged(stays) + (entries.len() - stays.len())
}

/// Leaves the entries that stay, in one walk: they keep their order.
pub fn take_entries(entries: &mut Vec<Entry>, stays: &[bool])
    ensures entries { entries.new.items ≡ left_of stays.now entries.old.items }
    ensures capacity { vec_capacity entries.new ≡ vec_capacity entries.old }
{
    let mut to = 0;
    for place in 0..entries.len() {
        if is_left(0, stays, place) {
            entries.swap(to, place);
            to += 1;
        }
    }
    entries.truncate(to);
}

/// Leaves the entries of the pages that stay, and these pages' ends, in one walk, and says how many of the
/// first `tail` entries stay.
pub fn take_pages(
    entries: &mut Vec<Entry>,
    ends: &mut Vec<usize>,
    tail: usize,
    first: usize,
    stays: &[bool],
) -> usize
    requires parted { (page : ℕ) × AreEnds page 0 ends.old.items (length entries.old.items) }
    ensures entries { entries.new.items
        ≡ joined (left_of (flags_from first stays.now)
        (parts_from 0 ends.old.items entries.old.items)) }
    ensures ends { ends.new.items
        ≡ ends_from 0
        (left_of (flags_from first stays.now) (parts_from 0 ends.old.items entries.old.items)) }
    ensures tail { result ≡ length (joined (left_of (flags_from first stays.now)
        (parts_from 0 ends.old.items (take tail entries.old.items)))) }
    ensures entries_capacity { vec_capacity entries.new ≡ vec_capacity entries.old }
    ensures ends_capacity { vec_capacity ends.new ≡ vec_capacity ends.old }
{
    let mut start = 0;
    let mut pages = 0;
    let mut places = 0;
    let mut counted = 0;
    for k in 0..ends.len() {
        let end = ends[k];
        if is_left(first, stays, k) {
            move_down(entries, start, end, places);
            places += end - start;
            counted += end.min(tail) - start.min(tail);
            ends[pages] = places;
            pages += 1;
        }
        start = end;
    }
    entries.truncate(places);
    ends.truncate(pages);
    counted
}

/// Moves the entries from `start` up to `end` down to place `to`.
fn move_down(entries: &mut Vec<Entry>, start: usize, end: usize, to: usize)
    requires down { to ≤ start }
    requires onward { start ≤ end }
    requires within { end ≤ vec_len entries.old }
    ensures front { take (to + (end - start)) entries.new.items
        ≡ take to entries.old.items ++ slice_range entries.old.items start end }
    ensures rest { drop end entries.new.items ≡ drop end entries.old.items }
    ensures len { vec_len entries.new ≡ vec_len entries.old }
    ensures capacity { vec_capacity entries.new ≡ vec_capacity entries.old }
{
    for i in 0..end - start {
        entries.swap(to + i, start + i);
    }
}

/// Puts the blocks that go into the queue, in order, in one walk: those that stay keep their order.
pub fn hand_out(blocks: &mut Vec<Block>, stays: &[bool], out: &mut BlockQueue)
    requires room { count_by not stays.now ≤ out.old.room }
    requires sized { AreSized out.old.size (gone_of stays.now blocks.old.items) }
    ensures blocks { blocks.new.items ≡ left_of stays.now blocks.old.items }
    ensures capacity { vec_capacity blocks.new ≡ vec_capacity blocks.old }
    ensures out { out.new ≡ record out.old {
      blocks = out.old.blocks ++ gone_of stays.now blocks.old.items;
      room = out.old.room - length (gone_of stays.now blocks.old.items);
    } }
{
    let alloc = *blocks.allocator();
    let mut queue = VecDeque::from_vec(mem::replace(blocks, Vec::new(alloc)));
    for k in 0..queue.len() {
        let Some(block) = queue.pop_front() else {
            unreachable!()
        };
        if is_left(0, stays, k) {
            queue.push_back_reserved(block);
        } else {
            out.put(block);
        }
    }
    mem::replace(blocks, queue.into_vec()).destroy_empty();
}

/// Puts the blocks past the first `count` into the queue, the last one first.
pub fn hand_out_past(blocks: &mut Vec<Block>, count: usize, out: &mut BlockQueue)
    requires count { count ≤ vec_len blocks.old }
    requires room { length (drop count blocks.old.items) ≤ out.old.room }
    requires sized { AreSized out.old.size (drop count blocks.old.items) }
    ensures blocks { blocks.new.items ≡ take count blocks.old.items }
    ensures capacity { vec_capacity blocks.new ≡ vec_capacity blocks.old }
    ensures out { out.new ≡ record out.old {
      blocks = out.old.blocks ++ reverse (drop count blocks.old.items);
      room = out.old.room - length (drop count blocks.old.items);
    } }
{
    for _page in count..blocks.len() {
        let Some(block) = blocks.pop() else {
            unreachable!()
        };
        out.put(block);
    }
}
