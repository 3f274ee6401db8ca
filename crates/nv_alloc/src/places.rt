//! A set of places of which the lowest is soon known.

ghost use Rattle.std.specs.Prelude.{◌≡◌, ◌≢◌, ℕ, ◌/◌, ◌<◌, ◌≤◌, ◌*◌, ◌-◌, ◌^◌, true, false, min, nat_lt, IfOk, IfSome, IfNone, length, replicate, slice_index, slice_index_or, slice_set};
ghost use Rattle.std.specs.Int.{bit_at};
ghost use Rattle.nv_alloc.specs.Places.{IsFirst, IsFirstWord, IsLowest, IsPlaceSet, bit, bit_of, flags_of, first_bits, word_count, WritesBit};

use std::alloc::{AllocError, Global};
use std::marker::Model;

/// A set of places from 0 on. A change costs three words, and the lowest place as many and one for each 262,144
/// places before it. Contracts see, for each place, whether it is in the set.
#[derive(Drop)]
pub(crate) struct PlaceSet {
    // A bit for each place, 64 in a word, the lowest first.
    bits: Vec<u64>,
    // A bit for each word of `bits`, and one for each word of `words`: it tells whether that word has a bit.
    words: Vec<u64>,
    groups: Vec<u64>,
    len: u32,
}

impl Model for PlaceSet {
    ghost use Rattle.std.specs.Prelude.{List, Bool};
    ghost use Rattle.nv_alloc.specs.Places.{flags_of, IsPlaceSet};

    ghost Value = { List Bool };

    ghost view = { λ s. flags_of s.len s.bits.items };

    // No bit stands past the last place, and a bit above each word tells whether the word has one.
    ghost invariant = { λ s. IsPlaceSet s.len s.bits.items s.words.items s.groups.items };
}

impl PlaceSet {
    /// The set of all places below `len`.
    pub(crate) fn full(alloc: Global, len: u32) -> Result<PlaceSet, AllocError>
        ensures { IfOk result (λ set. set ≡ replicate len true) }
    {
        PlaceSet::alike(alloc, len, len, true)
    }

    /// The set of none of the places below `len`.
    pub(crate) fn empty(alloc: Global, len: u32) -> Result<PlaceSet, AllocError>
        ensures { IfOk result (λ set. set ≡ replicate len false) }
    {
        PlaceSet::alike(alloc, len, 0, false)
    }

    /// The set of all places below `len`, or of none, of which `count` are in it.
    fn alike(alloc: Global, len: u32, count: u32, full: bool) -> Result<PlaceSet, AllocError>
        requires { count ≡ len * bit full }
        ensures { IfOk result (λ set. set ≡ replicate len full) }
    {
        let bits = first_bits(alloc, len as usize, count as usize)?;
        let marked = word_count(count as usize);
        let words = first_bits(alloc, bits.len(), marked)?;
        let groups = first_bits(alloc, words.len(), word_count(marked))?;
        Ok(PlaceSet {
            bits,
            words,
            groups,
            len,
        })
    }

    /// Whether the place is in the set.
    pub(crate) fn has(&self, place: u32) -> bool
        requires { place < length self.now }
        ensures { result ≡ slice_index_or self.now place false }
    {
        let word = self.bits[(place / 64) as usize];
        (word >> (place % 64)) & 1 == 1
    }

    /// The lowest place of the set.
    pub(crate) fn lowest(&self) -> Option<u32>
        ensures { IsLowest self.now result }
    {
        lowest_of(&self.bits, &self.words, &self.groups, self.len)
    }

    /// The first place from one on that is not in the set where `full`, or else that is; behind all places where there
    /// is none. Costs a word for each 64 places that it passes.
    pub(crate) fn end_from(&self, from: u32, full: bool) -> u32
        requires { from ≤ length self.now }
        ensures from { from ≤ result }
        ensures within { result ≤ length self.now }
        ensures before { (k : ℕ) → from ≤ k → k < result
            → slice_index_or self.now k false ≡ full }
        ensures at { result < length self.now → slice_index_or self.now result false ≢ full }
    {
        let bit = end_of_bits(&self.bits, from as usize, full);
        let end = bit.min(self.len as usize);
        end as u32
    }

    pub(crate) fn insert(&mut self, place: u32)
        requires { place < length self.old }
        ensures { self.new ≡ slice_set self.old place true }
    {
        self.write(place, true);
    }

    pub(crate) fn remove(&mut self, place: u32)
        requires { place < length self.old }
        ensures { self.new ≡ slice_set self.old place false }
    {
        self.write(place, false);
    }

    /// Puts a place in, or takes it out.
    #[inline(always)]
    fn write(&mut self, place: u32, value: bool)
        requires { place < length self.old }
        ensures { self.new ≡ slice_set self.old place value }
    {
        let bit = place as usize;
        write_bit(&mut self.bits, bit, value);
        mark(&mut self.words, &self.bits, bit / 64);
        mark(&mut self.groups, &self.words, bit / 64 / 64);
    }
}

/// How many words so many bits take.
fn word_count(bits: usize) -> usize
    requires { bits ≤ 2 ^ 32 }
    ensures { result ≡ word_count bits }
{
    (bits + 63) / 64
}

/// Words with room for some bits, of which the first `count` are set.
fn first_bits(alloc: Global, bits: usize, count: usize) -> Result<Vec<u64>, AllocError>
    requires small { bits ≤ 2 ^ 32 }
    requires within { count ≤ bits }
    ensures bits { IfOk result (λ words. words.items ≡ first_bits count (word_count bits)) }
    ensures len { IfOk result (λ words. length words.items ≡ word_count bits) }
{
    let len = word_count(bits);
    let mut words = Vec::with_capacity(alloc, len)?;
    for word in 0..len {
        words.push_reserved(first_bits_in(count, word));
    }
    Ok(words)
}

/// A word of those whose first `count` bits are set.
fn first_bits_in(count: usize, word: usize) -> u64
    requires { word < 2 ^ 32 }
    ensures { result ≡ 2 ^ min 64 (count - 64 * word) - 1 }
{
    let start = 64 * word;
    if count <= start {
        return 0;
    }
    let here = (count - start).min(64);
    u64::MAX >> (64 - here)
}

/// The lowest bit of some words, of which two levels of marks tell those that have one.
fn lowest_of(bits: &[u64], words: &[u64], groups: &[u64], len: u32) -> Option<u32>
    requires { IsPlaceSet len bits.now words.now groups.now }
    ensures { IsLowest (flags_of len bits.now) result }
{
    let group = first_word(groups)?;
    let outer = first_in(groups, group);
    let word = first_in(words, outer);
    let bit = first_in(bits, word);
    Some(bit as u32)
}

/// The first word that has a bit.
fn first_word(words: &[u64]) -> Option<usize>
    ensures some { IfSome result (IsFirstWord words.now) }
    ensures none { IfNone result ((i : ℕ) → slice_index words.now i ≡ 0) }
{
    for at in 0..words.len() {
        let word = words[at];
        if word != 0 {
            return Some(at);
        }
    }
    None
}

/// The lowest bit of the first word that has one.
fn first_in(words: &[u64], at: usize) -> usize
    requires first { IsFirstWord words.now at }
    requires small { at < 2 ^ 32 }
    ensures { IsFirst words.now result }
{
    let bit = words[at].trailing_zeros() as usize;
    at * 64 + bit
}

/// A word with a bit where this one has none or has one, as `full` says.
fn unlike(word: u64, full: bool) -> u64
    ensures like { (i : ℕ) → i < 64 → bit_at result i ≡ 0 → bit_at word i ≡ bit full }
    ensures unlike { (i : ℕ) → i < 64 → bit_at result i ≡ 1 → bit_at word i ≢ bit full }
{
    if full {
        return !word;
    }
    word
}

/// The lowest bit of a word from one on.
fn lowest_from(word: u64, from: u32) -> Option<u32>
    requires { from < 64 }
    ensures some { IfSome result (λ at. (from ≤ at) × (at < 64) × (bit_at word at ≡ 1)
        × ((i : ℕ) → from ≤ i → i < at → bit_at word i ≡ 0)) }
    ensures none { IfNone result ((i : ℕ) → from ≤ i → i < 64 → bit_at word i ≡ 0) }
{
    let rest = word >> from;
    if rest == 0 {
        return None;
    }
    Some(from + rest.trailing_zeros())
}

/// The first bit from one on that is not set where `full`, or else that is; behind all words where there is none.
fn end_of_bits(words: &[u64], from: usize, full: bool) -> usize
    requires { length words.now ≤ 2 ^ 26 }
    ensures from { from ≤ result }
    ensures before { (k : ℕ) → from ≤ k → k < result → k / 64 < length words.now
        → bit_of words.now k ≡ bit full }
    ensures at { result / 64 < length words.now → bit_of words.now result ≢ bit full }
{
    for at in from / 64..words.len() {
        let low = from.saturating_sub(at * 64);
        let ends = unlike(words[at], full);
        if let Some(end) = lowest_from(ends, low as u32) {
            return at * 64 + end as usize;
        }
    }
    from.max(words.len() * 64)
}

fn write_bit(words: &mut Vec<u64>, at: usize, value: bool)
    requires { at / 64 < length words.old.items }
    ensures { WritesBit words.old.items at (bit value) words.new.items }
{
    let word = words[at / 64];
    if value {
        words[at / 64] = word | (1 << (at % 64));
    } else {
        words[at / 64] = word & !(1 << (at % 64));
    }
}

/// Marks whether a word has a bit.
fn mark(marks: &mut Vec<u64>, words: &[u64], at: usize)
    requires within { at < length words.now }
    requires marked { at / 64 < length marks.old.items }
    ensures { WritesBit marks.old.items at (min 1 (slice_index words.now at)) marks.new.items }
{
    let word = words[at];
    write_bit(marks, at, word != 0);
}
