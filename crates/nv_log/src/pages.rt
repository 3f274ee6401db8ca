//! Where the pages of a chain begin and end among its entries.

ghost use Rattle.std.specs.Prelude.{◌≡◌, ℕ, ◌<◌, ◌≤◌, ◌++◌, ◌∷◌, [], length, take, vec_capacity};
ghost use Rattle.std.specs.Int.{div_ceil};
ghost use Rattle.nv_log.specs.Chain.{AreEnds, end_in, growth, open_page, packed, start_in};
ghost use Rattle.nv_log.specs.Image.{cut_ends};

/// Where page `k` begins among `len` entries: one that has none begins where all end.
pub fn start_of(ends: &[usize], len: usize, k: usize) -> usize
    ensures { result ≡ start_in ends.now len k }
{
    if k == 0 {
        return 0;
    }
    end_of(ends, len, k - 1)
}

/// Where page `k` ends among `len` entries.
pub fn end_of(ends: &[usize], len: usize, k: usize) -> usize
    ensures { result ≡ end_in ends.now len k }
{
    ends.get(k).copied().unwrap_or(len)
}

/// The page that gets the next entry: that of the last entry while it has a free place, and then the one
/// after it.
pub fn open_page(page: usize, ends: &[usize], len: usize) -> usize
    ensures { result ≡ open_page page ends.now len }
{
    let last = ends.len().saturating_sub(1);
    if len.saturating_sub(start_of(ends, len, last)) < page {
        return last;
    }
    ends.len()
}

/// By how many pages a log with so many grows: it doubles up to eight, and then grows by eight.
pub fn growth(pages: usize) -> usize
    ensures { result ≡ growth pages }
{
    match pages {
        0 => 1,
        1..8 => pages.min(8 - pages),
        _ => 8,
    }
}

/// The page of the entry at a place, found by halving.
pub fn page_of(ends: &[usize], len: usize, place: usize) -> usize
    requires parted { (page : ℕ) × AreEnds page 0 ends.now len }
    requires place { place < len }
    ensures within { result < length ends.now }
    ensures start { start_in ends.now len result ≤ place }
    ensures end { place < end_in ends.now len result }
{
    ends.partition_point(|end| *end <= place)
}

/// How many pages end before the place `tail`.
fn ended_before(ends: &[usize], tail: usize) -> usize
    requires { (page : ℕ) × (len : ℕ) × AreEnds page 0 ends.now len }
    ensures all { length ends.now ≤ result → cut_ends tail ends.now ≡ ends.now }
    ensures some { 0 < tail → result < length ends.now
        → cut_ends tail ends.now ≡ take result ends.now ++ tail ∷ [] }
{
    ends.partition_point(|end| *end < tail)
}

/// On how many pages the first `tail` entries stand.
pub fn count_for(ends: &[usize], tail: usize) -> usize
    requires { (page : ℕ) × (len : ℕ) × AreEnds page 0 ends.now len }
    ensures { result ≡ length (cut_ends tail ends.now) }
{
    if tail == 0 {
        return 0;
    }
    let full = ended_before(ends, tail);
    let pages = ends.len();
    if pages <= full {
        return pages;
    }
    full + 1
}

/// Leaves the ends of the pages on which the first `tail` entries stand. Takes no memory.
pub fn cut(ends: &mut Vec<usize>, tail: usize)
    requires { (page : ℕ) × (len : ℕ) × AreEnds page 0 ends.old.items len }
    ensures ends { ends.new.items ≡ cut_ends tail ends.old.items }
    ensures capacity { vec_capacity ends.new ≡ vec_capacity ends.old }
{
    if tail == 0 {
        ends.clear();
        return;
    }
    let full = ended_before(ends.as_slice(), tail);
    let pages = ends.len();
    if pages <= full {
        return;
    }
    ends.truncate(full);
    ends.push_reserved(tail);
}

/// Sets the ends to those of full pages, of which the last may be short.
pub fn pack(ends: &mut Vec<usize>, page: usize, entries: usize)
    requires some { 0 < page }
    requires room { div_ceil entries page ≤ vec_capacity ends.old }
    ensures ends { ends.new.items ≡ packed page entries }
    ensures capacity { vec_capacity ends.new ≡ vec_capacity ends.old }
{
    ends.clear();
    for k in 0..entries.div_ceil(page) {
        ends.push_reserved((k + 1).saturating_mul(page).min(entries));
    }
}
