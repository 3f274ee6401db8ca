//! How many parts of an entry are current or not out and where its slots end, and how many entries of a page have such
//! a part.

ghost use Rattle.std.specs.Prelude.{◌≡◌, ◌+◌, ◌-◌, ◌<◌, ◌≤◌, ◌^◌, true, false};
ghost use Rattle.nv_cell.specs.Marks.{bit, is_current, is_there};
ghost use Rattle.nv_cell.specs.Tallies.{is_live, is_valid, moved, recounted, with_entry};

use crate::Mark;

/// How many parts of an entry are current, how many are not out, and where its slots end among those of all entries.
#[derive(Clone, Copy, Debug, PartialEq, Eq)]
pub struct Tally {
    pub current: usize,
    pub there: usize,
    pub slots_end: usize,
}

/// How many entries of a page have a current part, and how many have one that is current, killed or kept.
#[derive(Clone, Copy, Debug, PartialEq, Eq)]
pub struct LogPageCounts {
    pub live: usize,
    pub valid: usize,
}

impl Tally {
    pub(crate) fn is_live(self) -> bool
        ensures { result ≡ is_live self }
    {
        self.current > 0
    }

    pub(crate) fn is_valid(self) -> bool
        ensures { result ≡ is_valid self }
    {
        self.there > 0
    }

    /// The tally after one part has gone from one mark to another that is not current.
    pub(crate) fn moved(self, was: Mark, mark: Mark) -> Tally
        requires there { is_there was ≡ true }
        requires ended { is_current mark ≡ false }
        requires current { bit (is_current was) ≤ self.current }
        requires counted { 1 ≤ self.there }
        ensures { result ≡ moved self was mark }
    {
        Tally {
            current: self.current - usize::from(was.is_current()),
            there: if mark.is_there() {
                self.there
            } else {
                self.there - 1
            },
            slots_end: self.slots_end,
        }
    }
}

impl LogPageCounts {
    /// The counts with one more entry.
    pub(crate) fn with_entry(self, tally: Tally) -> LogPageCounts
        requires live { self.live + 1 < 2 ^ 64 }
        requires valid { self.valid + 1 < 2 ^ 64 }
        ensures { result ≡ with_entry self tally }
    {
        LogPageCounts {
            live: more(self.live, tally.is_live()),
            valid: more(self.valid, tally.is_valid()),
        }
    }

    /// The counts after an entry of the page has gone from one tally to another that has no more parts.
    pub(crate) fn recounted(self, was: Tally, now: Tally) -> LogPageCounts
        requires live { bit (is_live was) ≤ self.live }
        requires valid { bit (is_valid was) ≤ self.valid }
        requires no_more_live { is_live now ≡ true → is_live was ≡ true }
        requires no_more_valid { is_valid now ≡ true → is_valid was ≡ true }
        ensures { result ≡ recounted self was now }
    {
        LogPageCounts {
            live: less(self.live, was.is_live(), now.is_live()),
            valid: less(self.valid, was.is_valid(), now.is_valid()),
        }
    }
}

/// A count with one more thing that may count.
fn more(count: usize, counts: bool) -> usize
    requires { count + 1 < 2 ^ 64 }
    ensures { result ≡ count + bit counts }
{
    if counts { count + 1 } else { count }
}

/// A count after one of the counted things may have left.
fn less(count: usize, was: bool, now: bool) -> usize
    requires counted { bit was ≤ count }
    requires no_more { now ≡ true → was ≡ true }
    ensures { result ≡ count - bit was + bit now }
{
    if was && !now { count - 1 } else { count }
}
