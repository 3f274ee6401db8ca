//! A run of pages.

ghost use Rattle.std.specs.Prelude.{◌≡◌, ◌-◌, ◌<◌, ◌≤◌};
ghost use Rattle.nv_findex.specs.Pages.{IsRun, run_ref};
ghost use Rattle.nv_findex.specs.Runs.{emptied, goes_on, has_page, rest_from};

use crate::PageRef;

/// Pages that lie one after another in one entry: those from `first` on and before `end`.
#[derive(Clone, Copy, Debug, PartialEq, Eq)]
pub struct PageRun {
    pub first: u32,
    pub end: u32,
    /// Where the page `first` lies.
    pub start: PageRef,
}

impl PageRun {
    /// Where a page of the run lies.
    pub fn page_ref(&self, page: u32) -> PageRef
        requires run { IsRun self.now }
        requires first { self.now.first ≤ page }
        requires end { page < self.now.end }
        ensures { result ≡ run_ref self.now page }
    {
        PageRef {
            entry: self.start.entry,
            place: self.start.place + (page - self.first),
        }
    }

    /// Whether it has a page. A place whose run has none is empty.
    pub(crate) fn has_page(&self) -> bool
        ensures { result ≡ has_page self.now }
    {
        self.first < self.end
    }

    /// An empty place behind the run.
    pub(crate) fn emptied(&self) -> PageRun
        ensures { result ≡ emptied self.now }
    {
        PageRun {
            first: self.end,
            ..*self
        }
    }

    /// Whether the run and `next` are one run.
    pub(crate) fn goes_on(&self, next: &PageRun) -> bool
        requires { IsRun self.now }
        ensures { result ≡ goes_on self.now next.now }
    {
        self.end == next.first
            && self.start.entry == next.start.entry
            && self.start.place + (self.end - self.first) == next.start.place
    }

    /// The run's pages that aren't below `page`.
    pub(crate) fn rest_from(&self, page: u32) -> PageRun
        requires run { IsRun self.now }
        requires end { page < self.now.end }
        ensures { result ≡ rest_from page self.now }
    {
        let first = self.first.max(page);
        PageRun {
            first,
            end: self.end,
            start: self.page_ref(first),
        }
    }
}
