//! The index of a file's pages.

ghost use Rattle.std.specs.Prelude.{◌≡◌, ℕ, ◌+◌, ◌*◌, ◌<◌, ◌≤◌, [], IsSome, IfSome, IsOk, OnOk, OnErr, IfErr, max};
ghost use Rattle.nv_base.specs.Memory.{out_of_memory};
ghost use Rattle.nv_findex.specs.Pages.{ref_at, run_count_of, present_from, IsRun, IsRunFrom, AreWithin, SetsRun, CutsFrom, IsNextFrom};

use crate::run_rows::RunRows;
use crate::{PageRef, PageRun, empty_places, put, runs};
use nv_base::limits::FILE_PAGES;
use nv_base::{EntryId, Fault};
use std::alloc::Global;
use std::marker::Model;

/// Where each present page of a file lies: a map from page number to [`PageRef`]. Pages and places are below
/// [`FILE_PAGES`].
///
/// Pages that follow one another in the file and in one entry are kept as one run, so that an index takes
/// memory by its runs and not by the file's length. The runs stand in a list. A run that goes leaves its place there
/// empty. Empty places are room, and go where a write finds that they are more than half of all or that their room is
/// needed. A look-up costs the same at any number of runs where they lie about evenly, and the logarithm of the places
/// at most.
/// Only tested: an index is `Send` and `Sync`.
#[derive(Debug, Drop)]
pub struct FileIndex {
    runs: RunRows,
    /// How many of the places are empty.
    empty: usize,
}

impl Model for FileIndex {
    ghost use Rattle.std.specs.Prelude.{◌-◌, ◌≤◌, length};
    ghost use Rattle.nv_findex.specs.Pages.{PageMap};
    ghost use Rattle.nv_findex.specs.Runs.{ArePlaces, IsEmptyCount, present};

    ghost Value = { PageMap };

    ghost view = { λ i. record {
      pages = present i.runs.items;
      room = i.runs.capacity - length (present i.runs.items);
    } };

    // Its page runs lie one behind the other, and no two neighbours are one run.
    // Each page run has a file page; its pages and places are below 65,536.
    // There is room for its page runs.
    // The empty places between its page runs are counted.
    ghost invariant = { λ i. ArePlaces i.runs.items
        × (length (present i.runs.items) ≤ i.runs.capacity)
        × IsEmptyCount i.empty i.runs.items };
}

impl FileIndex {
    /// An index without pages. It takes no memory yet.
    #[tactic(auto, unfolding(crate::specs::Runs::AreRunsFrom))]
    pub fn new(alloc: Global) -> Self
        // A new index has no pages and no room yet.
        ensures { result ≡ record { pages = []; room = 0 } }
    {
        FileIndex {
            runs: RunRows::new(alloc),
            empty: 0,
        }
    }

    /// Where a page lies, or `None` if it isn't present. No page from 65,536 on is. Costs one look-up.
    /// Only tested: a look-up looks near its guess and otherwise halves.
    #[tactic(auto, using(crate::proofs::Refs::refs_within))]
    pub fn at(&self, page: u32) -> Option<PageRef>
        // An index is a map from page to entry and place: a look-up gives just what was set last.
        // A look-up is right at both ends of a page run.
        ensures found { result ≡ ref_at self.now.pages page }
        // Pages and places of an index are below `FILE_PAGES`.
        ensures within { IfSome result (λ at. (page < FILE_PAGES) × (at.place < FILE_PAGES)) }
        ensures value { AreWithin (ref_at self.now.pages) }
    {
        runs::find(&self.runs, page)
    }

    /// All of the run that has a page, or else the first run behind the page. Costs one look-up: a walk over
    /// pages that goes on from each run's end costs one a run.
    #[tactic(auto, using(crate::proofs::Refs::refs_within))]
    pub fn run_from(&self, page: u32) -> Option<PageRun>
        // The page run of a page, or the next one, is told.
        // A page run is told whole: it ends there on either side.
        ensures run { IsRunFrom page (ref_at self.now.pages) result }
        // Pages and places of page runs are below `FILE_PAGES`.
        ensures within { IfSome result (λ run. IsRun run) }
        ensures value { AreWithin (ref_at self.now.pages) }
    {
        runs::run_from(&self.runs, page)
    }

    /// All of the run that has a page, or else the first run behind the page, which is looked for at a place among
    /// the runs first. A right place spares the look-up. It becomes the place behind the run, so that a walk over
    /// pages that goes on from each run's end costs one look-up, and the logarithm of how many empty places lie behind
    /// each run.
    #[tactic(auto, using(crate::proofs::Refs::refs_within))]
    #[inline(always)]
    pub fn run_near(&self, page: u32, place: &mut usize) -> Option<PageRun>
        ensures run { IsRunFrom page (ref_at self.now.pages) result }
        ensures within { IfSome result (λ run. IsRun run) }
        ensures value { AreWithin (ref_at self.now.pages) }
    {
        runs::run_near(&self.runs, page, place)
    }

    /// The least present page that isn't below `page`, and where it lies. Costs one look-up.
    #[tactic(auto, using(crate::proofs::Refs::refs_within))]
    pub fn next_from(&self, page: u32) -> Option<(u32, PageRef)>
        // The least present page from a page on, and where it lies, is told.
        ensures next { IsNextFrom page (ref_at self.now.pages) result }
        ensures within { IfSome result (λ found. (found.0 < FILE_PAGES) × (found.1.place < FILE_PAGES)) }
        ensures value { AreWithin (ref_at self.now.pages) }
    {
        runs::find_next(&self.runs, page)
    }

    /// How many pages are present from `page` on: those that a cut there takes out. Costs one look-up and a
    /// step for each run and each empty place from there on.
    #[tactic(auto, using(crate::proofs::Counts::how_many_le))]
    pub fn present_from(&self, page: u32) -> u32
        // How many pages are present from a page on is told.
        ensures count { result ≡ present_from page self.now.pages }
        ensures within { result ≤ FILE_PAGES }
    {
        runs::count_from(&self.runs, page)
    }

    /// How many runs the pages make: of two neighbours that lie one after the other in one entry, both are of
    /// one run. Costs two reads.
    #[tactic(auto, using(crate::proofs::Counts::run_count_is))]
    pub fn run_count(&self) -> usize
        // Neighbours in one entry are one page run.
        // The number of page runs is that of the pages.
        ensures { result ≡ run_count_of self.now.pages }
    {
        self.runs.len() - self.empty
    }

    /// For how many more runs there is room, empty places among it. Costs three reads.
    pub fn room(&self) -> usize
        ensures { result ≡ self.now.room }
    {
        self.runs.capacity() - self.run_count()
    }

    /// Makes room for as many calls of `set_run`, two more runs for each. Costs two reads where there is as much room
    /// behind the last place. Where there is only with the empty places, and these are an eighth of all at least, it
    /// takes them out, by a step for each place. Otherwise it takes memory, for as many runs as there are, if that is
    /// more, so that many calls cost linear time. That costs a move of all places, empty ones too.
    ///
    /// Fails with `OutOfMemory` alone, and only where that room was missing and its growth was refused, as any of
    /// 2^63 bytes or more is; then nothing has changed. A growth that is refused though there is that room with the
    /// empty places is no error: nothing has changed then either, and `set_run` takes the empty places out itself.
    #[tactic(auto, using(crate::proofs::Counts::run_count_is))]
    #[inline(always)]
    pub fn reserve_for(&mut self, runs: usize) -> Result<(), Fault>
        // Room for a number of writes is made before them.
        ensures pages { self.new.pages ≡ self.old.pages }
        ensures ok { OnOk result (2 * runs ≤ self.new.room) }
        ensures kept { self.old.room ≤ self.new.room }
        // Room is made for no more page runs than that, or than there are.
        ensures most { OnOk result (self.new.room
            ≤ max self.old.room (max (2 * runs) (run_count_of self.old.pages))) }
        // An error changes nothing and comes only where room was missing.
        ensures err { OnErr result (self.new.room ≡ self.old.room) }
        ensures missing { OnErr result (self.old.room < 2 * runs) }
        // The only error is `OutOfMemory`.
        ensures fault { IfErr result (λ fault. fault ≡ out_of_memory) }
    {
        if runs <= (self.runs.capacity() - self.runs.len()) / 2 {
            return Ok(());
        }
        let is_room = runs <= self.room() / 2;
        if is_room && self.runs.len() / 8 <= self.empty {
            empty_places::squeeze(&mut self.runs, &mut self.empty);
            return Ok(());
        }
        match self.grow(runs) {
            Err(_) if is_room => Ok(()),
            grown => grown,
        }
    }

    /// Makes room as `reserve_for` does, by a growth.
    fn grow(&mut self, runs: usize) -> Result<(), Fault>
        ensures pages { self.new.pages ≡ self.old.pages }
        ensures ok { OnOk result (2 * runs ≤ self.new.room) }
        ensures kept { self.old.room ≤ self.new.room }
        ensures most { OnOk result (self.new.room
            ≤ max self.old.room (max (2 * runs) (run_count_of self.old.pages))) }
        ensures err { OnErr result (self.new.room ≡ self.old.room) }
        ensures fault { IfErr result (λ fault. fault ≡ out_of_memory) }
    {
        let wanted = runs.saturating_mul(2).max(self.run_count());
        self.runs.reserve_exact(wanted.saturating_sub(self.empty))?;
        Ok(())
    }

    /// Sets the pages `first` to `first + len - 1` to places 0 to `len - 1` of an entry, whether or not they
    /// were present. It takes no memory, and as much room as the index has more runs after it.
    ///
    /// An overwrite of just one run, with no empty place behind it, costs one look-up and moves nothing. Any other
    /// write costs two look-ups, of which the second begins where the first one ended, and a step for each run and each
    /// empty place between them. Runs that go leave their places empty, and move nothing. The runs that there are more
    /// than before take the next two places where these are empty. Each other one costs a move of 256 runs at most and
    /// a step for each 128 places behind. A write with no present page behind it costs a move of 128 runs at most instead.
    ///
    /// Where more than half of all places are empty then, the empty ones are taken out, by a step for each place: fewer
    /// than two for each empty one. So are they first where fewer than two more places have room, as may happen behind
    /// a refused growth.
    /// Each full row has a start, for which there is room.
    /// Only tested: an overwrite of one page run, with no empty place behind it, moves nothing.
    /// Only tested: a write with a present page behind it moves page runs of two rows at most for each page run more,
    /// unless it takes the empty places out ([gate.md](gate.md)).
    #[tactic(auto, using(crate::proofs::Counts::run_count_is))]
    pub fn set_run(&mut self, first: u32, len: u32, entry: EntryId)
        requires some { 0 < len }
        requires within { first + len ≤ FILE_PAGES }
        // A write raises the number of page runs by at most two, and takes as much room.
        requires room { 2 ≤ self.old.room }
        // A write sets each of its pages.
        // The pages of a write have the places of its entry from 0 on.
        // The pages of a write no longer lie where they lay.
        // All pages that a write does not set lie where they lay.
        // The pages behind a write lie where they lay.
        // A page run goes on from row to row, and none is lost.
        // The pages of bordering page runs lie where they lay.
        ensures pages { SetsRun first len entry (ref_at self.old.pages) (ref_at self.new.pages) }
        ensures runs { run_count_of self.new.pages ≤ run_count_of self.old.pages + 2 }
        ensures room { self.new.room + run_count_of self.new.pages
            ≡ self.old.room + run_count_of self.old.pages }
    {
        self.set_run_near(first, len, entry, usize::MAX);
    }

    /// Sets pages as [`FileIndex::set_run`] does, of which the first is looked for at a place among the runs first, as
    /// one that [`FileIndex::run_near`] told. A right place spares the first look-up.
    #[tactic(auto, using(crate::proofs::Counts::run_count_is))]
    pub fn set_run_near(&mut self, first: u32, len: u32, entry: EntryId, place: usize)
        requires some { 0 < len }
        requires within { first + len ≤ FILE_PAGES }
        requires room { 2 ≤ self.old.room }
        ensures pages { SetsRun first len entry (ref_at self.old.pages) (ref_at self.new.pages) }
        ensures runs { run_count_of self.new.pages ≤ run_count_of self.old.pages + 2 }
        ensures room { self.new.room + run_count_of self.new.pages
            ≡ self.old.room + run_count_of self.old.pages }
    {
        let run = PageRun {
            first,
            end: first + len,
            start: PageRef { entry, place: 0 },
        };
        put::put(&mut self.runs, &mut self.empty, run, place);
    }

    /// Makes every page from `page` on absent. It takes no memory, and gives back the room of the runs that
    /// go. Costs one look-up, a move of 128 runs at most, and a step for each place that goes if any place is empty.
    #[tactic(auto, using(crate::proofs::Counts::run_count_is))]
    pub fn cut_from(&mut self, page: u32)
        // A cut makes the pages from one on absent.
        // A cut leaves all pages before it.
        ensures pages { CutsFrom page (ref_at self.old.pages) (ref_at self.new.pages) }
        // A cut never raises the number of page runs.
        ensures runs { run_count_of self.new.pages ≤ run_count_of self.old.pages }
        ensures room { self.new.room + run_count_of self.new.pages
            ≡ self.old.room + run_count_of self.old.pages }
    {
        runs::cut(&mut self.runs, &mut self.empty, page);
    }
}
