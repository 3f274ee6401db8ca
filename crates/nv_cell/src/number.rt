//! The parts of a log by number.

ghost use Rattle.std.specs.Prelude.{◌≡◌, ℕ, ◌+◌, ◌-◌, ◌<◌, ◌≤◌, ◌^◌, IfSome, Some, None, if◌then◌else◌};
ghost use Rattle.std.specs.Option.{option_map};
ghost use Rattle.nv_entry.specs.Covered.{part_total};
ghost use Rattle.nv_entry.specs.Keys.{in_run};
ghost use Rattle.nv_log.specs.Chain.{log};
ghost use Rattle.nv_cell.specs.Named.{number_named, place_of_part};
ghost use Rattle.nv_cell.specs.Numbers.{StandsIn, part_base};
ghost use Rattle.nv_cell.specs.Tallies.{start_at};

use crate::Marks;
use nv_base::limits::FILE_PAGES;
use nv_entry::{BlockRun, Item, Part, PartId};
use nv_log::Chain;

/// A part by its number among all parts of a log, and where its entry is to be looked for first: at the place in the
/// log where it was found.
#[derive(Clone, Copy, Debug, PartialEq, Eq)]
pub struct NumberedPart {
    pub number: usize,
    pub entry: usize,
}

/// The place of a page among the parts of a Write.
fn place_in_run(first: u32, run: &BlockRun, page: u32) -> Option<u32>
    ensures { result ≡ (if in_run first run.now page then Some (page - first + 1) else None) }
{
    if page >= first && page - first < run.len && page < FILE_PAGES {
        return Some(page - first + 1);
    }
    None
}

/// The place of a part among those of an entry with the item.
fn place_of(item: &Item, part: Part) -> Option<u32>
    ensures { result ≡ place_of_part item.now part }
{
    match item {
        Item::Init { .. } => match part {
            Part::Kind => Some(0),
            Part::Mode => Some(1),
            Part::Size => Some(2),
            Part::Bound | Part::Page(_) => None,
        },
        Item::Write { first, run, .. } => match part {
            Part::Size => Some(0),
            Part::Page(page) => place_in_run(*first, run, page),
            Part::Kind | Part::Mode | Part::Bound => None,
        },
        Item::SetSize { .. } => match part {
            Part::Size => Some(0),
            Part::Kind | Part::Mode | Part::Bound | Part::Page(_) => None,
        },
        Item::SetMode { .. } => match part {
            Part::Mode => Some(0),
            Part::Kind | Part::Size | Part::Bound | Part::Page(_) => None,
        },
        Item::Bind { .. } => match part {
            Part::Bound => Some(0),
            Part::Kind | Part::Mode | Part::Size | Part::Page(_) => None,
        },
        Item::Unbind { .. } | Item::Gone => None,
    }
}

/// A part of a published entry by its name, if the log has it. The time is that of the search for the entry.
#[inline(always)]
pub fn find_part(chain: &Chain, marks: &Marks, id: PartId) -> Option<NumberedPart>
    requires ends { (i : ℕ) → i < chain.now.state.tail
        → start_at marks.now.ends.items i ≡ part_base chain.now.state.entries i }
    requires small { part_total (log chain.now.state) < 2 ^ 64 }
    ensures number { option_map (λ p. p.number) result ≡ number_named (log chain.now.state) id }
    ensures entry { IfSome result (λ p. p.entry < chain.now.state.tail) }
    ensures stands { IfSome result (StandsIn chain.now.state.entries) }
{
    let Some(i) = chain.place_of(id.entry) else {
        return None;
    };
    if i >= chain.tail() {
        return None;
    }
    match place_of(&chain.entry_at(i).item, id.part) {
        None => None,
        Some(place) => Some(NumberedPart {
            number: marks.first(i) + place as usize,
            entry: i,
        }),
    }
}
