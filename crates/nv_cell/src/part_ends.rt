//! Where the parts of a log's entries end.

use std::marker::Model;

/// The last entries of a log, which have as many parts each.
#[derive(Clone, Copy, Debug, PartialEq, Eq)]
pub struct EvenRun {
    /// The place of the first of these entries, and of the next one where there is none yet.
    pub from: usize,
    /// Where its parts begin.
    pub start: usize,
    /// How many parts each has.
    pub parts: usize,
}

/// Where the parts of each entry end among those of all entries, as a list of numbers. The last entries mostly have as
/// many parts each, as where a file is written page by page: where their parts begin is told by their place, and the
/// list is not looked at.
#[derive(Debug, Drop)]
pub struct PartEnds {
    pub(crate) ends: Vec<usize>,
    pub(crate) even: EvenRun,
}

impl Model for PartEnds {
    ghost use Rattle.std.specs.Prelude.{ℕ};
    ghost use Rattle.std.specs.Global.{Vec};
    ghost use Rattle.nv_cell.specs.PartEnds.{IsEvenRun};

    ghost Value = { Vec ℕ };

    ghost view = { λ p. p.ends };

    // From one place on, up to the place behind the last entry, parts begin at equal distances, below 2^64.
    ghost invariant = { λ p. IsEvenRun p.even p.ends.items };
}
