//! A seat at the service.

use crate::asking::Asking;
use crate::giving_back::Giving;
use crate::names::{Blocks, Commits};
use crate::seen_versions::SeenVersions;
use std::sync::ledger::Share;

/// A seat: its number, the share of its commits, that of the blocks that its hand holds, the versions that it has seen, and
/// which lists its takings have asked.
#[derive(Drop)]
pub(crate) struct Seat<C: Commits, B: Blocks> {
    pub(crate) number: u64,
    pub(crate) commits: Share<C>,
    pub(crate) blocks: Share<B>,
    pub(crate) notes: SeenVersions<C>,
    pub(crate) asking: Asking,
    pub(crate) giving: Giving,
}
