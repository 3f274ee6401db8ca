//! The kinds of an inode, one after another.

ghost use Rattle.std.specs.Prelude.{◌≡◌, IfOk, OnOk};
ghost use Rattle.nv_audit.specs.Histories.{AddsEntry, AreHistories, IsHistoryBy, kind_after, kind_at};

use crate::logged::Logged;
use nv_base::{Epoch, Kind};
use nv_entry::{Entry, Item};
use std::alloc::{AllocError, Global};

/// From an epoch on an inode has a kind, or none.
#[derive(Clone, Copy, Debug)]
pub(crate) struct KindChange {
    epoch: Epoch,
    kind: Option<Kind>,
}

/// How the kind of an inode changes, in the order of its log, and whether the log binds a name.
#[derive(Debug, Drop)]
pub(crate) struct History {
    kinds: Vec<KindChange>,
    binds: bool,
}

/// Those of logs. Costs a pass over each.
pub(crate) fn histories_of(alloc: Global, logs: &[Logged<'_>]) -> Result<Vec<History>, AllocError>
    ensures { IfOk result (λ histories. AreHistories logs.now histories.items) }
{
    let mut histories = Vec::new(alloc);
    for logged in logs {
        histories.push(History::of(alloc, logged.log())?)?;
    }
    Ok(histories)
}

impl History {
    fn of(alloc: Global, log: &[Entry]) -> Result<History, AllocError>
        ensures { IfOk result (IsHistoryBy log.now) }
    {
        let mut history = History {
            kinds: Vec::new(alloc),
            binds: false,
        };
        for entry in log {
            history.add(entry)?;
        }
        Ok(history)
    }

    /// One more entry of the log.
    fn add(&mut self, entry: &Entry) -> Result<(), AllocError>
        ensures { OnOk result (AddsEntry entry.now self.old self.new) }
    {
        match &entry.item {
            Item::Init { kind, .. } => {
                self.kinds.push(KindChange {
                    epoch: entry.epoch,
                    kind: Some(*kind),
                })?;
            }
            Item::Gone => {
                self.kinds.push(KindChange {
                    epoch: entry.epoch,
                    kind: None,
                })?;
            }
            Item::Bind { .. } => self.binds = true,
            Item::Write { .. }
            | Item::SetSize { .. }
            | Item::SetMode { .. }
            | Item::Unbind { .. } => {}
        }
        Ok(())
    }

    /// The kind at an epoch. Costs a step for each change: a log that is of its shape has at most two.
    pub(crate) fn kind_at(&self, epoch: Epoch) -> Option<Kind>
        ensures { result ≡ kind_at epoch self.now.kinds.items }
    {
        let mut kind = None;
        for change in &self.kinds {
            kind = kind_after(change, epoch, kind);
        }
        kind
    }

    /// Whether the log binds a name.
    pub(crate) fn binds(&self) -> bool
        ensures { result ≡ self.now.binds }
    {
        self.binds
    }
}

/// The kind at an epoch by one more change.
fn kind_after(change: &KindChange, epoch: Epoch, before: Option<Kind>) -> Option<Kind>
    ensures { result ≡ kind_after epoch change.now before }
{
    if change.epoch <= epoch {
        return change.kind;
    }
    before
}
