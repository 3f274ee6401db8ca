//! What stands beside the world of each node.

ghost use Rattle.std.specs.Prelude.{◌≡◌, ◌≤◌, ◌==◌, IfOk};
ghost use Rattle.nv_mount_beside.specs.Beside.{beside_at, changed, named, new_beside, none_beside, opened, released, renamed, with_beside};

use nv_base::Handle;
use nv_mount_answers::{Kept, Time};
use std::alloc::{AllocError, Global};
use std::marker::Model;

/// After how many changes of an inode its log is cleaned.
const CHANGES: u64 = 512;

/// What stands beside the world of one node.
#[derive(Clone, Copy, Debug, PartialEq, Eq, Drop)]
pub struct Beside {
    /// The generation of its slot.
    pub generation: u64,
    /// How often it is open.
    pub opens: u64,
    /// It has no name, and stands among the hidden files.
    pub nameless: bool,
    /// How often it was changed since its log was cleaned.
    pub changes: u64,
    /// Its times and owners.
    pub kept: Kept,
}

impl Beside {
    /// What stands beside a node that is new at a time, and a user's.
    pub fn new(generation: u64, now: Time, user: u32, group: u32) -> Beside
        // Nobody has opened a new node. It has a name, the times of its making, and who made it as its owner.
        ensures { result ≡ new_beside generation now user group }
    {
        Beside {
            generation,
            opens: 0,
            nameless: false,
            changes: 0,
            kept: Kept {
                accessed: now,
                modified: now,
                changed: now,
                user,
                group,
            },
        }
    }

    /// The same once the node has changed.
    pub fn changed(self, now: Time) -> Beside
        // A change sets two times, and is counted.
        ensures { result ≡ changed now self }
    {
        Beside {
            changes: if self.changes < CHANGES {
                self.changes + 1
            } else {
                0
            },
            kept: Kept {
                modified: now,
                changed: now,
                ..self.kept
            },
            ..self
        }
    }

    /// Whether so many changes are enough for its log to be cleaned.
    pub fn is_due(self) -> bool
        // It is due at the 512th change.
        ensures { result ≡ (self.changes == 512) }
    {
        self.changes == CHANGES
    }

    /// The same, open once more.
    pub fn opened(self) -> Beside
        // Opens are counted.
        ensures { result ≡ opened self }
    {
        Beside {
            opens: if self.opens == u64::MAX {
                self.opens
            } else {
                self.opens + 1
            },
            ..self
        }
    }

    /// The same, open once less.
    pub fn released(self) -> Beside
        // A release takes one open away.
        ensures { result ≡ released self }
    {
        Beside {
            opens: self.opens.saturating_sub(1),
            ..self
        }
    }

    /// The same without a name, or with one again.
    pub fn named(self, is_named: bool) -> Beside
        // Only the name changes.
        ensures { result ≡ named is_named self }
    {
        Beside {
            nameless: !is_named,
            ..self
        }
    }

    /// The same once its name has moved or gone.
    pub fn renamed(self, now: Time) -> Beside
        // Only the time of its attributes changes.
        ensures { result ≡ renamed now self }
    {
        let mut kept = self.kept;
        kept.changed = now;
        self.with_kept(kept)
    }

    /// The same with other times and owners.
    pub fn with_kept(self, kept: Kept) -> Beside
        // Only times and owners change.
        ensures { result ≡ record self { kept = kept } }
    {
        Beside { kept, ..self }
    }
}

/// What stands beside the world, of each node.
#[derive(Debug, Drop)]
pub struct Nodes {
    // When the mount began: the times of a node of which nothing else is told.
    begun: Time,
    // By slot.
    rows: Vec<Beside>,
}

impl Model for Nodes {
    ghost use Rattle.nv_mount_beside.specs.Beside.{AllBeside};

    ghost Value = { AllBeside };

    ghost view = { λ n. record { begun = n.begun; rows = n.rows.items } };
}

impl Nodes {
    /// Nothing is told yet of so many slots.
    pub fn new(alloc: Global, slots: u64, begun: Time) -> Result<Nodes, AllocError>
        // No world has more slots.
        requires { slots ≤ 65536 }
        // At first nothing is told of any slot.
        ensures { IfOk result (λ nodes. nodes ≡ none_beside slots begun) }
    {
        let slots = slots as usize;
        Ok(Nodes {
            begun,
            rows: vec![in alloc; Beside::new(0, begun, 0, 0); slots]?,
        })
    }

    /// What stands beside a node.
    pub fn at(&self, handle: &Handle) -> Beside
        // What was set for a node stands beside it, and nothing of another generation.
        ensures { result ≡ beside_at self.now handle.now }
    {
        let slot = handle.ino.number();
        let generation = handle.generation.number();
        if slot < self.rows.len() as u64 && self.rows[slot as usize].generation == generation {
            return self.rows[slot as usize];
        }
        Beside::new(generation, self.begun, 0, 0)
    }

    /// From now on this stands beside a node.
    pub fn set(&mut self, handle: &Handle, beside: Beside)
        // What is set stands at the node's slot, and nothing else changes.
        ensures { self.new ≡ with_beside handle.now beside self.old }
    {
        let slot = handle.ino.number();
        if slot < self.rows.len() as u64 {
            self.rows[slot as usize] = beside;
        }
    }
}
