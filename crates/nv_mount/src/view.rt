//! What a plan reads of a device that has stopped.

use nv_base::{CommitNo, Epoch, Gen, Geometry};
use nv_journal::Journal;
use nv_log::Chain;
use std::marker::Model;

/// A slot as a plan reads it: the generation of its inode, and the chain of its log.
#[derive(Drop)]
pub struct SlotView<'a> {
    pub generation: Gen,
    pub chain: &'a Chain,
}

impl<'a> Model for SlotView<'a> {
    ghost use Rattle.nv_mount.specs.View.{SlotViewValue};

    ghost Value = { SlotViewValue };

    ghost view = { λ s. record { generation = s.generation; chain = s.chain.now } };
}

/// What a plan reads: all that stands of a device that has stopped, except for its data blocks.
#[derive(Drop)]
pub struct View<'a> {
    pub geometry: &'a Geometry,
    /// By inode number.
    pub slots: &'a [SlotView<'a>],
    /// By CPU.
    pub journals: &'a [Journal],
    /// The numbers of the living snapshots.
    pub snapshots: &'a [Epoch],
    pub epoch: Epoch,
    /// The number of the last commit.
    pub commit: CommitNo,
}

impl<'a> Model for View<'a> {
    ghost use Rattle.nv_mount.specs.View.{ViewValue};

    ghost Value = { ViewValue };

    ghost view = { λ v. record {
      numbers = v.geometry.now.numbers;
      slots = v.slots.now;
      journals = v.journals.now;
      snapshots = v.snapshots.now;
      epoch = v.epoch;
      commit = v.commit;
    } };
}
