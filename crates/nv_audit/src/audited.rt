//! What an audit that finds nothing gives.

use crate::InHands;
use nv_alloc::FreeList;
use nv_base::Geometry;
use nv_book::Book;
use nv_cell::InodeCell;
use std::marker::Model;

/// A device that an audit has judged and found to agree. Contracts see the device. Only [`crate::audit`] makes one, and
/// it can't be copied. Its device is borrowed while it lives, so that nothing changes meanwhile.
/// A device that was audited agrees, by its type.
/// Only an audit makes one: no other crate reaches its fields, and it can't be copied.
#[derive(Drop)]
pub struct Audited<'a> {
    pub(crate) geometry: &'a Geometry,
    pub(crate) cells: &'a [InodeCell],
    pub(crate) lists: &'a [FreeList],
    pub(crate) book: &'a Book,
    pub(crate) hands: InHands,
}

impl<'a> Model for Audited<'a> {
    ghost use Rattle.nv_audit.specs.Whole.{Agrees, Device, device_with};

    ghost Value = { Device };

    ghost view = { λ a. device_with a.geometry.now.numbers a.cells.now a.lists.now
        a.book.now.state a.hands };

    // Its counts, records and free lists are those of one scan of its logs, of its snapshots and of the hands.
    ghost invariant = { λ a. Agrees (device_with a.geometry.now.numbers a.cells.now a.lists.now
        a.book.now.state a.hands) };
}
