//! Where a caller in C holds a world, in memory of its own.

ghost use Rattle.std.specs.Prelude.{◌≡◌, Option, None, Some, is_some, true};
ghost use Rattle.nv_c.specs.Worlds.{IsTaken};
ghost use Rattle.nv_c.specs.declared.held.Held.{Held};

use crate::held::Held;
use crate::loose::Loose;
use std::alloc::Global;
use std::marker::Model;
use std::{mem, ptr};

/// What C sees of a world: a byte that it must not touch.
#[repr(C)]
pub struct Hidden {
    hidden: u8,
}

/// A pointer that owns the world to which it leads, or nothing.
#[repr(C)]
#[derive(Drop)]
pub struct Slot {
    pointer: *mut Hidden,
    pub ghost held: { Option Held },
}

impl Model for Slot {
    ghost use Rattle.nv_c.specs.Owned.{owned};

    ghost also_owns = { λ s. owned s.pointer s.held };
}

impl Slot {
    /// No world.
    fn nothing() -> Slot
        ensures { result.held ≡ None }
    {
        Slot {
            pointer: ptr::null_mut(),
        }
    }

    /// Hides a world.
    fn hide(held: Loose<Held, Global>) -> Slot
        ensures { result.held ≡ Some held.value }
    {
        let Loose { at, alloc: _ } = held;
        Slot {
            pointer: at as *mut Hidden,
        }
    }

    /// The world that was hidden.
    fn reveal(self, alloc: Global) -> Loose<Held, Global>
        requires { is_some self.held ≡ true }
        ensures { self.held ≡ Some result.value }
    {
        let Slot { pointer } = self;
        Loose {
            at: pointer as *mut Held,
            alloc,
        }
    }
}

/// A place for a world: it has one, or none.
#[repr(C)]
#[derive(Drop)]
pub struct Nova {
    pub world: Slot,
    pub made: bool,
    // It has one exactly where it says so.
    ghost says: { made ≡ is_some world.held },
}

impl Nova {
    fn none() -> Nova
        ensures { result.world.held ≡ None }
    {
        Nova {
            world: Slot::nothing(),
            made: false,
        }
    }

    /// Takes the world, if there is one. Then there is none.
    pub(crate) fn take(&mut self, alloc: Global) -> Option<Box<Held>>
        ensures taken { IsTaken self.old.world.held result }
        ensures none { self.new.world.held ≡ None }
    {
        let Nova { world, made } = mem::replace(self, Nova::none());
        if made {
            return Some(world.reveal(alloc).into_box());
        }
        None
    }

    /// Puts a world there.
    pub(crate) fn fill(&mut self, held: Box<Held>)
        ensures { self.new.world.held ≡ Some held.value }
    {
        *self = Nova {
            world: Slot::hide(Loose::of(held)),
            made: true,
        };
    }
}
