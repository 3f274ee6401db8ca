//! A walk over the names of a directory, in no order that is told.

ghost use Rattle.std.specs.Prelude.{◌≡◌, [], length, map};
ghost use Rattle.std.specs.Iterator.{at_most};
ghost use Rattle.std.specs.Map.Iter.{TakesFirst};
ghost use Rattle.nv_nindex.specs.NameIndex.{lent, shown};

use crate::Binding;
use indexmap::map::Iter;
use std::iter::FusedIterator;
use std::marker::Model;

/// The names that a walk has not given yet, each as its bytes and what it is bound to.
/// The names are given one by one, in storage order.
#[derive(Drop)]
pub struct Bindings<'a> {
    // None where there never was a name.
    rest: Option<Iter<'a, Vec<u8>, Binding>>,
}

impl<'a> Model for Bindings<'a> {
    ghost use Rattle.std.specs.Prelude.{ℕ, List, [], map};
    ghost use Rattle.std.specs.Option.{unwrap_or};
    ghost use Rattle.nv_nindex.specs.declared.binding.Binding.{Binding};
    ghost use Rattle.nv_nindex.specs.NameIndex.{shown};

    ghost Value = { List (List ℕ × Binding) };

    ghost view = { λ b. map shown (unwrap_or b.rest []) };
}

impl<'a> Bindings<'a> {
    pub(crate) fn new(rest: Iter<'a, Vec<u8>, Binding>) -> Bindings<'a>
        ensures { result ≡ map shown rest.entry }
    {
        Bindings { rest: Some(rest) }
    }

    pub(crate) fn none() -> Bindings<'a>
        ensures { result ≡ [] }
    {
        Bindings { rest: None }
    }
}

impl<'a> Iterator for Bindings<'a> {
    type Item = (&'a [u8], Binding);

    ghost next_gives = { TakesFirst lent };

    ghost remaining = { λ left. at_most (length left) };

    fn next(&mut self) -> Option<(&'a [u8], Binding)> {
        let rest = self.rest.as_mut()?;
        let (name, binding) = rest.next()?;
        Some((name.as_slice(), *binding))
    }
}

impl<'a> FusedIterator for Bindings<'a> {}
