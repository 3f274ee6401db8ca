//! The names of a directory.

ghost use Rattle.std.specs.Prelude.{◌≡◌, ◌↔◌, ◌⊎◌, ◌^◌, ◌<◌, [], map, length, slice_get, is_some};
ghost use Rattle.std.specs.Prelude.{IsTrue, IsSome, OnOk, OnErr, IfOk, IfErr};
ghost use Rattle.std.specs.Map.Iter.{ShowsInOrder};
ghost use Rattle.std.specs.Option.{option_copied, option_map, unwrap_or};
ghost use Rattle.nv_nindex.specs.NameIndex.{AreDistinct, AreLawful, IsListOf, Rebinds, binding_of, lent};
ghost use Rattle.nv_base.specs.Memory.{out_of_memory};

use crate::bound_names::BoundNames;
use crate::{Binding, Bindings};
use nv_base::{Fault, Name};
use std::alloc::Global;
use std::marker::Model;

/// Distinct lawful names, each with its binding. Beside them one more name may stand reserved: there is room
/// for it, and it is not bound. Contracts see the names by look-up; [`NameIndex::list`] puts them in order.
///
/// A call for one name costs the name's length and a look-up in a map of hashes, which on average doesn't grow
/// with the names; `reserve_one` costs a move of all names besides where the map grows.
/// An index takes two words, and no other memory until a name is reserved in it for the first time.
/// Only tested: an index is `Send` and `Sync`.
#[derive(Debug, Drop)]
pub struct NameIndex {
    alloc: Global,
    // On the heap, and only once a name was reserved: most slots of inodes are no directory.
    names: Option<Box<BoundNames>>,
}

impl Model for NameIndex {
    ghost use Rattle.std.specs.Prelude.{[], None};
    ghost use Rattle.std.specs.Option.{option_map, unwrap_or};
    ghost use Rattle.nv_nindex.specs.NameIndex.{Names};

    ghost Value = { Names };

    ghost view = { λ n. unwrap_or (option_map (λ bound. bound.value) n.names) (record {
      names = [];
      reserved = None;
    }) };
}

impl NameIndex {
    /// An index without names. What it grows later comes from this allocator; it takes no memory yet.
    pub fn new(alloc: Global) -> NameIndex
        // A new index is empty; how many names are bound is told.
        ensures { result ≡ record { names = []; reserved = None } }
    {
        NameIndex { alloc, names: None }
    }

    /// The names, once one was reserved. Before that there are none.
    fn bound(&self) -> Option<&BoundNames>
        ensures { unwrap_or (option_copied result) (record { names = []; reserved = None }) ≡ self.now }
    {
        match &self.names {
            Some(bound) => Some(bound),
            None => None,
        }
    }

    /// How many names are bound. Costs one read.
    pub fn len(&self) -> usize
        ensures value { result ≡ length self.now.names }
        ensures small { result < 2 ^ 63 }
        ensures distinct { AreDistinct self.now.names }
    {
        match self.bound() {
            Some(bound) => bound.len(),
            None => 0,
        }
    }

    /// Whether no name is bound. Costs one read.
    pub fn is_empty(&self) -> bool
        ensures { IsTrue result ↔ (self.now.names ≡ []) }
    {
        self.len() == 0
    }

    /// What this name is bound to, and by which entry. Costs one look-up.
    /// Only tested: a look-up takes no scan ([gate.md](gate.md)).
    pub fn get(&self, name: &[u8]) -> Option<Binding>
        // A name leads to its handle and the id of the entry that bound it.
        ensures { result ≡ binding_of name.now self.now.names }
    {
        self.bound()?.get(name)
    }

    /// Whether this name is bound. Costs one look-up.
    pub fn is_bound(&self, name: &[u8]) -> bool
        // Whether a name is bound is told.
        ensures { result ≡ is_some (binding_of name.now self.now.names) }
    {
        self.get(name).is_some()
    }

    /// Whether this name stands reserved. A reserved name is not bound. Costs one comparison.
    pub fn is_reserved(&self, name: &[u8]) -> bool
        // The reserved name is not bound yet and shows nowhere.
        ensures value { IsTrue result ↔ (self.now.reserved ≡ Some name.now) }
        ensures unseen { IsTrue result → binding_of name.now self.now.names ≡ None }
    {
        match self.bound() {
            Some(bound) => bound.is_reserved(name),
            None => false,
        }
    }

    /// The names in the order of the entries that bound them, each as its bytes and its binding.
    ///
    /// Costs memory for `n` names and `n` times the logarithm of `n` comparisons. `OutOfMemory` where room for
    /// the list was refused.
    pub fn list(&self) -> Result<Vec<(&[u8], Binding)>, Fault>
        // Names stand once each, in the order of the entries that bound them.
        ensures names { IfOk result (λ list. IsListOf self.now.names (map lent list.items)) }
        // Listed names are lawful, and the only error is `OutOfMemory`.
        ensures lawful { IfOk result (λ list. AreLawful (map lent list.items)) }
        ensures err { IfErr result (λ fault. fault ≡ out_of_memory) }
    {
        let mut list: Vec<(&[u8], Binding)> = self.iter().collect(self.alloc)?;
        list.sort_unstable_by_key(|(_, binding)| binding.entry);
        Ok(list)
    }

    /// The name at this place, counted from 0, and its binding. Which name stands where is not told, and after a
    /// change of the names it may be another. Costs one read.
    pub fn at(&self, place: usize) -> Option<(&[u8], Binding)>
        // Each name is given with its binding.
        ensures { option_map lent result ≡ slice_get self.now.names place }
    {
        self.bound()?.at(place)
    }

    /// The names, each as its bytes and its binding, in the order of their places. Costs one read a name.
    pub fn iter(&self) -> Bindings<'_>
        ensures names { result ≡ self.now.names }
        ensures runs { ShowsInOrder lent }
        ensures distinct { AreDistinct self.now.names }
        ensures lawful { AreLawful self.now.names }
    {
        match self.bound() {
            Some(bound) => bound.iter(),
            None => Bindings::none(),
        }
    }

    /// Makes room for one more name, which then stands reserved and is not bound. It takes the place of the
    /// name that stood reserved before. For a bound name nothing changes.
    ///
    /// Costs one look-up and a copy of the name, and a move of all names where the map grows, by steps that
    /// double. The first call takes memory for the map itself besides. `OutOfMemory` where the room was refused:
    /// nothing has changed.
    pub fn reserve_one(&mut self, name: &Name) -> Result<(), Fault>
        // One name that is not bound is reserved, and no binding changes.
        ensures names { self.new.names ≡ self.old.names }
        ensures reserved { binding_of name.now self.old.names ≡ None
            → OnOk result (self.new.reserved ≡ Some name.now) }
        // Reserving a bound name changes nothing, nor does a refused growth.
        ensures bound { IsSome (binding_of name.now self.old.names)
            → (result ≡ Ok tt) × (self.new ≡ self.old) }
        ensures fault { IfErr result (λ fault. fault ≡ out_of_memory) }
        ensures refused { OnErr result (self.new ≡ self.old) }
    {
        if let Some(bound) = &mut self.names {
            return bound.reserve_one(name);
        }
        let mut bound = BoundNames::new(self.alloc);
        bound.reserve_one(name)?;
        self.names = Some(Box::new(self.alloc, bound)?);
        Ok(())
    }

    /// Binds a name that is reserved or bound, and takes no memory. The reserved name, once it is bound, is
    /// no longer reserved; another stays. Costs one look-up.
    pub fn bind(&mut self, name: &[u8], to: Binding)
        // Callers bind only a name that is bound or reserved.
        requires { IsSome (binding_of name.now self.old.names)
            ⊎ (self.old.reserved ≡ Some name.now) }
        // Binding sets the handle and the entry of this name.
        // Binding leaves every other name, and takes no memory.
        ensures names { Rebinds self.old.names self.new.names name.now (Some to) }
        // Binding the reserved name takes the reservation; binding a bound name keeps it.
        ensures kept { IsSome (binding_of name.now self.old.names)
            → self.new.reserved ≡ self.old.reserved }
        ensures taken { self.old.reserved ≡ Some name.now → self.new.reserved ≡ None }
    {
        match &mut self.names {
            Some(bound) => bound.bind(name, to),
            None => unreachable!(),
        }
    }

    /// Takes a name out. An absent name changes nothing, and the reserved name stays. Costs two look-ups: the
    /// last name moves to the place of the one taken out.
    /// Only tested: the cost of unbinding does not grow with the names ([gate.md](gate.md)).
    pub fn unbind(&mut self, name: &[u8])
        // Unbinding takes this name out and no other.
        ensures names { Rebinds self.old.names self.new.names name.now None }
        ensures kept { self.new.reserved ≡ self.old.reserved }
    {
        if let Some(bound) = &mut self.names {
            bound.unbind(name);
        }
    }

    /// Takes all names out. The reserved name stays, and so does the room. Costs a step for each name.
    pub fn clear(&mut self)
        // Clearing takes all names out, and the reserved name stays.
        ensures { self.new ≡ record self.old { names = [] } }
    {
        if let Some(bound) = &mut self.names {
            bound.clear();
        }
    }
}
