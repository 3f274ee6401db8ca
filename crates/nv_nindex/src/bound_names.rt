//! The names of a directory in which a name was reserved, as they lie on the heap.

ghost use Rattle.std.specs.Prelude.{◌≡◌, ◌↔◌, ◌⊎◌, ◌^◌, ◌<◌, [], length, slice_get};
ghost use Rattle.std.specs.Prelude.{IsTrue, IsSome, OnOk, OnErr, IfErr};
ghost use Rattle.std.specs.Option.{option_map};
ghost use Rattle.nv_nindex.specs.NameIndex.{AreDistinct, AreLawful, Rebinds, binding_of, lent};
ghost use Rattle.nv_base.specs.Memory.{out_of_memory};

use crate::{Binding, Bindings};
use indexmap::IndexMap;
use nv_base::{Fault, Name};
use std::alloc::Global;
use std::marker::Model;

/// Distinct lawful names, each with its binding, and room for the name that stands reserved beside them. Its
/// functions promise and cost what those of the same name of [`crate::NameIndex`] do.
#[derive(Debug, Drop)]
pub(crate) struct BoundNames {
    alloc: Global,
    bindings: IndexMap<Vec<u8>, Binding>,
    reserved: Option<Vec<u8>>,
}

impl Model for BoundNames {
    ghost use Rattle.std.specs.Prelude.{map};
    ghost use Rattle.std.specs.Option.{option_map};
    ghost use Rattle.indexmap.specs.IndexMap.{spare};
    ghost use Rattle.nv_nindex.specs.NameIndex.{IsNameIndex, Names, shown};

    ghost Value = { Names };

    ghost view = { λ n. record {
      names = map shown n.bindings.entries;
      reserved = option_map (λ key. key.items) n.reserved;
    } };

    // Its names are distinct and lawful.
    // The reserved name is lawful and not bound, and there is room for it.
    ghost invariant = { λ n. IsNameIndex (record {
      names = map shown n.bindings.entries;
      reserved = option_map (λ key. key.items) n.reserved;
    }) (spare n.bindings) };
}

impl BoundNames {
    pub(crate) fn new(alloc: Global) -> BoundNames
        ensures { result ≡ record { names = []; reserved = None } }
    {
        BoundNames {
            alloc,
            bindings: IndexMap::new(alloc),
            reserved: None,
        }
    }

    pub(crate) fn len(&self) -> usize
        ensures value { result ≡ length self.now.names }
        ensures small { result < 2 ^ 63 }
        ensures distinct { AreDistinct self.now.names }
    {
        self.bindings.len()
    }

    pub(crate) fn get(&self, name: &[u8]) -> Option<Binding>
        ensures { result ≡ binding_of name.now self.now.names }
    {
        self.bindings.get(name).copied()
    }

    pub(crate) fn is_reserved(&self, name: &[u8]) -> bool
        ensures value { IsTrue result ↔ (self.now.reserved ≡ Some name.now) }
        ensures unseen { IsTrue result → binding_of name.now self.now.names ≡ None }
    {
        match &self.reserved {
            Some(key) => name == key.as_slice(),
            None => false,
        }
    }

    pub(crate) fn at(&self, place: usize) -> Option<(&[u8], Binding)>
        ensures { option_map lent result ≡ slice_get self.now.names place }
    {
        let (name, binding) = self.bindings.get_index(place)?;
        Some((name.as_slice(), *binding))
    }

    pub(crate) fn iter(&self) -> Bindings<'_>
        ensures names { result ≡ self.now.names }
        ensures distinct { AreDistinct self.now.names }
        ensures lawful { AreLawful self.now.names }
    {
        Bindings::new(self.bindings.iter())
    }

    pub(crate) fn reserve_one(&mut self, name: &Name) -> Result<(), Fault>
        ensures names { self.new.names ≡ self.old.names }
        ensures reserved { binding_of name.now self.old.names ≡ None
            → OnOk result (self.new.reserved ≡ Some name.now) }
        ensures bound { IsSome (binding_of name.now self.old.names)
            → (result ≡ Ok tt) × (self.new ≡ self.old) }
        ensures fault { IfErr result (λ fault. fault ≡ out_of_memory) }
        ensures refused { OnErr result (self.new ≡ self.old) }
    {
        let bytes = name.bytes();
        if self.get(bytes).is_some() {
            return Ok(());
        }
        let key = Vec::from_slice(self.alloc, bytes)?;
        self.bindings.reserve(1)?;
        self.reserved = Some(key);
        Ok(())
    }

    pub(crate) fn bind(&mut self, name: &[u8], to: Binding)
        requires { IsSome (binding_of name.now self.old.names)
            ⊎ (self.old.reserved ≡ Some name.now) }
        ensures names { Rebinds self.old.names self.new.names name.now (Some to) }
        ensures kept { IsSome (binding_of name.now self.old.names)
            → self.new.reserved ≡ self.old.reserved }
        ensures taken { self.old.reserved ≡ Some name.now → self.new.reserved ≡ None }
    {
        // A reserved name is not bound: it is told by one comparison, and then it is not looked for.
        if self.is_reserved(name) {
            let key = self.reserved.take().unwrap();
            let _none = self.bindings.insert(key, to).unwrap();
            return;
        }
        let Some(binding) = self.bindings.get_mut(name) else {
            unreachable!()
        };
        *binding = to;
    }

    pub(crate) fn unbind(&mut self, name: &[u8])
        ensures names { Rebinds self.old.names self.new.names name.now None }
        ensures kept { self.new.reserved ≡ self.old.reserved }
    {
        self.bindings.swap_remove(name);
    }

    pub(crate) fn clear(&mut self)
        ensures { self.new ≡ record self.old { names = [] } }
    {
        self.bindings.clear();
    }
}
