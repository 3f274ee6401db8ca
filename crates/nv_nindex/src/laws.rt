//! A law of lists of names, the contract of an empty function.

ghost use Rattle.std.specs.Prelude.{◌≡◌, ℕ, List, length};
ghost use Rattle.nv_nindex.specs.NameIndex.{AreDistinct, AreInOrder, AreRising, HaveSameBindings};
ghost use Rattle.nv_nindex.specs.declared.binding.Binding.{Binding};

/// A law: where the names from scratch, in the rising order of the entries that bound them, are looked up as
/// in an index, the list of that index is the names from scratch, and there are as many.
pub fn names_in_order_are_told_by_look_ups()
    // The list of an index that is looked up as the names from scratch is those names.
    ensures listed { (listed scratch : List (List ℕ × Binding)) → HaveSameBindings listed scratch
        → AreDistinct listed → AreInOrder listed → AreDistinct scratch → AreRising scratch
        → listed ≡ scratch }
    // An index that is looked up as the names from scratch has just as many.
    ensures counted { (names scratch : List (List ℕ × Binding)) → HaveSameBindings names scratch
        → AreDistinct names → AreDistinct scratch → length names ≡ length scratch }
{}
