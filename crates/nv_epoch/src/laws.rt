//! Laws of the living snapshots: which of them hold what was born and died, and what making and removing
//! snapshots changes of that. Each is a function that does nothing, whose contract is the law.
//!
//! A list `living` has the numbers of the living snapshots, rising. A pair is a birth and a death.

ghost use Rattle.std.specs.Prelude.{◌≡◌, ◌≢◌, ℕ, ◌<◌, ◌≤◌, ◌==◌, ◌↔◌, List, [], ◌∷◌, ◌++◌, All, Contains, Some, None, IsSome, if◌then◌else◌};
ghost use Rattle.std.specs.Option.{option_map, option_or};
ghost use Rattle.nv_epoch.specs.Holders.{IsRising, IsHeld, IsYoungestHolder, IsNextOlder, holders, youngest_holder, next_older, if_born_by, without};
ghost use Rattle.nv_epoch.specs.SnapList.{numbers, pins_at, living_without, with_pins};
ghost use Rattle.nv_epoch.specs.declared.snapshot.Snapshot.{Snapshot};

/// Which snapshots hold a pair is told by the list alone: those with `birth <= s < death`. The youngest is the
/// holder that no holder is above.
pub fn holders_are_told_by_the_list()
    // The youngest holder is the youngest of the holders, and none where there is no holder.
    ensures holders { (living : List ℕ) (birth death s : ℕ) →
        Contains (holders living birth death) s ↔ (Contains living s × IsHeld birth death s) }
    ensures youngest { (living : List ℕ) (birth death s : ℕ) → IsRising living →
        (youngest_holder living birth death ≡ Some s) ↔ IsYoungestHolder living birth death s }
    ensures none { (living : List ℕ) (birth death : ℕ) →
        (youngest_holder living birth death ≡ None) ↔ (holders living birth death ≡ []) }
{}

/// The next older snapshot is the one below that no living snapshot below is above.
pub fn next_older_is_the_youngest_below()
    // The next older snapshot is the youngest below, and none where there is none.
    ensures next { (living : List ℕ) (s t : ℕ) → IsRising living →
        (next_older living s ≡ Some t) ↔ IsNextOlder living s t }
    ensures none { (living : List ℕ) (s : ℕ) →
        (next_older living s ≡ None) ↔ ((t : ℕ) → Contains living t → s ≤ t) }
{}

/// What was born and died in one epoch has no holder.
pub fn one_epoch_has_no_holder()
    // What was born and died in one epoch has no holder.
    ensures holders { (living : List ℕ) (birth death : ℕ) → death ≤ birth → holders living birth death ≡ [] }
    ensures youngest { (living : List ℕ) (birth death : ℕ) → death ≤ birth →
        youngest_holder living birth death ≡ None }
{}

/// Making a snapshot of the current epoch changes no holder of what has died.
pub fn making_keeps_holders()
    // Making a snapshot changes no holder of what has died.
    ensures rising { (living : List ℕ) (epoch : ℕ) → IsRising living → All (λ s. s < epoch) living →
        IsRising (living ++ epoch ∷ []) }
    ensures holders { (living : List ℕ) (epoch birth death : ℕ) → death ≤ epoch →
        holders (living ++ epoch ∷ []) birth death ≡ holders living birth death }
    ensures youngest { (living : List ℕ) (epoch birth death : ℕ) → death ≤ epoch →
        youngest_holder (living ++ epoch ∷ []) birth death ≡ youngest_holder living birth death }
{}

/// Removing the snapshot `s` hands its pairs to the next older living snapshot where they were born by then, and
/// to none where they were not. All other pairs keep their youngest holder.
pub fn removal_moves_holders_down()
    // Removing a snapshot hands its pairs to the next older one, where they were born by then.
    ensures rising { (living : List ℕ) (s : ℕ) → IsRising living → IsRising (without s living) }
    ensures holders { (living : List ℕ) (s birth death : ℕ) →
        holders (without s living) birth death ≡ without s (holders living birth death) }
    // A pair of a removed snapshot has no holder where it was not born by the next older one.
    ensures own { (living : List ℕ) (s birth death : ℕ) → IsRising living →
        youngest_holder living birth death ≡ Some s →
        youngest_holder (without s living) birth death ≡ if_born_by birth (next_older living s) }
    // All other pairs keep their youngest holder, or have none as before.
    ensures others { (living : List ℕ) (s t birth death : ℕ) → t ≢ s →
        youngest_holder living birth death ≡ Some t
        → youngest_holder (without s living) birth death ≡ Some t }
    ensures none { (living : List ℕ) (s birth death : ℕ) →
        youngest_holder living birth death ≡ None
        → youngest_holder (without s living) birth death ≡ None }
{}

/// A snapshot has pins exactly where it lives. Making, removing, pinning and unpinning one snapshot leaves the
/// pins of all others.
pub fn pins_stay_with_their_snapshot()
    // A snapshot has pins exactly where it lives.
    ensures lives { (living : List Snapshot) (s : ℕ) → IsSome (pins_at living s)
        ↔ Contains (numbers living) s }
    ensures made { (living : List Snapshot) (made : Snapshot) (s : ℕ) →
        pins_at (living ++ made ∷ []) s
        ≡ option_or (pins_at living s) (if made.number == s then Some made.pins else None) }
    ensures removed { (living : List Snapshot) (s : ℕ) → pins_at (living_without living s) s ≡ None }
    // The pins of all other snapshots stay.
    ensures kept { (living : List Snapshot) (s other : ℕ) → other ≢ s →
        pins_at (living_without living s) other ≡ pins_at living other }
    ensures changed { (living : List Snapshot) (s : ℕ) (change : ℕ → ℕ) →
        pins_at (with_pins living s change) s ≡ option_map change (pins_at living s) }
    ensures unchanged { (living : List Snapshot) (s : ℕ) (change : ℕ → ℕ) (other : ℕ) → other ≢ s →
        pins_at (with_pins living s change) other ≡ pins_at living other }
{}
