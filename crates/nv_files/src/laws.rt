//! Laws of files. Each is the contract of a function that does nothing.

ghost use Rattle.std.specs.Prelude.{◌≡◌};
ghost use Rattle.nv_core.specs.Worlds.{WorldState};
ghost use Rattle.nv_effects.specs.Sound.{IsSoundWorld};
ghost use Rattle.nv_files.specs.Stands.{Stands, plain_shown};
ghost use Rattle.nv_serial.specs.Serial.{Serial};

/// Files show one plain world, whichever world with numbers they stand as, and that world is sound.
pub fn files_show_their_plain_world()
    // The plain world that files show is that of each world with numbers as which they stand.
    ensures shown { (w : WorldState) (s : Serial) → Stands w s → plain_shown w ≡ s.plain }
    // Each world with numbers as which they stand is sound.
    ensures sound { (w : WorldState) (s : Serial) → Stands w s → IsSoundWorld s }
{}
