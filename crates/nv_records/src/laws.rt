//! Laws of records. Each is the contract of a function that does nothing.

ghost use Rattle.std.specs.Prelude.{◌≡◌, ◌++◌, ◌∷◌, [], List, ℕ, Err, Ok};
ghost use Rattle.nv_records.specs.declared.record.Record.{Record};
ghost use Rattle.nv_records.specs.declared.record.TheConstants.{IMAGE_TAG};
ghost use Rattle.nv_records.specs.declared.fault.Wanted.TheVariants.{Tag};
ghost use Rattle.nv_records.specs.Reading.{record_at};
ghost use Rattle.nv_records.specs.Records.{Fits, bytes_of};

/// Records read back.
pub fn records_read_back()
    // What is written is read again, whatever stands behind it.
    ensures back { (kept : Record) (rest : List ℕ) → Fits kept
        → record_at (bytes_of kept ++ rest) ≡ Ok (kept, rest) }
    // No two records have one text, and none is the front of another's.
    ensures one { (kept other : Record) (x y : List ℕ) → Fits kept → Fits other
        → bytes_of kept ++ x ≡ bytes_of other ++ y → (kept ≡ other) × (x ≡ y) }
    // No record has the tag of images.
    ensures image { (rest : List ℕ)
        → record_at (IMAGE_TAG ∷ rest) ≡ Err (record { wanted = Tag; place = 0 }) }
{}
