//! Laws about the form of a journal's file. Nothing runs.
ghost use Rattle.std.specs.Prelude.{◌≡◌, ℕ, List};
ghost use Rattle.std.specs.List.{AllByRecursion};
ghost use Rattle.journal.specs.Form.{Fits, Recovers};
ghost use Rattle.journal.specs.Scan.{HasHeader, IsCutShort};

/// A file recovers to one list of payloads.
pub fn recovers_once(k: u64)
    ensures { (payloads others : List (List ℕ)) (bytes : List ℕ) → Recovers k payloads bytes
        → Recovers k others bytes → payloads ≡ others }
{
    let _ = k;
}

/// A file that recovers is of the form of a journal: it has a header, and no record is cut short.
pub fn recovers_soundly(k: u64)
    ensures header { (payloads : List (List ℕ)) (bytes : List ℕ) → Recovers k payloads bytes
        → HasHeader k bytes }
    ensures records { (payloads others : List (List ℕ)) (bytes : List ℕ) (offset : ℕ)
        → Recovers k payloads bytes → AllByRecursion Fits others
        → IsCutShort k others bytes offset → ⊥ }
{
    let _ = k;
}
