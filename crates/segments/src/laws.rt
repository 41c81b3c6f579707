//! What is found after a crash.

ghost use Rattle.std.specs.Prelude.{◌≡◌, ◌⊎◌, ◌++◌, ℕ, List};
ghost use Rattle.std.specs.List.{AllByRecursion};
ghost use mathlib.Core.List.{IsPrefix};
ghost use Rattle.segments.specs.Entries.{Fits, Written, entries, header};
ghost use Rattle.segments.specs.Contents.{Finds};
ghost use Rattle.segments.specs.Crashes.{Begins, IsForged};

/// Whatever a crash leaves of a segment whose first entries outlive it: they are found again, each whole and in its place.
pub fn synced_entries_are_found()
    ensures { (key : ℕ) (es found : List Written) (content : List ℕ) →
        AllByRecursion (Fits key) es → Begins (header key ++ entries key es) content →
        Finds key found content → IsPrefix es found }
{}

/// What is found, whatever a crash has left, begins what was appended, unless bytes that nobody has written there carry a digest that
/// fits them.
pub fn found_entries_were_appended()
    ensures { (es found : List Written) → IsPrefix found es ⊎ IsForged es found }
{}
