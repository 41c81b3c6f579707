//! The law of streams: each has one reading.

ghost use Rattle.std.specs.Prelude.{◌≡◌, ℕ, List, ◌++◌, []};
ghost use Rattle.pgoutput.specs.declared.messages.relation.Relation.{Relation};
ghost use Rattle.pgoutput.specs.Items.{Item, FitItems, bytes_of_items};

/// A stream has one reading, and so has each beginning of one: items whose spelling begins the spelling of others are
/// a beginning of those.
pub fn a_stream_has_one_reading()
    ensures { (relation : ℕ → Relation) (a b : List Item) (x : List ℕ) → FitItems relation a →
        FitItems relation b → bytes_of_items relation [] a ++ x ≡ bytes_of_items relation [] b →
        (more : List Item) × (b ≡ a ++ more) }
{}
