//! Lists of tables.

ghost use Rattle.std.specs.Prelude.{◌≡◌};
ghost use Rattle.tables.specs.Tables.{repeats};

/// Whether a table is named twice.
pub fn repeats(oids: &[u32]) -> bool
    ensures { result ≡ repeats oids.now }
{
    for (i, oid) in oids.iter().enumerate() {
        if oids[i + 1..].contains(oid) {
            return true;
        }
    }
    false
}
