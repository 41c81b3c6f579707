//! The texts by which a store finds its places: those of rows' keys, and one for each table.

ghost use Rattle.std.specs.Prelude.{◌≡◌, ◌+◌, ◌++◌, ◌∷◌, [], ◌<◌, ◌≤◌, MatchOption, length, take};
ghost use Rattle.pqformat.specs.Fields.{int32};
ghost use Rattle.store.specs.History.{is_within, table_place};
ghost use Rattle.store.specs.Rows.{key_text, key_values};
ghost use Rattle.store.specs.Slots.{same_key};
ghost use Rattle.tables.specs.Kinds.{spell_value};
ghost use Rattle.tables.specs.Spelling.{row_length};

use pqformat::{write_byte, write_int32};
use std::marker::Model;
use tables::{Column, MAX_ROW_LENGTH, Row, Value, write_value};

/// The longest text of a key, in bytes: the values of the longest row, after its table's OID.
pub const MAX_KEY_LENGTH: usize = 8002;

/// Stands after the OID in the place of a whole table. No value begins with it.
const TABLE_TAG: u8 = 255;

/// The text of a place, made without memory. Contracts see the text.
#[derive(Drop)]
pub struct PlaceKey {
    bytes: [u8; MAX_KEY_LENGTH],
    len: usize,
}

impl Model for PlaceKey {
    ghost use Rattle.std.specs.Prelude.{List, ℕ, ◌≤◌, take};
    ghost use Rattle.store.specs.declared.places.key.TheConstants.{MAX_KEY_LENGTH};

    ghost Value = { List ℕ };

    ghost view = { λ p. take p.len p.bytes };

    ghost invariant = { λ p. p.len ≤ MAX_KEY_LENGTH };
}

impl PlaceKey {
    fn new() -> Self
        ensures { result ≡ [] }
    {
        PlaceKey {
            bytes: [0; MAX_KEY_LENGTH],
            len: 0,
        }
    }

    pub fn as_bytes(&self) -> &[u8]
        ensures { result.now ≡ self.now }
    {
        &self.bytes[..self.len]
    }

    fn push(&mut self, byte: u8)
        requires { length self.old < MAX_KEY_LENGTH }
        ensures { self.new ≡ self.old ++ byte ∷ [] }
    {
        self.len = write_byte(&mut self.bytes, self.len, byte);
    }

    #[tactic(auto, using(tables::proofs::Values::lengths))]
    fn push_int32(&mut self, number: u32)
        requires { length self.old + 4 ≤ MAX_KEY_LENGTH }
        ensures { self.new ≡ self.old ++ int32 number }
    {
        self.len = write_int32(&mut self.bytes, self.len, number);
    }

    fn push_value(&mut self, value: &Value)
        requires { length self.old + length (spell_value value.now) ≤ MAX_KEY_LENGTH }
        ensures { self.new ≡ self.old ++ spell_value value.now }
    {
        self.len = write_value(value, &mut self.bytes, self.len);
    }

    /// The place of a whole table, which a truncate holds.
    #[tactic(auto, using(tables::proofs::Values::lengths))]
    pub fn of_table(oid: u32) -> Self
        ensures { result ≡ table_place oid }
    {
        let mut place = PlaceKey::new();
        place.push_int32(oid);
        place.push(TABLE_TAG);
        place
    }

    /// The place of a key, or None where it is longer than that of any row.
    #[tactic(auto, using(crate::proofs::Keys::key_length))]
    pub fn of_key(oid: u32, key: &Row) -> Option<Self>
        ensures { MatchOption result
            (MAX_KEY_LENGTH < length (key_text (record { oid = oid; values = key.now })))
            (λ place. place ≡ key_text (record { oid = oid; values = key.now })) }
    {
        match key.coded_len() {
            Some(_) => Some(PlaceKey::of_short_key(oid, key)),
            None => None,
        }
    }

    #[tactic(auto, using(tables::proofs::Values::lengths, crate::proofs::Keys::fits_next))]
    fn of_short_key(oid: u32, key: &Row) -> Self
        requires { row_length key.now ≤ MAX_ROW_LENGTH }
        ensures { result ≡ key_text (record { oid = oid; values = key.now }) }
    {
        let mut place = PlaceKey::new();
        place.push_int32(oid);
        for value in key.values() {
            place.push_value(value);
        }
        place
    }

    /// The place of a row's key.
    #[tactic(auto, using(tables::proofs::Values::lengths))]
    pub fn of_row(oid: u32, columns: &[Column], row: &Row) -> Self
        requires short { row_length row.now ≤ MAX_ROW_LENGTH }
        requires whole { length columns.now ≡ length row.now }
        ensures { result
            ≡ key_text (record { oid = oid; values = key_values columns.now row.now }) }
    {
        let values = row.values();
        let mut place = PlaceKey::new();
        place.push_int32(oid);
        for (i, column) in columns.iter().enumerate() {
            if !column.is_key {
                continue;
            }
            place.push_value(&values[i]);
        }
        place
    }
}

/// Whether a place is one of these tables.
pub(crate) fn is_within(oids: &[u32], place: &[u8]) -> bool
    ensures { result ≡ is_within oids.now place.now }
{
    oids.iter().any(|oid| is_of(*oid, place))
}

#[tactic(auto, unfolding(pqformat::specs::Fields::int32))]
fn is_of(oid: u32, place: &[u8]) -> bool
    ensures { result ≡ same_key (take 4 place.now) (int32 oid) }
{
    let front = &place[..place.len().min(4)];
    front == oid.to_be_bytes().as_slice()
}
