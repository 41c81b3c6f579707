//! The Relation of a table, written where it is sent from.
#![tactic(auto, using(crate::proofs::Written::sizes))]

ghost use Rattle.std.specs.Prelude.{◌≡◌, ◌+◌, ◌*◌, ◌<◌, ◌≤◌, ◌^◌, [], length, map};
ghost use Rattle.std.specs.List.{AllByRecursion, flat_map};
ghost use Rattle.pqformat.specs.Fields.{string};
ghost use Rattle.pgoutput.specs.Logical.{spell_logical};
ghost use Rattle.pgoutput.specs.Relation.{column, identity_letter, key_flag};
ghost use Rattle.pgoutput.specs.declared.logical.Logical.TheVariants as logical;
ghost use Rattle.publication_config.specs.Published.{is_identity};
ghost use Rattle.row_messages.specs.Relations.{FitsTable, identity_of, listed_items, relation_column, relation_of, table_as_published};
ghost use Rattle.pqformat.specs.Writing.{Writes};
ghost use Rattle.row_messages.specs.Spelling.{HasRoom};

use crate::kinds::{modifier_field, oid_of};
use pgoutput::{IDENTITY_DEFAULT, IDENTITY_FULL, IDENTITY_NOTHING, KEY_FLAG, NO_FLAG, RELATION};
use pqformat::{write_byte, write_bytes, write_int16, write_int32};
use publication_config::{is_in_identity, is_listed};
use tables::{Column, Identity, Table};

/// The longest that the Relation tells of one column, in bytes: its flags, a name of 63 bytes with its end, its type and modifier.
const MAX_COLUMN_LENGTH: usize = 73;

/// Writes the Relation of the table with its listed columns to the front of the room, and answers how long it is.
pub fn put_table(out: &mut [u8], table: &Table, listed: &[bool]) -> usize
    requires room { HasRoom out.old }
    requires fits { FitsTable table.now }
    ensures { Writes 0 result out.old out.new
        (spell_logical (logical.Relation (relation_of (table_as_published listed.now table.now)))) }
{
    let schema = table.schema.as_str();
    let name = table.name.as_str();
    let columns = table.columns.as_slice();
    let count = count_listed(listed, columns);
    let kind = write_byte(out, 0, RELATION);
    let oid = write_int32(out, kind, table.oid);
    let placed = put_name(out, oid, schema);
    let named = put_name(out, placed, name);
    let identity = write_byte(out, named, letter_of(table.identity));
    let counted = write_int16(out, identity, count as u16);
    put_columns(out, counted, table.identity, listed, columns)
}

fn letter_of(identity: Identity) -> u8
    ensures { result ≡ identity_letter (identity_of identity) }
{
    match identity {
        Identity::Default => IDENTITY_DEFAULT,
        Identity::Nothing => IDENTITY_NOTHING,
        Identity::Full => IDENTITY_FULL,
    }
}

fn put_name(out: &mut [u8], at: usize, name: &str) -> usize
    requires { at + (length name.now + 1) ≤ length out.old }
    ensures { Writes at result out.old out.new (string name.now) }
{
    let end = write_bytes(out, at, name.as_bytes());
    write_byte(out, end, 0)
}

/// How many columns are listed.
fn count_listed(listed: &[bool], columns: &[Column]) -> usize
    ensures value { result ≡ length (listed_items listed.now columns.now) }
    ensures few { result ≤ length columns.now }
{
    let mut count = 0;
    for i in 0..columns.len() {
        if is_listed(listed, i) {
            count += 1;
        }
    }
    count
}

fn put_columns(
    out: &mut [u8],
    at: usize,
    identity: Identity,
    listed: &[bool],
    columns: &[Column],
) -> usize
    requires room { at + MAX_COLUMN_LENGTH * length columns.now ≤ length out.old }
    requires names { AllByRecursion (λ c. length c.name ≤ 63) columns.now }
    ensures { Writes at result out.old out.new
        (flat_map column (map (relation_column identity) (listed_items listed.now columns.now))) }
{
    let mut end = at;
    for i in 0..columns.len() {
        if is_listed(listed, i) {
            end = put_column(out, end, identity, &columns[i]);
        }
    }
    end
}

fn put_column(out: &mut [u8], at: usize, identity: Identity, told: &Column) -> usize
    requires room { at + MAX_COLUMN_LENGTH ≤ length out.old }
    requires name { length told.now.name ≤ 63 }
    ensures written { Writes at result out.old out.new
        (column (relation_column identity told.now)) }
    ensures short { result ≤ at + MAX_COLUMN_LENGTH }
{
    let flags = write_byte(out, at, flags_of(identity, told.is_key));
    let name = put_name(out, flags, told.name.as_str());
    let kind = write_int32(out, name, oid_of(told.kind));
    write_int32(out, kind, modifier_field(told.kind))
}

fn flags_of(identity: Identity, is_key: bool) -> u8
    ensures { result ≡ key_flag (is_identity identity is_key) }
{
    if is_in_identity(identity, is_key) {
        KEY_FLAG
    } else {
        NO_FLAG
    }
}
