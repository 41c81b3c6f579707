//! A logical message, one kind byte and the fields of its kind: the enum over them, its reader and its writer.

ghost use Rattle.std.specs.Prelude.{◌≡◌, ◌≢◌, ◌⊎◌, ℕ, List, [], ◌++◌, Ok, Err, IfOk, IfErr, OnOk, OnErr, true};
ghost use Rattle.pqformat.specs.Fields.{byte_at};
ghost use Rattle.pqformat.specs.Putting.{Puts};
ghost use Rattle.pgoutput.specs.Reading.{Gives, Answers, short};
ghost use Rattle.pgoutput.specs.Layout.{StopsIn, fields_of, spell_fields};
ghost use Rattle.pgoutput.specs.Logical.{SpellsLogical, FitsLogical, IsShort, Stands, spell_logical, form_of, kind_byte, logical_at, fields_at, needs_memory, whole_of};

use crate::fault::PgoutputError;
use crate::messages::begin::{BEGIN, Begin, begin_of, put_begin};
use crate::messages::commit::{COMMIT, Commit, commit_of, put_commit};
use crate::messages::delete::{DELETE, Delete, delete_of, put_delete};
use crate::messages::insert::{INSERT, Insert, insert_of, put_insert};
use crate::messages::message::{MESSAGE, Message, message_of, put_message};
use crate::messages::relation::{RELATION, Relation, put_relation, relation_of};
use crate::messages::truncate::{TRUNCATE, Truncate, put_truncate, truncate_of};
use crate::messages::update::{UPDATE, Update, put_update, update_of};
use bytes::BytesMut;
use pqformat::{Cursor, put_byte, whole_or_nothing};
use std::alloc::{AllocError, Global};

/// A logical replication message (PostgreSQL 15, 55.9), protocol version 1.
///
/// `write_logical` spells it, and `read_logical` reads a whole text that spells one.
#[derive(Debug, Drop, PartialEq)]
pub enum Logical {
    Begin(Begin),
    Commit(Commit),
    Relation(Relation),
    Insert(Insert),
    Update(Update),
    Delete(Delete),
    Truncate(Truncate),
    Message(Message),
}

/// The message that the bytes spell, all of them.
///
/// The leftmost fault is answered: `Short` (O1) where the bytes end inside a field, `UnknownKind` (O2) where no message has the
/// first byte, `BadMark` (O3) at a letter, flag, count or length that is none of its field, `BadText` (O4) at a text that isn't
/// UTF-8, `Trailing` (O5) at bytes after the message; or `Memory` (O6), where memory for what comes before it is refused.
pub fn read_logical(alloc: Global, bytes: &[u8]) -> Result<Logical, PgoutputError>
    // What is read is spelled so.
    ensures found { IfOk result (λ m. SpellsLogical bytes.now m) }
    // What is spelled is read, unless memory runs out.
    ensures only { (m : Logical) → SpellsLogical bytes.now m → Answers result (Ok m) }
    // A fault stands in the bytes.
    ensures fault { IfErr result (λ e. Stands e bytes.now) }
    // And where a fault stands it is answered, unless memory runs out before it.
    ensures refused { (e : PgoutputError) → e ≢ PgoutputError.Memory → Stands e bytes.now →
        (result ≡ Err e) ⊎ (result ≡ Err PgoutputError.Memory) }
    // A proper beginning of a message is O1, so every other fault stands where no bytes after it make a message.
    ensures cut { (text more : List ℕ) (m : Logical) → SpellsLogical text m →
        text ≡ bytes.now ++ more → more ≢ [] →
        (result ≡ Err PgoutputError.Short) ⊎ (result ≡ Err PgoutputError.Memory) }
    // Behind whole fields of a message its next one isn't there whole, or another letter, flag, count or length stands there, or a
    // text that isn't UTF-8.
    ensures short { result ≡ Err PgoutputError.Short → StopsIn PgoutputError.Short bytes.now }
    ensures bad { result ≡ Err PgoutputError.BadMark → StopsIn PgoutputError.BadMark bytes.now }
    ensures text { result ≡ Err PgoutputError.BadText → StopsIn PgoutputError.BadText bytes.now }
    // And where that is so it is answered, unless memory runs out before it.
    ensures stopped { (e : PgoutputError) → StopsIn e bytes.now →
        (result ≡ Err e) ⊎ (result ≡ Err PgoutputError.Memory) }
    // Which fault it is, in the order in which the fields are judged.
    ensures exact { Answers result (whole_of bytes.now) }
{
    whole(alloc, bytes)
}

fn whole(alloc: Global, bytes: &[u8]) -> Result<Logical, PgoutputError>
    ensures exact { Answers result (whole_of bytes.now) }
    ensures memory { result ≡ Err PgoutputError.Memory → Stands PgoutputError.Memory bytes.now }
{
    let mut cursor = Cursor::new(bytes);
    let message = logical_of(alloc, &mut cursor)?;
    if cursor.rest().is_empty() {
        return Ok(message);
    }
    // Let go by one call, which keeps the proof short.
    drop(message);
    Err(PgoutputError::Trailing)
}

#[tactic(auto, unfolding(crate::specs::Logical::logical_at))]
fn logical_of(alloc: Global, cursor: &mut Cursor<'_>) -> Result<Logical, PgoutputError>
    ensures exact { Gives result cursor.new (logical_at cursor.old) }
    ensures memory { result ≡ Err PgoutputError.Memory → Stands PgoutputError.Memory cursor.old }
{
    let kind = next_kind(cursor)?;
    fields_of(alloc, kind, cursor)
}

fn next_kind(cursor: &mut Cursor<'_>) -> Result<u8, PgoutputError>
    ensures exact { Gives result cursor.new (short (byte_at cursor.old)) }
    ensures steady { result ≢ Err PgoutputError.Memory }
{
    cursor.u8().ok_or(PgoutputError::Short)
}

/// The fields after a kind byte.
fn fields_of(alloc: Global, kind: u8, cursor: &mut Cursor<'_>) -> Result<Logical, PgoutputError>
    ensures exact { Gives result cursor.new (fields_at kind cursor.old) }
    ensures memory { result ≡ Err PgoutputError.Memory → needs_memory kind ≡ true }
{
    match kind {
        BEGIN => Ok(Logical::Begin(begin_of(cursor)?)),
        COMMIT => Ok(Logical::Commit(commit_of(cursor)?)),
        RELATION => Ok(Logical::Relation(relation_of(alloc, cursor)?)),
        INSERT => Ok(Logical::Insert(insert_of(alloc, cursor)?)),
        UPDATE => Ok(Logical::Update(update_of(alloc, cursor)?)),
        DELETE => Ok(Logical::Delete(delete_of(alloc, cursor)?)),
        TRUNCATE => Ok(Logical::Truncate(truncate_of(alloc, cursor)?)),
        MESSAGE => Ok(Logical::Message(message_of(alloc, cursor)?)),
        _ => Err(PgoutputError::UnknownKind),
    }
}

/// Adds the message at the end of `out`. `AllocError` where memory is refused; nothing is added then.
pub fn write_logical(message: &Logical, out: &mut BytesMut) -> Result<(), AllocError>
    requires { IsShort message.now }
    ensures ok { OnOk result (out.new.items ≡ out.old.items ++ spell_logical message.now) }
    ensures err { OnErr result (out.new.items ≡ out.old.items) }
{
    let start = out.len();
    whole_or_nothing(put_logical(out, message), start, out)
}

#[tactic(auto, using(pqformat::proofs::Putting::in_place))]
fn put_logical(out: &mut BytesMut, message: &Logical) -> Result<(), AllocError>
    requires { IsShort message.now }
    ensures { Puts result out.old.items out.new.items (spell_logical message.now) }
{
    put_byte(out, kind_of(message))?;
    put_fields(out, message)
}

/// Adds the fields after the kind byte.
fn put_fields(out: &mut BytesMut, message: &Logical) -> Result<(), AllocError>
    requires { IsShort message.now }
    ensures { Puts result out.old.items out.new.items ((form_of message.now).fields) }
{
    match message {
        Logical::Begin(message) => put_begin(out, message),
        Logical::Commit(message) => put_commit(out, message),
        Logical::Relation(message) => put_relation(out, message),
        Logical::Insert(message) => put_insert(out, message),
        Logical::Update(message) => put_update(out, message),
        Logical::Delete(message) => put_delete(out, message),
        Logical::Truncate(message) => put_truncate(out, message),
        Logical::Message(message) => put_message(out, message),
    }
}

fn kind_of(message: &Logical) -> u8
    ensures { result ≡ kind_byte message.now }
{
    match message {
        Logical::Begin(_) => BEGIN,
        Logical::Commit(_) => COMMIT,
        Logical::Relation(_) => RELATION,
        Logical::Insert(_) => INSERT,
        Logical::Update(_) => UPDATE,
        Logical::Delete(_) => DELETE,
        Logical::Truncate(_) => TRUNCATE,
        Logical::Message(_) => MESSAGE,
    }
}

/// The law of the spellings: of two messages whose spellings begin the same bytes, one is the other. So a message has one
/// spelling, no text spells two messages, and no spelling is a proper beginning of another.
pub fn no_message_has_two_spellings()
    ensures { (m n : Logical) (x y : List ℕ) → FitsLogical m → FitsLogical n →
        spell_logical m ++ x ≡ spell_logical n ++ y → (m ≡ n) × (x ≡ y) }
{}

/// The law of the layouts, by which `Short` (O1), `BadMark` (O3) and `BadText` (O4) are told: the fields of a message, one after the other, are its spelling.
pub fn a_message_is_its_fields()
    ensures { (m : Logical) → spell_fields (fields_of m) ≡ spell_logical m }
{}

/// The law of what is at fault: where `BadMark` (O3) or `BadText` (O4) stands, no message begins with the bytes, whatever follows them.
pub fn no_message_goes_on()
    ensures { (bytes more : List ℕ) (e : PgoutputError) (m : Logical) → e ≢ PgoutputError.Short →
        StopsIn e bytes → FitsLogical m → spell_logical m ≡ bytes ++ more → ⊥ }
{}
