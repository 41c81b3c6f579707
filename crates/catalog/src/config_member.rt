//! The members of a table in a configuration, each by itself.

ghost use Rattle.std.specs.Prelude.{◌≡◌, ◌==◌, not, true, [], IfOk, IfSome, option_map, option_copied};
ghost use Rattle.std.specs.List.{list_all, list_any};
ghost use Rattle.std.specs.Str.{bytes_eq};
ghost use Rattle.toml.specs.Data.{as_table};
ghost use Rattle.toml.specs.View.{view, items_view};
ghost use Rattle.catalog.specs.Config.{another_name, is_more_than, kind_in, name_in, names_behind, names_in, oid_in, unless_empty, identity_in, identity_of};
ghost use Rattle.tables.specs.Tables.{IsName, is_name};

use pqformat::{Items, Text};
use std::alloc::{AllocError, Global};
use tables::{Identity, Kind, MAX_NAME_LENGTH, is_without_zero};
use toml::Value;

/// The greatest OID.
pub const MAX_OID: i64 = 4_294_967_295;

#[tactic(auto, using(pqformat::proofs::Texts::valid_text))]
pub(crate) fn is_name(text: &str) -> bool
    ensures value { result ≡ is_name text.now }
    ensures named { result ≡ true → IsName text.now }
{
    let length = text.as_bytes().len();
    1 <= length
        && length <= MAX_NAME_LENGTH
        && is_without_zero(text.as_bytes())
        && is_without_dot(text)
}

fn is_without_dot(text: &str) -> bool
    ensures { result ≡ list_all (λ b. not (b == 46)) text.now }
{
    text.as_bytes().iter().all(|b| *b != b'.')
}

/// The name that a value of a configuration is: 1 to 63 bytes, as in PostgreSQL (PostgreSQL 15, 4.1.1), no zero byte and no
/// dot. None of any other value.
#[tactic(auto, unfolding(crate::specs::Config::name_in))]
pub fn name_in(value: &Value) -> Option<&str>
    ensures value { option_copied result ≡ name_in (view value.now) }
    ensures named { IfSome result (λ name. IsName name.now) }
{
    match value.as_str() {
        Some(text) if is_name(text) => Some(text),
        _ => None,
    }
}

#[tactic(auto, unfolding(crate::specs::Config::oid_in))]
pub(crate) fn oid_in(value: &Value) -> Option<u32>
    ensures { result ≡ oid_in (view value.now) }
{
    let number = value.as_integer()?;
    if number < 1 || number > MAX_OID {
        return None;
    }
    u32::try_from(number).ok()
}

#[tactic(auto, unfolding(crate::specs::Config::identity_in))]
pub(crate) fn identity_in(member: Option<&Value>) -> Option<Identity>
    ensures { result ≡ identity_in (option_map (λ v. view v.now) member.entry) }
{
    match member {
        None => Some(Identity::Default),
        Some(value) => identity_of(value.as_str()?),
    }
}

fn identity_of(text: &str) -> Option<Identity>
    ensures { result ≡ identity_of text.now }
{
    match text {
        "default" => Some(Identity::Default),
        "nothing" => Some(Identity::Nothing),
        "full" => Some(Identity::Full),
        _ => None,
    }
}

#[tactic(auto, unfolding(crate::specs::Config::kind_in))]
pub(crate) fn kind_in(value: &Value) -> Option<Kind>
    ensures { result ≡ kind_in (view value.now) }
{
    Kind::named(value.as_str()?)
}

/// The names of a list of one or more, each once; None of any other value. `AllocError` where memory for them is refused.
#[tactic(auto, unfolding(crate::specs::Config::names_in))]
pub fn names_in(alloc: Global, value: &Value) -> Result<Option<Items<Text>>, AllocError>
    ensures { IfOk result (λ names. names ≡ names_in (view value.now)) }
{
    match value.as_array() {
        Some(values) => Ok(names_of(alloc, values.as_slice())?.and_then(unless_empty)),
        None => Ok(None),
    }
}

fn names_of(alloc: Global, values: &[Value]) -> Result<Option<Items<Text>>, AllocError>
    ensures { IfOk result (λ names. names ≡ names_behind [] (items_view values.now)) }
{
    let mut names = Vec::new(alloc);
    for value in values {
        let Some(name) = another_name(names.as_slice(), value) else {
            return Ok(None);
        };
        names.push(Text::copy_of(alloc, name)?)?;
    }
    Ok(Some(Items::new(names)))
}

#[tactic(auto, unfolding(crate::specs::Config::another_name))]
fn another_name<'v>(names: &[Text], value: &'v Value) -> Option<&'v str>
    ensures { option_copied result ≡ another_name names.now (view value.now) }
{
    match name_in(value) {
        Some(name) if !is_among(names, name) => Some(name),
        _ => None,
    }
}

pub(crate) fn is_among(names: &[Text], name: &str) -> bool
    ensures { result ≡ list_any (bytes_eq name.now) names.now }
{
    names.iter().any(|other| name == other.as_str())
}

pub(crate) fn unless_empty<T: Drop>(items: Items<T>) -> Option<Items<T>>
    ensures { result ≡ unless_empty items }
{
    if items.is_empty() {
        return None;
    }
    Some(items)
}

/// Whether a value is something else than a table of so many members.
#[tactic(auto, using(crate::proofs::Members::counted))]
pub fn is_more_than(value: &Value, known: usize) -> bool
    ensures { result ≡ is_more_than known (as_table (view value.now)) }
{
    match value.as_table() {
        Some(members) => members.len() != known,
        None => true,
    }
}
