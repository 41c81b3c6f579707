//! How a password is prepared.

ghost use Rattle.std.specs.Prelude.{◌≡◌, ◌<◌, ◌↔◌, All, IfOk, true, chars, option_map, string_bytes};
ghost use Rattle.std.specs.Char.{is_ascii};
ghost use Rattle.std.specs.List.{list_all};
ghost use Rattle.std.specs.Option.{option_copied};
ghost use Rattle.scram.specs.Preparing.{is_refused, mapped, prepared, prepared_text};
ghost use Rattle.scram.specs.Refusing.{has, is_mixed};

use crate::saslprep::code_set::{has_any, is_in};
use crate::saslprep::left_to_right::LEFT_TO_RIGHT;
use crate::saslprep::tables::{NOTHING, PROHIBITED, RIGHT_TO_LEFT, SPACES};
use crate::saslprep::unassigned::UNASSIGNED;
use std::alloc::{AllocError, Global};
use std::str;
use unicode_normalization::slice::extend_nfkc;

/// The password that is proved in place of this one: prepared by SASLprep, or, where it is no text or can't be prepared, as it is
/// (PostgreSQL 15, `pg_saslprep`). `AllocError` where memory for it is refused.
#[tactic(auto, using(pqformat::proofs::Texts::invalid_text, pqformat::proofs::Texts::valid_text), unfolding(crate::specs::Preparing::prepared))]
pub fn prepared(alloc: Global, password: &[u8]) -> Result<Vec<u8>, AllocError>
    ensures exact { IfOk result (λ bytes. bytes.items ≡ prepared password.now) }
    ensures ascii { All (λ b. b < 128) password.now →
        IfOk result (λ bytes. bytes.items ≡ password.now) }
{
    if is_ascii(password) {
        return Vec::from_slice(alloc, password);
    }
    let Ok(text) = str::from_utf8(password) else {
        return Vec::from_slice(alloc, password);
    };
    match prepared_text(alloc, text)? {
        Some(prepared) => Ok(prepared.into_bytes()),
        None => Vec::from_slice(alloc, password),
    }
}

fn is_ascii(password: &[u8]) -> bool
    ensures each { result ≡ list_all is_ascii password.now }
    ensures all { All (λ b. b < 128) password.now → result ≡ true }
{
    for byte in password {
        if 128 <= *byte {
            return false;
        }
    }
    true
}

/// A text as it is prepared. None: it can't be.
#[tactic(auto, unfolding(crate::specs::Preparing::prepared_text))]
fn prepared_text(alloc: Global, text: &str) -> Result<Option<String>, AllocError>
    ensures { IfOk result
        (λ prepared. option_map string_bytes prepared ≡ prepared_text (chars text.now)) }
{
    let mapped = mapped(alloc, text)?;
    if is_refused(mapped.as_slice()) {
        return Ok(None);
    }
    let mut normal = Vec::new(alloc);
    extend_nfkc(&mut normal, mapped.as_slice())?;
    Ok(Some(normal.iter().copied().collect(alloc)?))
}

/// The code points of a text: each space as that of ASCII, and without those that count as nothing (2.1).
#[tactic(auto, unfolding(crate::specs::Preparing::mapped))]
fn mapped(alloc: Global, text: &str) -> Result<Vec<char>, AllocError>
    ensures { IfOk result (λ codes. codes.items ≡ mapped (chars text.now)) }
{
    text.chars()
        .filter(|code| is_in(&SPACES, *code) || !is_in(&NOTHING, *code))
        .map(|code| if is_in(&SPACES, code) { ' ' } else { code })
        .collect(alloc)
}

#[tactic(auto, unfolding(crate::specs::Preparing::is_refused))]
fn is_refused(codes: &[char]) -> bool
    ensures { result ≡ is_refused codes.now }
{
    codes.is_empty()
        || has_any(&PROHIBITED, codes)
        || has_any(&UNASSIGNED, codes)
        || is_mixed(&RIGHT_TO_LEFT, &LEFT_TO_RIGHT, codes)
}

/// Whether what is written from right to left stands beside what isn't, as it may not (2.4).
fn is_mixed(right: &[u32], left: &[u32], codes: &[char]) -> bool
    ensures { result ≡ is_mixed right.now left.now codes.now }
{
    if !has_any(right, codes) {
        return false;
    }
    has_any(left, codes) || !(has(right, codes.first()) && has(right, codes.last()))
}

fn has(set: &[u32], code: Option<&char>) -> bool
    ensures { result ≡ has set.now (option_copied code.entry) }
{
    match code {
        Some(code) => is_in(set, *code),
        None => false,
    }
}
