//! What is told of a value of which a text was sent.

ghost use Rattle.std.specs.Prelude.{◌≡◌, ◌++◌, ℕ, List, None, IfSome, IsTrue, OnOk};
ghost use Rattle.json.specs.Print.{IsNumber};
ghost use Rattle.json.specs.Tree.{json_tokens};
ghost use Rattle.message_lines.specs.Values.{is_beyond_numbers, is_no_number, is_numeral, is_told_number, told_text, truth, truth_of, value_json, without_mark};

use crate::telling::kinds::{BOOL_OID, BYTEA_OID, NUMERIC_OID, is_number as is_number_kind};
use json::{Writer, is_number};
use std::alloc::AllocError;

/// A number or a truth, where the type is one and the text says one, null of what JSON has no number for, and else the text.
#[tactic(auto, unfolding(crate::specs::Values::value_json))]
pub(crate) fn put_value(out: &mut Writer, kind: u32, text: &str) -> Result<(), AllocError>
    ensures tokens { OnOk result
        (out.new.tokens ≡ out.old.tokens ++ json_tokens (value_json kind text.now)) }
    ensures before { out.new.before ≡ out.old.before }
{
    if is_told_number(kind, text) {
        return out.number(text);
    }
    if is_no_number(kind, text) {
        return out.null();
    }
    match truth_of(kind, text) {
        Some(value) => out.boolean(value),
        None => out.string(told_text(kind, text)),
    }
}

/// Whether the type is one of numbers, and the text a number of JSON.
#[tactic(auto, unfolding(crate::specs::Values::is_told_number))]
fn is_told_number(kind: u32, text: &str) -> bool
    ensures value { result ≡ is_told_number kind text.now }
    ensures number { IsTrue result → IsNumber text.now }
{
    is_number_kind(kind) && is_numeral(text)
}

fn is_numeral(text: &str) -> bool
    ensures value { result ≡ is_numeral text.now }
    ensures number { IsTrue result → IsNumber text.now }
{
    is_number(text)
}

/// Whether the text is that of a numeric that is no number of JSON.
#[tactic(auto, unfolding(crate::specs::Values::is_no_number))]
fn is_no_number(kind: u32, text: &str) -> bool
    ensures { result ≡ is_no_number kind text.now }
{
    kind == NUMERIC_OID && is_beyond_numbers(text)
}

fn is_beyond_numbers(text: &str) -> bool
    ensures { result ≡ is_beyond_numbers text.now }
{
    text == "NaN" || text == "Infinity" || text == "-Infinity"
}

/// The text of a value, of bytes without the mark in front of their digits.
#[tactic(auto, unfolding(crate::specs::Values::told_text))]
fn told_text(kind: u32, text: &str) -> &str
    ensures { result.now ≡ told_text kind text.now }
{
    if kind == BYTEA_OID {
        without_mark(text)
    } else {
        text
    }
}

#[tactic(auto, using(crate::proofs::HexMarks::behind_mark, crate::proofs::HexMarks::no_mark))]
fn without_mark(text: &str) -> &str
    ensures { result.now ≡ without_mark text.now }
{
    match behind(text, "\\x") {
        Some(digits) => digits,
        None => text,
    }
}

/// What stands after this front of a text.
fn behind<'a>(text: &'a str, front: &str) -> Option<&'a str>
    ensures found { IfSome result (λ rest. text.now ≡ front.now ++ rest.now) }
    ensures none { result ≡ None → (rest : List ℕ) → text.now ≡ front.now ++ rest → ⊥ }
{
    text.strip_prefix(front)
}

/// The truth that the text of a bool says.
#[tactic(auto, unfolding(crate::specs::Values::truth_of))]
fn truth_of(kind: u32, text: &str) -> Option<bool>
    ensures { result ≡ truth_of kind text.now }
{
    if kind == BOOL_OID { truth(text) } else { None }
}

fn truth(text: &str) -> Option<bool>
    ensures { result ≡ truth text.now }
{
    match text {
        "t" => Some(true),
        "f" => Some(false),
        _ => None,
    }
}
