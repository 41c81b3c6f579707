//! The calls by their names.

use crate::bodies::{answer_body, answer_client, answer_logical, answer_server};
use crate::filters::answer_filter;
use crate::framing::{answer_back, answer_front, answer_startup};
use crate::passwords::{
    answer_hi, answer_hmac, answer_login, answer_proved, answer_proves, answer_verifier,
    answer_verifier_of,
};
use crate::publishing::{answer_explained, answer_published};
use crate::segmenting::{answer_segment, answer_segments};
use crate::talking::subscriber::{answer_applied, answer_render, answer_status};
use crate::talking::talk::answer_talk;
use crate::wording::answer::bytes_of;
use crate::wording::fault_texts::{answer_codes, answer_texts};
use crate::wording::fields::answer_field;
use crate::wording::texts::{
    answer_catalog, answer_command, answer_config, answer_event, answer_lenient_command,
    answer_position,
};
use anyhow::{Result, bail};
use server::Dialect;
use std::alloc::Global;

pub fn answer_call(alloc: Global, call: &str, given: &str, answer: &mut String) -> Result<()> {
    match call {
        "status" => answer_status(alloc, given, answer),
        "applied" => answer_applied(alloc, given, answer),
        "talk" => answer_talk(alloc, Dialect::Commands, given, answer),
        "questions" => answer_talk(alloc, Dialect::Questions, given, answer),
        "published" => answer_published(alloc, given, answer),
        "explained" => answer_explained(alloc, given, answer),
        "filter" => answer_filter(alloc, given, answer),
        "texts" => answer_texts(given, answer),
        "codes" => answer_codes(answer),
        "command" => answer_command(alloc, given, answer),
        "lenient" => answer_lenient_command(alloc, given, answer),
        "position" => answer_position(alloc, given, answer),
        "event" => answer_event(alloc, given, answer),
        "catalog" => answer_catalog(alloc, given, answer),
        "config" => answer_config(alloc, given, answer),
        "hmac" => answer_hmac(alloc, given, answer),
        "hi" => answer_hi(alloc, given, answer),
        "verifier_of" => answer_verifier_of(alloc, given, answer),
        "verifier" => answer_verifier(alloc, given, answer),
        "proved" => answer_proved(alloc, given, answer),
        "proves" => answer_proves(alloc, given, answer),
        "login" => answer_login(alloc, given, answer),
        "segments" => answer_segments(alloc, given, answer),
        _ => answer_digits(alloc, call, given, answer),
    }
}

/// The calls that are given bytes.
fn answer_digits(alloc: Global, call: &str, digits: &str, answer: &mut String) -> Result<()> {
    let bytes = bytes_of(alloc, digits)?;
    answer_bytes(alloc, call, bytes.as_slice(), answer)
}

fn answer_bytes(alloc: Global, call: &str, bytes: &[u8], answer: &mut String) -> Result<()> {
    match call {
        "read_startup" => answer_startup(alloc, bytes, answer),
        "read_front" => answer_front(alloc, bytes, answer),
        "read_back" => answer_back(alloc, bytes, answer),
        "read_logical" => answer_logical(alloc, bytes, answer),
        "read_server" => answer_server(alloc, bytes, answer),
        "read_client" => answer_client(alloc, bytes, answer),
        "read_body" => answer_body(alloc, bytes, answer),
        "render" => answer_render(alloc, bytes, answer),
        "segment" => answer_segment(alloc, bytes, answer),
        "u8" | "u16" | "u32" | "u64" | "take2" | "cstr" => {
            Ok(answer_field(alloc, call, bytes, answer)?)
        }
        _ => bail!("no such call"),
    }
}
