//! The server of a configuration.

ghost use Rattle.std.specs.Prelude.{◌≡◌, ◌≤◌, not, codes, option_copied, IfOk, IfSome, string_bytes};
ghost use Rattle.std.specs.List.{list_any};
ghost use Rattle.toml.specs.Data.{as_table, get};
ghost use Rattle.std.specs.BTreeMap.{keys};
ghost use Rattle.toml.specs.View.{view};
ghost use Rattle.catalog.specs.Config.{and_then};
ghost use Rattle.configuration.specs.declared.server.UnreadServer.TheVariants.{Memory};
ghost use Rattle.configuration.specs.Config.{IsServer, ReadsServer, has_another_in, is_of_server, is_part, number_in, server_in, server_of, text_in};

use crate::config_fault::ServerMisfit;
use pqformat::Text;
use std::alloc::{AllocError, Global};
use toml::{Table, Value};
use txlog::MAX_RECORDS;

/// The most bytes of the text by which a system names itself, with which it fits any answer to a client.
pub const MAX_SYSTEMID: usize = 65_535;

/// The most chunks of an arena.
pub const MAX_CHUNKS: usize = 4096;

/// What a configuration says of the server.
#[derive(Debug, Drop)]
pub struct Server {
    /// The text by which the system names itself to clients: at most `MAX_SYSTEMID` bytes.
    pub systemid: Text,
    /// For how many records the log has room: 1 to `MAX_RECORDS`.
    pub records: usize,
    /// The chunks of a sender's arena: 1 to `MAX_CHUNKS`.
    pub chunks: usize,
}

/// Why no server was read.
#[derive(Clone, Copy, PartialEq, Eq)]
pub(crate) enum UnreadServer {
    Wrong(ServerMisfit),
    Memory,
}

impl From<AllocError> for UnreadServer {
    ghost from_gives = { λ _ e. e ≡ Memory };

    fn from(_e: AllocError) -> UnreadServer {
        UnreadServer::Memory
    }
}

/// The server that a configuration names, or what is wrong with it.
#[tactic(auto, unfolding(crate::specs::Config::server_of))]
pub(crate) fn server_of(alloc: Global, document: &Value) -> Result<Server, UnreadServer>
    ensures value { ReadsServer result (server_of (view document.now)) }
    ensures fits { IfOk result IsServer }
{
    if has_another_part(document) {
        return Err(UnreadServer::Wrong(ServerMisfit::AnotherPart));
    }
    match document.get("server") {
        Some(server) => server_in(alloc, server),
        None => Err(UnreadServer::Wrong(ServerMisfit::NoServer)),
    }
}

#[tactic(auto, unfolding(crate::specs::Config::server_in))]
fn server_in(alloc: Global, value: &Value) -> Result<Server, UnreadServer>
    ensures value { ReadsServer result (server_in (view value.now)) }
    ensures fits { IfOk result IsServer }
{
    let systemid = text_at(value, "systemid", MAX_SYSTEMID).ok_or(UnreadServer::Wrong(
        ServerMisfit::Systemid,
    ))?;
    let records = number_at(value, "records", MAX_RECORDS).ok_or(UnreadServer::Wrong(
        ServerMisfit::Records,
    ))?;
    let chunks = number_at(value, "chunks", MAX_CHUNKS).ok_or(UnreadServer::Wrong(
        ServerMisfit::Chunks,
    ))?;
    if has_others(value) {
        return Err(UnreadServer::Wrong(ServerMisfit::Other));
    }
    Ok(Server {
        systemid: Text::copy_of(alloc, systemid)?,
        records,
        chunks,
    })
}

/// The text of a member, of at most so many bytes.
fn text_at<'v>(table: &'v Value, member: &str, most: usize) -> Option<&'v str>
    ensures { option_copied result ≡ and_then (get member.now (view table.now)) (text_in most) }
{
    match table.get(member) {
        Some(value) => text_in(value, most),
        None => None,
    }
}

/// A text of at most so many bytes.
#[tactic(auto, unfolding(crate::specs::Config::text_in))]
fn text_in<'v>(value: &'v Value, most: usize) -> Option<&'v str>
    ensures { option_copied result ≡ text_in most (view value.now) }
{
    let text = value.as_str()?;
    if text.len() > most {
        return None;
    }
    Some(text)
}

fn number_at(table: &Value, member: &str, most: usize) -> Option<usize>
    ensures value { result ≡ and_then (get member.now (view table.now)) (number_in most) }
    ensures within { IfSome result (λ number. (1 ≤ number) × (number ≤ most)) }
{
    number_in(table.get(member)?, most)
}

/// A whole number from 1 to the greatest.
#[tactic(auto, unfolding(crate::specs::Config::number_in))]
fn number_in(value: &Value, most: usize) -> Option<usize>
    ensures value { result ≡ number_in most (view value.now) }
    ensures within { IfSome result (λ number. (1 ≤ number) × (number ≤ most)) }
{
    let number = usize::try_from(value.as_integer()?).ok()?;
    if number < 1 || most < number {
        return None;
    }
    Some(number)
}

#[tactic(auto, using(crate::proofs::Members::another_among))]
fn has_another_part(document: &Value) -> bool
    ensures { result ≡ has_another_in is_part (as_table (view document.now)) }
{
    match document.as_table() {
        Some(members) => has_other_than_parts(members),
        None => false,
    }
}

fn has_other_than_parts(members: &Table) -> bool
    ensures { result ≡ list_any (λ name. not (is_part (string_bytes name))) (keys members.now) }
{
    members.keys().any(|name| !is_part(name.as_str()))
}

fn is_part(name: &str) -> bool
    ensures { result ≡ is_part name.now }
{
    matches!(name, "table" | "publication" | "server")
}

/// Whether the server has a member that no server has.
#[tactic(auto, using(crate::proofs::Members::another_among))]
fn has_others(server: &Value) -> bool
    ensures { result ≡ has_another_in is_of_server (as_table (view server.now)) }
{
    match server.as_table() {
        Some(members) => has_other_than_server(members),
        None => false,
    }
}

fn has_other_than_server(members: &Table) -> bool
    ensures { result
        ≡ list_any (λ name. not (is_of_server (string_bytes name))) (keys members.now) }
{
    members.keys().any(|name| !is_of_server(name.as_str()))
}

fn is_of_server(name: &str) -> bool
    ensures { result ≡ is_of_server name.now }
{
    matches!(name, "systemid" | "records" | "chunks")
}
