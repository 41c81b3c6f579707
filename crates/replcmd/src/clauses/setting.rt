//! The options of START_REPLICATION: in any order, none twice; and what they ask of a stream.

ghost use Rattle.std.specs.Prelude.{◌≡◌, None, false, count_by};
ghost use Rattle.replcmd.specs.Commands.{more_settings, options_at, settings_at};
ghost use Rattle.replcmd.specs.Reading.{Gives, GivesItems};
ghost use Rattle.replcmd.specs.Settings.{told_options, options_of_settings, declined_at, declines, declines_twice, discontent, is_content, is_served_version, messages_at, other_version, publications_at, setting_at, unserved_of, version_at};

use crate::clauses::publications::names_of;
use crate::clauses::strictness::Strictness;
use crate::fault::{CmdFault, OptionFault, Unserved};
use crate::text::token::{CLOSE, COMMA, OPEN};
use crate::text::tokens::Tokens;
use crate::text::words::{are_digits, is_off, truth_of};
use pqformat::{Items, Text};
use std::alloc::Global;

/// The options of START_REPLICATION that say what its stream tells (PostgreSQL 15, 55.5).
#[derive(Debug, Drop)]
pub struct StreamOptions {
    /// `publication_names`: the publications that are asked for.
    pub publications: Items<Text>,
    /// `messages`: whether the messages that sessions put into the log are told too, as those of pg_logical_emit_message
    /// in PostgreSQL (PostgreSQL 15, 9.27.6); false where nothing is said of them.
    pub messages: bool,
}

/// An option, with what its value says.
#[derive(Drop)]
pub(crate) enum Setting {
    /// Version 1 of the protocol, or a later one, of which its messages are a part.
    Version,
    /// The publications that are asked for.
    Publications(Items<Text>),
    /// Whether the messages in the log are asked for.
    Messages(bool),
    /// That nothing is asked for by an option that isn't served, or nothing that must be given.
    Declined(Unserved),
}

/// The options in brackets; none where no bracket is opened.
#[tactic(auto, unfolding(crate::specs::Commands::options_at))]
pub(crate) fn options_of(
    alloc: Global,
    strictness: Strictness,
    tokens: &mut Tokens<'_>,
) -> Result<Vec<Setting>, CmdFault>
    ensures { GivesItems result tokens.new (options_at strictness tokens.old) }
{
    if !tokens.takes(OPEN) || tokens.takes(CLOSE) {
        return Ok(Vec::new(alloc));
    }
    settings_of(alloc, strictness, tokens)
}

/// One option at least, and the bracket that closes the list.
#[tactic(auto, unfolding(crate::specs::Commands::settings_at))]
fn settings_of(
    alloc: Global,
    strictness: Strictness,
    tokens: &mut Tokens<'_>,
) -> Result<Vec<Setting>, CmdFault>
    ensures { GivesItems result tokens.new (settings_at strictness tokens.old) }
{
    let mut settings = Vec::new(alloc);
    loop {
        settings.push(setting_of(alloc, strictness, tokens)?)?;
        if !goes_on(tokens)? {
            return Ok(settings);
        }
    }
}

/// Whether a comma follows, and so another option, or the closing bracket.
pub(crate) fn goes_on(tokens: &mut Tokens<'_>) -> Result<bool, CmdFault>
    ensures { Gives result tokens.new (more_settings tokens.old) }
{
    if tokens.takes(COMMA) {
        return Ok(true);
    }
    if tokens.takes(CLOSE) {
        return Ok(false);
    }
    Err(CmdFault::Syntax)
}

#[tactic(auto, unfolding(crate::specs::Settings::setting_at))]
fn setting_of(
    alloc: Global,
    strictness: Strictness,
    tokens: &mut Tokens<'_>,
) -> Result<Setting, CmdFault>
    ensures { Gives result tokens.new (setting_at strictness tokens.old) }
{
    let name = tokens.name(alloc)?;
    if name.as_str() == "proto_version" {
        return version_of(strictness, tokens);
    }
    if name.as_str() == "publication_names" {
        return publications_of(alloc, tokens);
    }
    if name.as_str() == "messages" {
        return messages_of(tokens);
    }
    match unserved_of(name.as_str()) {
        Some(option) => declined_of(strictness, option, tokens),
        None => Err(CmdFault::BadOption(OptionFault::Unrecognized)),
    }
}

/// The option of this name that isn't served.
pub(crate) fn unserved_of(name: &str) -> Option<Unserved>
    ensures { result ≡ unserved_of name.now }
{
    match name {
        "binary" => Some(Unserved::Binary),
        "streaming" => Some(Unserved::Streaming),
        "two_phase" => Some(Unserved::TwoPhase),
        _ => None,
    }
}

/// The value of an option that isn't served: none is asked for, or it may be asked for and nothing comes of it.
fn declined_of(
    strictness: Strictness,
    option: Unserved,
    tokens: &mut Tokens<'_>,
) -> Result<Setting, CmdFault>
    ensures { Gives result tokens.new (declined_at strictness option tokens.old) }
{
    let value = tokens.value()?;
    if is_content(strictness, value.as_str()) {
        return Ok(Setting::Declined(option));
    }
    Err(CmdFault::BadOption(discontent(strictness, option)))
}

/// Whether nothing must be given to who says this of an option that isn't served.
#[tactic(auto, unfolding(crate::specs::Reading::truth_of))]
fn is_content(strictness: Strictness, value: &str) -> bool
    ensures { result ≡ is_content strictness value.now }
{
    match strictness {
        Strictness::Strict => is_off(value),
        Strictness::Lenient => truth_of(value).is_some(),
    }
}

fn discontent(strictness: Strictness, option: Unserved) -> OptionFault
    ensures { result ≡ discontent strictness option }
{
    match strictness {
        Strictness::Strict => OptionFault::NotServed(option),
        Strictness::Lenient => OptionFault::NoTruth(option),
    }
}

fn version_of(strictness: Strictness, tokens: &mut Tokens<'_>) -> Result<Setting, CmdFault>
    ensures { Gives result tokens.new (version_at strictness tokens.old) }
{
    let value = tokens.value()?;
    if is_version(strictness, value.as_str()) {
        return Ok(Setting::Version);
    }
    Err(CmdFault::BadOption(other_version(strictness, value.as_str())))
}

/// Whether version 1's messages serve who asks for this one.
fn is_version(strictness: Strictness, value: &str) -> bool
    ensures { result ≡ is_served_version strictness value.now }
{
    match (strictness, value) {
        (_, "1") => true,
        (Strictness::Lenient, "2" | "3") => true,
        _ => false,
    }
}

/// What is wrong with another one: it is no number, or that of a version which PostgreSQL 15 doesn't have.
fn other_version(strictness: Strictness, value: &str) -> OptionFault
    ensures { result ≡ other_version strictness value.now }
{
    match strictness {
        Strictness::Lenient if are_digits(value) => OptionFault::OtherVersion,
        _ => OptionFault::Version,
    }
}

fn publications_of(alloc: Global, tokens: &mut Tokens<'_>) -> Result<Setting, CmdFault>
    ensures { Gives result tokens.new (publications_at tokens.old) }
{
    let value = tokens.value()?;
    Ok(Setting::Publications(names_of(alloc, value.as_str())?))
}

fn messages_of(tokens: &mut Tokens<'_>) -> Result<Setting, CmdFault>
    ensures { Gives result tokens.new (messages_at tokens.old) }
{
    let value = tokens.value()?;
    let on = truth_of(value.as_str()).ok_or(CmdFault::BadOption(OptionFault::Messages))?;
    Ok(Setting::Messages(on))
}

/// What is asked of the stream, where no option stands twice and none that is needed is missing: the version and the
/// publications. No messages are asked for where nothing is said of them.
pub(crate) fn gathered(settings: Vec<Setting>) -> Result<StreamOptions, CmdFault>
    ensures { result ≡ told_options settings.items }
{
    if declines_twice(settings.as_slice()) {
        // Let go by one call, which keeps the proof short.
        drop(settings);
        return Err(CmdFault::BadOption(OptionFault::Redundant));
    }
    summed(settings)
}

/// Whether an option that isn't served stands twice.
fn declines_twice(settings: &[Setting]) -> bool
    ensures { result ≡ declines_twice settings.now }
{
    1 < declined(settings, Unserved::Binary)
        || 1 < declined(settings, Unserved::Streaming)
        || 1 < declined(settings, Unserved::TwoPhase)
}

/// How often it stands there.
fn declined(settings: &[Setting], option: Unserved) -> usize
    ensures { result ≡ count_by (declines option) settings.now }
{
    settings
        .iter()
        .filter(|setting| declines(option, *setting))
        .count()
}

fn declines(option: Unserved, setting: &Setting) -> bool
    ensures { result ≡ declines option setting.now }
{
    match (option, setting) {
        (Unserved::Binary, Setting::Declined(Unserved::Binary)) => true,
        (Unserved::Streaming, Setting::Declined(Unserved::Streaming)) => true,
        (Unserved::TwoPhase, Setting::Declined(Unserved::TwoPhase)) => true,
        _ => false,
    }
}

fn summed(settings: Vec<Setting>) -> Result<StreamOptions, CmdFault>
    ensures { result ≡ options_of_settings false None None settings.items }
{
    let mut version = false;
    let mut publications = None;
    let mut messages = None;
    for setting in settings {
        match setting {
            Setting::Version if !version => version = true,
            Setting::Publications(names) if publications.is_none() => publications = Some(names),
            Setting::Messages(on) if messages.is_none() => messages = Some(on),
            Setting::Declined(_) => {}
            _ => return Err(CmdFault::BadOption(OptionFault::Redundant)),
        }
    }
    if !version {
        return Err(CmdFault::BadOption(OptionFault::VersionMissing));
    }
    Ok(StreamOptions {
        publications: publications.ok_or(CmdFault::BadOption(
            OptionFault::PublicationNamesMissing,
        ))?,
        messages: messages.unwrap_or(false),
    })
}
