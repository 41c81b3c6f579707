//! Texts: commands, positions, lines of schedules and configurations.

use crate::wording::answer::tell;
use anyhow::Result;
use catalog::Catalog;
use configuration::{Config, ConfigFault};
use replcmd::{Strictness, parse_command, parse_position, write_position};
use schedule::Event;
use std::alloc::{AllocError, Global};

pub fn answer_command(alloc: Global, given: &str, answer: &mut String) -> Result<()> {
    tell(answer, &parse_command(alloc, Strictness::Strict, given))
}

/// Read leniently.
pub fn answer_lenient_command(alloc: Global, given: &str, answer: &mut String) -> Result<()> {
    tell(answer, &parse_command(alloc, Strictness::Lenient, given))
}

/// A position is written again.
pub fn answer_position(alloc: Global, given: &str, answer: &mut String) -> Result<()> {
    Ok(add_position(alloc, given, answer)?)
}

fn add_position(alloc: Global, given: &str, answer: &mut String) -> Result<(), AllocError> {
    match parse_position(given) {
        Ok(position) => write!(answer, "= {}", write_position(alloc, position)?),
        Err(fault) => write!(answer, "! {fault}"),
    }
}

pub fn answer_event(alloc: Global, given: &str, answer: &mut String) -> Result<()> {
    tell(answer, &Event::parse(alloc, given))
}

pub fn answer_catalog(alloc: Global, given: &str, answer: &mut String) -> Result<()> {
    tell(answer, &Catalog::from_toml(alloc, given))
}

/// The server, and the tables.
pub fn answer_config(alloc: Global, given: &str, answer: &mut String) -> Result<()> {
    add_config(&Config::from_toml(alloc, given), answer)
}

fn add_config(came: &Result<Config, ConfigFault>, answer: &mut String) -> Result<()> {
    Ok(match came {
        Ok(config) => write!(answer, "= {:?} {:?}", config.server(), config.catalog()),
        Err(fault) => write!(answer, "! {fault}"),
    }?)
}
