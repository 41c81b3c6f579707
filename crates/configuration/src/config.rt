//! What a publisher is configured with. The form of a configuration is told in docs/CONFIGURATION.md.

ghost use Rattle.std.specs.Prelude.{◌≡◌};
ghost use Rattle.toml.specs.View.{view};
ghost use Rattle.configuration.specs.Config.{IsServer, Names, ReadsSetting, named_by, setting_in};

use crate::columns::{KINDS, Untyped, untyped_column, vague_column};
use crate::config_fault::ConfigFault;
use crate::server::{Server, server_of};
use catalog::{Catalog, CatalogFault, CatalogMember, CatalogMisfit, read_document};
use publication::{PubFault, Publications};
use std::alloc::{AllocError, Global};
use std::marker::Model;
use toml::Value;

/// What is said of a column of a key by whose values rows can't be told apart.
const VAGUE: &str =
    ", whose equal values may have several texts: give it its digits, as in numeric(10,2)";

/// The most bytes of a word that a line shows.
const MOST_SHOWN: usize = 100;

/// What a publisher is configured with: its tables, its publications, and its server.
#[derive(Drop)]
pub struct Config {
    catalog: Catalog,
    publications: Publications,
    server: Server,
}

impl Model for Config {
    ghost use Rattle.std.specs.Coded.{codes};
    ghost use Rattle.publication.specs.Publications.{condition_code};
    ghost use Rattle.configuration.specs.Config.{IsServer};
    ghost use Rattle.configuration.specs.Setting.{Setting};

    ghost Value = { Setting };

    ghost coded = { Prim.hlevel (codes, condition_code (Prim.hlevel codes)) };

    ghost view = { λ c. record {
      tables = c.catalog;
      publications = c.publications;
      server = c.server;
    } };

    ghost invariant = { λ c. IsServer c.server };
}

/// Why the text is no configuration, in lines for whoever wrote it. A fault of publications is told with their names, a filter
/// that is none with a mark under the byte at fault, of a text that is no TOML what stopped its reader, and a column of no type
/// by its name. `AllocError` where memory for them is refused.
pub fn explained(alloc: Global, text: &str, fault: &ConfigFault) -> Result<String, AllocError> {
    match fault {
        ConfigFault::Publications(why) => of_publications(alloc, text, fault, *why),
        ConfigFault::Catalog(CatalogFault::NotToml(_)) => of_reader(alloc, text, fault),
        ConfigFault::Catalog(
            CatalogFault::BadTables(CatalogMisfit::Table(table, CatalogMember::Columns)),
        ) => { of_columns(alloc, text, fault, *table) }
        ConfigFault::Catalog(
            CatalogFault::BadTables(CatalogMisfit::Table(table, CatalogMember::Key)),
        ) => { of_key(alloc, text, fault, *table) }
        _ => fault.to_string(alloc),
    }
}

fn of_publications(
    alloc: Global,
    text: &str,
    fault: &ConfigFault,
    why: PubFault,
) -> Result<String, AllocError> {
    if let Ok(document) = read_document(alloc, text) {
        if let Ok(catalog) = Catalog::of_document(alloc, &document) {
            return publication::explained(alloc, &document, &catalog, why);
        }
    }
    fault.to_string(alloc)
}

/// The fault, and the column whose type there isn't, with those that there are, unless a line can't show it.
fn of_columns(
    alloc: Global,
    text: &str,
    fault: &ConfigFault,
    table: usize,
) -> Result<String, AllocError> {
    let mut line = fault.to_string(alloc)?;
    if let Ok(document) = read_document(alloc, text) {
        if let Some(column) = untyped_column(&document, table) {
            push_untyped(&mut line, &column)?;
        }
    }
    Ok(line)
}

/// The fault, and the column of the key that no key may have, unless a line can't show it.
fn of_key(
    alloc: Global,
    text: &str,
    fault: &ConfigFault,
    table: usize,
) -> Result<String, AllocError> {
    let mut line = fault.to_string(alloc)?;
    if let Ok(document) = read_document(alloc, text) {
        if let Some(column) = vague_column(&document, table) {
            push_typed(&mut line, &column, VAGUE)?;
        }
    }
    Ok(line)
}

fn push_untyped(line: &mut String, column: &Untyped<'_>) -> Result<(), AllocError> {
    push_typed(line, column, ", and there are ")?;
    if is_shown(column.name) && is_shown(column.kind) {
        line.push_str(KINDS)?;
    }
    Ok(())
}

/// Adds the column with its type, and these words after it.
fn push_typed(line: &mut String, column: &Untyped<'_>, words: &str) -> Result<(), AllocError> {
    if !is_shown(column.name) || !is_shown(column.kind) {
        return Ok(());
    }
    line.push_str(": ")?;
    line.push_str(column.name)?;
    line.push_str(" has the type ")?;
    line.push_str(column.kind)?;
    line.push_str(words)
}

/// The fault, what the reader of TOML says of it, and the word at which it stopped, as of a key that is given twice.
fn of_reader(alloc: Global, text: &str, fault: &ConfigFault) -> Result<String, AllocError> {
    let mut line = fault.to_string(alloc)?;
    if let Err(why) = toml::table_from_str(alloc, text) {
        line.push_str(": ")?;
        line.push_str(why.message())?;
        if let Some(word) = word_at(text, &why) {
            line.push_str(", at ")?;
            line.push_str(word)?;
        }
    }
    Ok(line)
}

/// The word at which the reader stopped, unless it is none that a line can show.
fn word_at<'t>(text: &'t str, why: &toml::de::Error) -> Option<&'t str> {
    let word = text.get(why.span()?)?;
    match is_shown(word) {
        true => Some(word),
        false => None,
    }
}

/// Whether a line can show the word.
fn is_shown(word: &str) -> bool {
    !word.is_empty()
        && word.len() <= MOST_SHOWN
        && !word.bytes().any(|byte| byte.is_ascii_control())
}

impl Config {
    /// The configuration that a TOML text names. The first fault is answered: `Catalog` where the text is no TOML or its tables
    /// are told otherwise (N1), `Publications` where its publications are (P3 to P6, P8), `BadServer` where its server is, or
    /// another member stands there. Want of memory is `Catalog` (N2), `Publications` (P7) or `Memory`, by what was read.
    pub fn from_toml(alloc: Global, text: &str) -> Result<Self, ConfigFault>
        ensures { Names result (named_by text.now) }
    {
        let document = read_document(alloc, text)?;
        Config::of_document(alloc, &document)
    }

    fn of_document(alloc: Global, document: &Value) -> Result<Self, ConfigFault>
        ensures { ReadsSetting result (setting_in (view document.now)) }
    {
        let catalog = Catalog::of_document(alloc, document)?;
        let publications = Publications::of_document(alloc, document, &catalog)?;
        let server = server_of(alloc, document)?;
        Ok(Config {
            catalog,
            publications,
            server,
        })
    }

    /// The tables of the publisher.
    pub fn catalog(&self) -> &Catalog
        ensures { result.now ≡ self.now.tables }
    {
        &self.catalog
    }

    pub fn server(&self) -> &Server
        ensures { result.now ≡ self.now.server }
    {
        &self.server
    }

    /// The tables, the publications over them, and the server.
    pub fn into_parts(self) -> (Catalog, Publications, Server)
        ensures parts { (result.0 ≡ self.tables) × (result.1 ≡ self.publications)
            × (result.2 ≡ self.server) }
        ensures server { IsServer result.2 }
    {
        let Config {
            catalog,
            publications,
            server,
        } = self;
        (catalog, publications, server)
    }
}
