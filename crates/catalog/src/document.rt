//! The document of a configuration's text.

ghost use Rattle.catalog.specs.Config.{ReadsDocument, document_of};

use crate::config_fault::CatalogFault;
use std::alloc::Global;
use toml::Value;

/// What a TOML text says, as one table of its members. A text that is no TOML is `CatalogFault::NotToml` (N1), with the line at
/// which reading stops. Or `Memory` (N2).
pub fn read_document(alloc: Global, text: &str) -> Result<Value, CatalogFault>
    ensures { ReadsDocument result (document_of text.now) }
{
    match toml::table_from_str(alloc, text) {
        Ok(members) => Ok(Value::Table(members)),
        Err(fault) if fault.is_memory() => Err(CatalogFault::Memory),
        Err(fault) => Err(CatalogFault::NotToml(line_of(text, &fault))),
    }
}

/// The line where the reader stopped, from 1.
fn line_of(text: &str, fault: &toml::de::Error) -> usize {
    let read = match fault.span() {
        Some(span) => text.as_bytes().get(..span.start).unwrap_or(&[]),
        None => &[],
    };
    read.iter()
        .filter(|b| **b == b'\n')
        .count()
        .saturating_add(1)
}
