//! A hub that is opened as a text says, or as values do.

use crate::fault::HubFault;
use crate::opening::document::document_of;
use crate::opening::hub_builder::HubBuilder;
use crate::opening::new_publication::NewPublication;
use crate::opening::new_table::NewTable;
use catalog::{Catalog, CatalogFault, read_document};
use pqformat::Text;
use publication::{PubFault, Publications};
use std::alloc::{AllocError, Global};
use thiserror::Error;
use toml::Value;
use txlog::MAX_RECORDS;

/// Why no hub is opened as a text or values say.
#[derive(Debug, Drop, Error)]
pub enum ConfigurationFault {
    #[error("{0}")]
    Tables(CatalogFault),
    #[error("{0}")]
    Publications(PubFault),
    #[error("a log has from 1 to 1048576 records")]
    Records,
    #[error("{0}")]
    Hub(HubFault),
}

impl From<AllocError> for ConfigurationFault {
    fn from(_e: AllocError) -> ConfigurationFault {
        ConfigurationFault::Hub(HubFault::Memory)
    }
}

impl HubBuilder {
    /// For the tables and publications of a text, as docs/CONFIGURATION.md tells them, the text by which the system names itself to
    /// clients, and a log of so many records. What is wrong is told in this order: `Tables`, `Publications`, `Records`, `Hub`.
    pub fn from_toml(
        alloc: Global,
        systemid: &str,
        configuration: &str,
        records: usize,
    ) -> Result<Self, ConfigurationFault> {
        let document = read_document(alloc, configuration).map_err(ConfigurationFault::Tables)?;
        HubBuilder::of_document(alloc, systemid, &document, records)
    }

    /// The same for tables and publications that are told by values. The tables have the OIDs from 16384 on.
    pub fn of_tables(
        alloc: Global,
        systemid: &str,
        tables: &[NewTable<'_>],
        publications: &[NewPublication<'_>],
        records: usize,
    ) -> Result<Self, ConfigurationFault> {
        let document = document_of(alloc, tables, publications)?;
        HubBuilder::of_document(alloc, systemid, &document, records)
    }

    fn of_document(
        alloc: Global,
        systemid: &str,
        document: &Value,
        records: usize,
    ) -> Result<Self, ConfigurationFault> {
        let catalog = Catalog::of_document(alloc, document).map_err(ConfigurationFault::Tables)?;
        match Publications::of_document(alloc, document, &catalog) {
            Ok(publications) => opened(alloc, systemid, catalog, publications, records),
            Err(fault) => {
                drop(catalog);
                Err(ConfigurationFault::Publications(fault))
            }
        }
    }
}

fn opened(
    alloc: Global,
    systemid: &str,
    catalog: Catalog,
    publications: Publications,
    records: usize,
) -> Result<HubBuilder, ConfigurationFault> {
    if !(1..=MAX_RECORDS).contains(&records) {
        drop(catalog);
        drop(publications);
        return Err(ConfigurationFault::Records);
    }
    match Text::copy_of(alloc, systemid) {
        Ok(systemid) => HubBuilder::new(alloc, catalog, publications, systemid, records).map_err(
            ConfigurationFault::Hub,
        ),
        Err(refused) => {
            drop(catalog);
            drop(publications);
            Err(ConfigurationFault::from(refused))
        }
    }
}
