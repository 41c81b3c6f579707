//! The publications of a configuration, which is a TOML text. Its form is told in docs/CONFIGURATION.md.

ghost use Rattle.std.specs.Prelude.{◌≡◌, [], option_map};
ghost use Rattle.toml.specs.View.{view, items_view};
ghost use Rattle.publication_config.specs.Config.{Configures, Reads, ReadsPublications, configured_by, fault_of, publications_after, publications_in, publications_of, set_over};

use crate::document::config_fault::{ConfigRefusal, PublicationMisfit, UnreadPublication};
use crate::document::config_publication::publication_in;
use crate::fault::PubFault;
use crate::publication::Publication;
use catalog::{Catalog, CatalogFault, read_document};
use pqformat::Items;
use std::alloc::Global;
use toml::Value;

/// The publications that the text of a configuration names over the tables of the catalogue, in its order. A text that is no
/// TOML is `NotToml` (P6). Other faults are those of `publications_in`.
#[tactic(auto, using(crate::proofs::Configured::configured))]
pub fn configured_by(
    alloc: Global,
    text: &str,
    catalog: &Catalog,
) -> Result<Items<Publication>, PubFault>
    ensures { Configures (set_over catalog.now result) (configured_by catalog.now text.now) }
{
    match read_document(alloc, text) {
        Ok(document) => publications_in(alloc, &document, catalog),
        Err(CatalogFault::NotToml(line)) => Err(PubFault::NotToml(line)),
        Err(_) => Err(PubFault::Memory),
    }
}

/// The publications that the document of a configuration names over the tables of the catalogue. The first fault is answered:
/// `BadToml` (P6) where something is told otherwise than docs/CONFIGURATION.md says, `BadFilter` (P8) where a text is no filter
/// of its table. Where updates or deletes are published, `NoIdentity` (P5) for a table without one (PostgreSQL 15, 31.1),
/// `ListWithoutIdentity` (P4) for columns that lack one of it (31.4), `FilterOutsideIdentity` (P3) for a filter that names
/// another column (31.3.1). Or `Memory` (P7).
#[tactic(auto, using(crate::proofs::Configured::refused_so))]
pub fn publications_in(
    alloc: Global,
    document: &Value,
    catalog: &Catalog,
) -> Result<Items<Publication>, PubFault>
    ensures { ReadsPublications (set_over catalog.now result)
        (publications_in catalog.now (view document.now)) }
{
    match publications_of(alloc, catalog, document.get("publication")) {
        Ok(publications) => Ok(publications),
        Err(UnreadPublication::Refused(refusal)) => Err(fault_of(refusal)),
        Err(UnreadPublication::Memory) => Err(PubFault::Memory),
    }
}

/// The publications of a document, by its member `publication`.
fn publications_of(
    alloc: Global,
    catalog: &Catalog,
    member: Option<&Value>,
) -> Result<Items<Publication>, UnreadPublication>
    ensures { Reads result
        (publications_of catalog.now (option_map (λ v. view v.now) member.entry)) }
{
    let Some(value) = member else {
        return Ok(Items::new(Vec::new(alloc)));
    };
    let Some(values) = value.as_array() else {
        return Err(UnreadPublication::Refused(ConfigRefusal::Misfit(PublicationMisfit::NoList)));
    };
    publications_after(alloc, catalog, values.as_slice())
}

fn publications_after(
    alloc: Global,
    catalog: &Catalog,
    values: &[Value],
) -> Result<Items<Publication>, UnreadPublication>
    ensures { Reads result (publications_after catalog.now [] (items_view values.now)) }
{
    let mut publications = Vec::new(alloc);
    for value in values {
        let number = publications.len() + 1;
        let publication = publication_in(alloc, number, catalog, publications.as_slice(), value)?;
        publications.push(publication)?;
    }
    Ok(Items::new(publications))
}

/// The fault of a refusal.
fn fault_of(refusal: ConfigRefusal) -> PubFault
    ensures { result ≡ fault_of refusal }
{
    match refusal {
        ConfigRefusal::Misfit(misfit) => PubFault::BadToml(misfit),
        ConfigRefusal::BadFilter(place, fault) => PubFault::BadFilter(place, fault),
        ConfigRefusal::NoIdentity(place) => PubFault::NoIdentity(place),
        ConfigRefusal::ListWithoutIdentity(place) => PubFault::ListWithoutIdentity(place),
        ConfigRefusal::FilterOutsideIdentity(place) => PubFault::FilterOutsideIdentity(place),
    }
}
