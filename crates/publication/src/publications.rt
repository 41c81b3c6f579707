//! The publications of a publisher.

ghost use Rattle.std.specs.Prelude.{◌≡◌, ◌++◌, ◌∷◌, [], IfOk, IfErr, OnOk, Err, false, true, not, filter, drop};
ghost use Rattle.std.specs.List.{list_any, AllByRecursion};
ghost use Rattle.std.specs.Str.{bytes_eq};
ghost use Rattle.publication_config.specs.declared.fault.PubFault.{PubFault};
ghost use Rattle.toml.specs.View.{view};
ghost use Rattle.publication_config.specs.Config.{Configures, ReadsPublications, configured_by, publications_in};
ghost use Rattle.row_messages.specs.Relations.{FitsTable};
ghost use Rattle.publication_config.specs.Published.{conflicts};
ghost use Rattle.publication.specs.Choosing.{IsOfSelect, is_unknown, judgement_of_names, selected_publications};

use crate::selection::Selection;
use catalog::Catalog;
use pqformat::{Items, Text};
use publication_config::{PubFault, Publication, configured_by, conflict, named, publications_in};
use std::alloc::{AllocError, Global};
use std::marker::Model;
use tables::Table;
use toml::Value;

/// The publications of a publisher, over the tables of its catalogue.
///
/// A configuration names them, and `select` may be called any number of times. It changes nothing, whatever it answers.
#[derive(Drop)]
pub struct Publications {
    pub(crate) alloc: Global,
    pub(crate) tables: Items<Table>,
    pub(crate) publications: Items<Publication>,
}

impl Model for Publications {
    ghost use Rattle.std.specs.Prelude.{◌≡◌, false};
    ghost use Rattle.std.specs.Coded.{codes};
    ghost use Rattle.tables.specs.Tables.{oids_of, repeats};
    ghost use Rattle.publication_config.specs.Published.{PublicationSet, condition_code};
    ghost use Rattle.std.specs.List.{AllByRecursion};
    ghost use Rattle.row_messages.specs.Relations.{FitsTable};

    ghost Value = { PublicationSet };

    ghost coded = { Prim.hlevel (codes, condition_code (Prim.hlevel codes)) };

    ghost view = { λ p. record {
      tables = p.tables;
      publications = p.publications;
      messages = false;
    } };

    ghost invariant = { λ p. AllByRecursion FitsTable p.tables
        × (repeats (oids_of p.tables) ≡ false) };
}

impl Publications {
    /// The publications that the text of a configuration names over the tables of the catalogue, in its order. What a
    /// publication is told by stands in docs/CONFIGURATION.md. `NotToml` (P6) where it is no TOML; other faults are those of
    /// `of_document`.
    pub fn from_toml(alloc: Global, text: &str, catalog: &Catalog) -> Result<Self, PubFault>
        ensures { Configures result (configured_by catalog.now text.now) }
    {
        let publications = configured_by(alloc, text, catalog)?;
        Ok(Publications::over(alloc, catalog, publications)?)
    }

    /// The publications that the document of a configuration names over the tables of the catalogue. The first fault is
    /// answered: `BadToml` (P6), `BadFilter` (P8), `NoIdentity` (P5), `ListWithoutIdentity` (P4) or `FilterOutsideIdentity`
    /// (P3), as docs/CONFIGURATION.md tells them. Or `Memory` (P7).
    pub fn of_document(alloc: Global, document: &Value, catalog: &Catalog) -> Result<Self, PubFault>
        ensures { ReadsPublications result (publications_in catalog.now (view document.now)) }
    {
        let publications = publications_in(alloc, document, catalog)?;
        Ok(Publications::over(alloc, catalog, publications)?)
    }

    /// These publications, over the tables of the catalogue.
    #[tactic(auto, using(crate::proofs::Catalogued::all_fit))]
    fn over(
        alloc: Global,
        catalog: &Catalog,
        publications: Items<Publication>,
    ) -> Result<Self, AllocError>
        ensures { IfOk result
            (λ p. p
            ≡ record { tables = catalog.now; publications = publications; messages = false }) }
    {
        Ok(Publications {
            alloc,
            tables: copies(alloc, catalog.tables())?,
            publications,
        })
    }

    /// The publications of these names, each once. A name that no publication has is `Unknown` (P1); two of them that have
    /// different column lists for one table are `ListConflict` (P2, PostgreSQL 15, 31.4), a table without a list having all
    /// columns. Or `Memory` (P7).
    pub fn select(&self, names: &[Text]) -> Result<Selection, PubFault>
        ensures ok { IfOk result (λ s. s ≡ selected_publications self.now names.now) }
        ensures known { IfOk result (λ s. is_unknown self.now names.now ≡ false) }
        ensures agree { IfOk result (λ s. conflicts s.publications ≡ false) }
        ensures unknown { result ≡ Err PubFault.Unknown → is_unknown self.now names.now ≡ true }
        ensures conflict { result ≡ Err PubFault.ListConflict →
            (is_unknown self.now names.now ≡ false)
            × (conflicts (selected_publications self.now names.now).publications ≡ true) }
        ensures memory { result ≡ Err PubFault.Memory →
            (is_unknown self.now names.now ≡ false)
            × (conflicts (selected_publications self.now names.now).publications ≡ false) }
        ensures only { IfErr result IsOfSelect }
    {
        self.judge(names)?;
        let publications = named(self.alloc, self.publications.as_slice(), names)?;
        let tables = copies(self.alloc, self.tables.as_slice())?;
        Ok(Selection::new(self.alloc, tables, publications)?)
    }

    /// Why these names select nothing, if they don't: `Unknown` (P1), or else `ListConflict` (P2). It takes no memory.
    pub fn judge(&self, names: &[Text]) -> Result<(), PubFault>
        ensures { result ≡ judgement_of_names self.now names.now }
    {
        if self.lacks_one(names) {
            return Err(PubFault::Unknown);
        }
        if conflict(self.publications.as_slice(), names) {
            return Err(PubFault::ListConflict);
        }
        Ok(())
    }

    /// Whether one of the names is no publication's.
    fn lacks_one(&self, names: &[Text]) -> bool
        ensures { result ≡ is_unknown self.now names.now }
    {
        names.iter().any(|name| !self.has(name))
    }

    fn has(&self, name: &Text) -> bool
        ensures { result ≡ list_any (λ p. bytes_eq p.name name.now) self.now.publications }
    {
        self.publications
            .as_slice()
            .iter()
            .any(|p| p.name.as_str() == name.as_str())
    }
}

pub(crate) fn copies(alloc: Global, tables: &[Table]) -> Result<Items<Table>, AllocError>
    ensures { IfOk result (λ ts. ts ≡ tables.now) }
{
    let mut copies = Vec::with_capacity(alloc, tables.len())?;
    match copy_into(alloc, &mut copies, tables) {
        Ok(()) => Ok(Items::new(copies)),
        Err(refused) => {
            // Let go by one call, which keeps the proof short.
            drop(copies);
            Err(refused)
        }
    }
}

fn copy_into(alloc: Global, copies: &mut Vec<Table>, tables: &[Table]) -> Result<(), AllocError>
    ensures { OnOk result (copies.new.items ≡ copies.old.items ++ tables.now) }
{
    for table in tables {
        copies.push(table.copy(alloc)?)?;
    }
    Ok(())
}
