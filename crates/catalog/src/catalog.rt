//! The tables that a publisher knows, found by OID or by name.

ghost use Rattle.std.specs.Prelude.{◌≡◌, IfSome, false};
ghost use Rattle.std.specs.List.{AllByRecursion};
ghost use Rattle.std.specs.Option.{option_copied};
ghost use Rattle.tables.specs.Tables.{AreCatalogued, IsTable, has_namesakes, oids_of, repeats, table_named, table_of};

use pqformat::Items;
use std::marker::Model;
use tables::Table;

/// The tables of a publisher. Contracts see the list of them. Each is named, and has at most 64 columns; no two have one OID or one name.
#[derive(Debug, Drop)]
pub struct Catalog {
    tables: Items<Table>,
}

impl Model for Catalog {
    ghost use Rattle.std.specs.Prelude.{List};
    ghost use Rattle.tables.specs.declared.table.Table.{Table};
    ghost use Rattle.tables.specs.Tables.{AreCatalogued};

    ghost Value = { List Table };

    ghost view = { λ c. c.tables };

    ghost invariant = { λ c. AreCatalogued c.tables };

    ghost inverse = { λ tables. record { tables = tables } };
}

impl Catalog {
    pub fn tables(&self) -> &[Table]
        ensures value { result.now ≡ self.now }
        ensures fits { AllByRecursion IsTable result.now }
        ensures each_once { repeats (oids_of result.now) ≡ false }
        ensures named_once { has_namesakes result.now ≡ false }
    {
        self.tables.as_slice()
    }

    /// The table of this OID; None where none has it.
    pub fn table(&self, oid: u32) -> Option<&Table>
        ensures { option_copied result ≡ table_of oid self.now }
    {
        self.tables.as_slice().iter().find(|table| table.oid == oid)
    }

    /// The table of this name: its schema, a dot and its own name. None where none has it.
    pub fn named(&self, name: &str) -> Option<&Table>
        ensures value { option_copied result ≡ table_named name.now self.now }
        ensures fits { IfSome result (λ table. IsTable table.now) }
    {
        let tables = self.tables.as_slice();
        tables.iter().find(|table| table.is_named(name))
    }

    pub(crate) fn of_tables(tables: Items<Table>) -> Self
        requires { AreCatalogued tables }
        ensures { result ≡ tables }
    {
        Catalog { tables }
    }
}
