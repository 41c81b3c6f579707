//! The rows of the tables that are followed.

use anyhow::Result;
use follower::{Change, FollowFault, Row, Transaction};
use std::alloc::{AllocError, Global};
use std::collections::BTreeMap;
use std::io::Print;

/// The values of a row, or those of its key, in the order of the columns: null, or a text.
type Values = Vec<Option<String>>;

/// The rows as they are once all that ends up to a position is applied. Their keys have at most 2,000 bytes: a longer text that stays isn't
/// sent again, and then the key isn't known.
#[derive(Drop)]
pub struct Cache {
    pub alloc: Global,
    /// By the OID of the table and the values of the key.
    rows: BTreeMap<(u32, Values), Values>,
    /// The system that is followed, once it is known.
    pub system: Option<String>,
    /// All that ends up to there is applied.
    pub position: u64,
    /// How many transactions are applied.
    pub transactions: u32,
}

impl Cache {
    pub fn new(alloc: Global) -> Self {
        Cache {
            alloc,
            rows: BTreeMap::new(alloc),
            system: None,
            position: 0,
            transactions: 0,
        }
    }

    /// Does what a transaction did.
    pub fn apply(&mut self, transaction: &Transaction<'_>) -> Result<(), FollowFault> {
        for change in transaction.changes() {
            self.change(&transaction.read(change)?)?;
        }
        self.position = transaction.end();
        self.transactions = self.transactions.saturating_add(1);
        Ok(())
    }

    fn change(&mut self, change: &Change<'_>) -> Result<(), AllocError> {
        match change {
            Change::Insert(row) => self.put(row, &[])?,
            Change::Update(old, new) => {
                let before = self.take(old.as_ref().unwrap_or(new))?;
                self.put(new, before.as_slice())?;
            }
            Change::Delete(row) => drop(self.take(row)?),
            Change::Truncate(oids) => self.rows.retain(|key, _| !oids.contains(&key.0)),
            Change::Message(_) => {}
        }
        Ok(())
    }

    /// Puts a row in, in the place of one with the values before.
    fn put(&mut self, row: &Row<'_>, before: &[Option<String>]) -> Result<(), AllocError> {
        let values = row.values(self.alloc, before)?;
        let key = self.key(row, values.as_slice())?;
        self.rows.insert(key, values)?;
        Ok(())
    }

    /// Takes the row of this key out, and answers its values.
    fn take(&mut self, row: &Row<'_>) -> Result<Values, AllocError> {
        let values = row.values(self.alloc, &[])?;
        let key = self.key(row, values.as_slice())?;
        Ok(self.rows.remove(&key).unwrap_or(Vec::new(self.alloc)))
    }

    /// The table of a row, and those of its values that are of the key.
    fn key(&self, row: &Row<'_>, values: &[Option<String>]) -> Result<(u32, Values), AllocError> {
        let mut key = Vec::new(self.alloc);
        for (column, value) in row.table().columns.as_slice().iter().zip(values) {
            if column.is_key {
                key.push(value.clone()?)?;
            }
        }
        Ok((row.table().oid, key))
    }

    /// Prints each row on a line, after the OID of its table.
    pub fn print<R: Print>(&self, rt: &R) -> Result<()> {
        for (key, values) in &self.rows {
            println!(rt; "{} {values:?}", key.0)?;
        }
        Ok(())
    }
}
