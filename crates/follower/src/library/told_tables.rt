//! What a server has told of its tables.

use crate::fault::FollowFault;
use crate::receiving::streamed::message_in;
use indexmap::IndexMap;
use pgoutput::{Logical, RELATION, Relation};
use std::alloc::{AllocError, Global};

/// The tables whose Relation has come, by OID.
#[derive(Drop)]
pub(crate) struct ToldTables {
    alloc: Global,
    tables: IndexMap<u32, Relation>,
}

impl ToldTables {
    pub(crate) fn new(alloc: Global) -> Self {
        ToldTables {
            alloc,
            tables: IndexMap::new(alloc),
        }
    }

    /// Keeps what a message tells of a table, if it tells of one.
    pub(crate) fn learn(&mut self, payload: &[u8]) -> Result<(), FollowFault> {
        if payload.first() != Some(&RELATION) {
            return Ok(());
        }
        match message_in(self.alloc, payload)? {
            Logical::Relation(relation) => Ok(self.tell(relation)?),
            other => {
                drop(other);
                Ok(())
            }
        }
    }

    fn tell(&mut self, relation: Relation) -> Result<(), AllocError> {
        self.tables.insert(relation.oid, relation)?;
        Ok(())
    }

    pub(crate) fn get(&self, oid: u32) -> Option<&Relation> {
        self.tables.get(&oid)
    }
}
