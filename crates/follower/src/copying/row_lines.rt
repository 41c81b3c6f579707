//! The lines of a copied table, one by one.

use crate::copying::copied_row::cells_of;
use crate::copying::made_frames::MadeFrames;
use crate::fault::FollowFault;
use pgoutput::Relation;
use std::alloc::Global;

/// What has come of a line of a table's copy. Bytes may be cut anywhere.
#[derive(Drop)]
pub(crate) struct RowLines {
    alloc: Global,
    oid: u32,
    /// Without columns, a line is empty, and has no value.
    has_columns: bool,
    line: Vec<u8>,
}

impl RowLines {
    pub(crate) fn new(alloc: Global, table: &Relation) -> Self {
        RowLines {
            alloc,
            oid: table.oid,
            has_columns: !table.columns.is_empty(),
            line: Vec::new(alloc),
        }
    }

    /// Takes more bytes, and adds the rows whose lines end there. Faults as of `cells_of`.
    pub(crate) fn take(&mut self, bytes: &[u8], made: &mut MadeFrames) -> Result<(), FollowFault> {
        for byte in bytes {
            if *byte == b'\n' {
                self.end_line(made)?;
            } else {
                self.line.push(*byte)?;
            }
        }
        Ok(())
    }

    fn end_line(&mut self, made: &mut MadeFrames) -> Result<(), FollowFault> {
        let cells = if self.has_columns {
            cells_of(self.alloc, self.line.as_slice())?
        } else {
            Vec::new(self.alloc)
        };
        self.line.clear();
        made.add_row(self.oid, cells)
    }
}
