//! How many chunks of an arena the changes of transactions in progress take, by the records of the log alone.

use indexmap::IndexSet;
use shared_log::{LogName, LogReader};
use std::alloc::{AllocError, Global};
use std::sync::Arc;
use wal::{Body, Record};

/// How many bytes a chunk of an arena has, and how many an entry takes beside a change's body: a position, and a line.
const CHUNK: usize = 16_384;

const BESIDE_BODY: usize = 8 + 4;

/// How many records are looked at at once.
const BATCH: usize = 1024;

/// The most batches of a log.
const MOST_BATCHES: usize = 2048;

/// How many chunks the records that a reader sees take at most at once, from where a stream of this start position reads them: of all
/// changes, and of those that aren't rolled back later.
#[derive(Clone, Copy)]
pub(crate) struct ChunksNeeded {
    pub all: u32,
    pub kept: u32,
}

impl ChunksNeeded {
    /// None: the log lets nobody in, or there is no memory. The reader is left anywhere.
    pub fn of<L: LogName>(alloc: Global, reader: &mut LogReader<L>, start: u64) -> Option<Self> {
        let mut all = Demand::beside(IndexSet::new(alloc), alloc);
        all.look(alloc, reader, start, usize::MAX)?;
        let (looked, most) = (all.looked, all.most);
        let mut kept = Demand::beside(all.undone, alloc);
        kept.look(alloc, reader, start, looked)?;
        Some(ChunksNeeded {
            all: counted(most),
            kept: counted(kept.most),
        })
    }
}

fn counted(chunks: usize) -> u32 {
    u32::try_from(chunks).unwrap_or(u32::MAX)
}

/// The changes of an xid that no record has ended yet.
#[derive(Clone, Copy)]
struct Filled {
    xid: u32,
    /// The transaction that it is of.
    top: u32,
    chunks: usize,
    /// How many bytes of its last chunk are taken.
    used: usize,
}

/// What lies in an arena while records are read, but for changes of certain xids.
#[derive(Drop)]
struct Demand {
    left_out: IndexSet<u32>,
    filled: Vec<Filled>,
    /// The xids whose changes were rolled back.
    undone: IndexSet<u32>,
    now: usize,
    most: usize,
    /// How many records were looked at.
    looked: usize,
}

impl Demand {
    fn beside(left_out: IndexSet<u32>, alloc: Global) -> Self {
        Demand {
            left_out,
            filled: Vec::new(alloc),
            undone: IndexSet::new(alloc),
            now: 0,
            most: 0,
            looked: 0,
        }
    }

    /// Looks at the records that a stream of this start position reads, at so many at most.
    fn look<L: LogName>(
        &mut self,
        alloc: Global,
        reader: &mut LogReader<L>,
        start: u64,
        most: usize,
    ) -> Option<()> {
        reader.resume(start, usize::MAX).ok()?;
        for _ in 0..MOST_BATCHES {
            let left = most.saturating_sub(self.looked).min(BATCH);
            let records = reader.fetch(alloc, left).ok()?;
            if records.is_empty() {
                break;
            }
            self.take_all(&records).ok()?;
        }
        Some(())
    }

    fn take_all(&mut self, records: &[Arc<Record>]) -> Result<(), AllocError> {
        for record in records {
            self.take(&record.body)?;
        }
        Ok(())
    }

    fn take(&mut self, body: &Body) -> Result<(), AllocError> {
        self.looked = self.looked.saturating_add(1);
        match body {
            Body::Assign(sub, parent) => self.assign(*sub, *parent),
            Body::Change(xid, change) => self.add(*xid, change.body_len()),
            Body::AbortSub(xid) => {
                let top = self.top_of(*xid);
                self.end(top, *xid, true)
            }
            Body::Abort(top) => self.end(*top, 0, true),
            Body::Commit(top, _) => self.end(*top, 0, false),
            Body::Note(_) => Ok(()),
        }
    }

    fn place_of(&self, xid: u32) -> Option<usize> {
        // The changes of one xid mostly stand together.
        for place in (0..self.filled.len()).rev() {
            if self.filled[place].xid == xid {
                return Some(place);
            }
        }
        None
    }

    /// The transaction that an xid is of: itself, unless it is known under another.
    fn top_of(&self, xid: u32) -> u32 {
        let Some(place) = self.place_of(xid) else {
            return xid;
        };
        match self.filled.get(place) {
            Some(filled) => filled.top,
            None => xid,
        }
    }

    fn assign(&mut self, sub: u32, parent: u32) -> Result<(), AllocError> {
        let top = self.top_of(parent);
        Ok(
            self.filled.push(Filled {
                xid: sub,
                top,
                chunks: 0,
                used: CHUNK,
            })?,
        )
    }

    /// A change of an xid, whose body has so many bytes.
    fn add(&mut self, xid: u32, body: usize) -> Result<(), AllocError> {
        if self.left_out.contains(&xid) {
            return Ok(());
        }
        if self.place_of(xid).is_none() {
            self.assign(xid, xid)?;
        }
        if let Some(place) = self.place_of(xid) {
            self.fill(place, body.saturating_add(BESIDE_BODY));
        }
        Ok(())
    }

    fn fill(&mut self, place: usize, size: usize) {
        let Some(filled) = self.filled.get_mut(place) else {
            return;
        };
        let used = filled.used.saturating_add(size);
        if used <= CHUNK {
            filled.used = used;
            return;
        }
        filled.used = size;
        filled.chunks = filled.chunks.saturating_add(1);
        self.now = self.now.saturating_add(1);
        self.most = self.most.max(self.now);
    }

    /// The changes of a transaction's xids from this one on are over: sent, or rolled back. A later xid of it is under an earlier one
    /// that is rolled back, since that is open still.
    fn end(&mut self, top: u32, first: u32, is_undone: bool) -> Result<(), AllocError> {
        for place in (0..self.filled.len()).rev() {
            let Some(filled) = self.filled.get(place).copied() else {
                continue;
            };
            if filled.top != top || filled.xid < first {
                continue;
            }
            self.now = self.now.saturating_sub(filled.chunks);
            self.filled.swap_remove(place);
            if is_undone {
                self.undone.insert(filled.xid)?;
            }
        }
        Ok(())
    }
}
