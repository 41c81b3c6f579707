//! A publisher before its log has a name.

ghost use Rattle.std.specs.Prelude.{◌≡◌, ◌≤◌, ◌<◌, IfOk};
ghost use Rattle.txlog.specs.Publishing.{RefusedExactly, new_refusal};
ghost use Rattle.txlog.specs.declared.limits.TheConstants.{MAX_READERS, MAX_RECORDS};

use crate::answers::fault::SessionFault;
use crate::limits::{MAX_READERS, MAX_RECORDS};
use catalog::Catalog;
use std::alloc::Global;

/// What a publisher is opened with: `Publisher::open` names its log, and makes it and the readers.
#[derive(Drop)]
pub struct PublisherParts {
    pub(crate) alloc: Global,
    pub(crate) catalog: Catalog,
    pub(crate) capacity: usize,
    pub(crate) readers: usize,
    pub history: shared_log::EmptyHistory,
    ghost few: { capacity ≤ MAX_RECORDS },
    ghost read: { (0 < readers) × (readers ≤ MAX_READERS) },
}

impl PublisherParts {
    /// For a log of this many records, and this many readers. `NoReader` (S12) unless there are 1 to 2,048.
    pub fn new(
        alloc: Global,
        catalog: Catalog,
        records: usize,
        readers: usize,
    ) -> Result<Self, SessionFault>
        requires some { 1 ≤ records }
        requires few { records ≤ MAX_RECORDS }
        ensures ok { IfOk result
            (λ o. (o.catalog ≡ catalog) × (o.capacity ≡ records) × (o.readers ≡ readers)) }
        ensures refused { RefusedExactly (new_refusal readers) result }
    {
        PublisherParts::over(
            alloc,
            shared_log::EmptyHistory::new(),
            catalog,
            records,
            readers,
        )
    }

    /// The same over a history that is there, so that whoever made it may name the log. `NoReader` (S12) as there.
    pub fn over(
        alloc: Global,
        history: shared_log::EmptyHistory,
        catalog: Catalog,
        records: usize,
        readers: usize,
    ) -> Result<Self, SessionFault>
        requires some { 1 ≤ records }
        requires few { records ≤ MAX_RECORDS }
        ensures ok { IfOk result
            (λ o. (o.history ≡ history) × (o.catalog ≡ catalog) × (o.capacity ≡ records)
            × (o.readers ≡ readers)) }
        ensures refused { RefusedExactly (new_refusal readers) result }
    {
        if readers == 0 || readers > MAX_READERS {
            return Err(SessionFault::NoReader);
        }
        Ok(PublisherParts {
            alloc,
            catalog,
            capacity: records,
            readers,
            history,
        })
    }

    /// The same for another number of readers: at least one, and at most `MAX_READERS`.
    pub fn for_readers(mut self, readers: usize) -> Self
        ensures same { (result.history ≡ self.history) × (result.catalog ≡ self.catalog)
            × (result.capacity ≡ self.capacity) }
        ensures readers { 1 ≤ readers → readers ≤ MAX_READERS → result.readers ≡ readers }
    {
        self.readers = readers.max(1).min(MAX_READERS);
        self
    }
}
