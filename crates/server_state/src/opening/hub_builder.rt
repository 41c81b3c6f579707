//! What a hub is opened with.

ghost use Rattle.std.specs.Prelude.{◌≡◌, ◌≤◌};
ghost use Rattle.txlog.specs.declared.limits.TheConstants.{MAX_RECORDS};

use crate::disk::identity::identity_of;
use crate::fault::HubFault;
use crate::opening::settings::HubSettings;
use crate::opening::system::SystemName;
use catalog::Catalog;
use connections::Users;
use pqformat::Text;
use publication::Publications;
use segments::Entry;
use slots::OpenedSlots;
use std::alloc::Global;
use std::time::Duration;
use txlog::PublisherParts;

/// How many chunks the arena of a stream has, unless another number is set: a mebibyte.
const CHUNKS: u32 = 64;

/// For how many seconds the client of a stream may be silent, unless another time is set: PostgreSQL's default (PostgreSQL 15,
/// 20.6.1).
const WAL_SENDER_TIMEOUT: u64 = 60;

/// For how many seconds a startup may take, unless another time is set: PostgreSQL's default (PostgreSQL 15, 20.3).
const AUTHENTICATION_TIMEOUT: u64 = 60;

/// How many connections may be served at once, unless another number is set: PostgreSQL's default (PostgreSQL 15, 20.3).
const MAX_CONNECTIONS: u32 = 100;

/// How many slots there may be at once, unless another number is set.
const MAX_REPLICATION_SLOTS: u32 = 16;

/// How many streams may run at once, unless another number is set.
const MAX_WAL_SENDERS: u32 = 16;

/// What a hub is opened with: `Hub::open` names its log and its slots, and makes it.
#[derive(Drop)]
pub struct HubBuilder {
    pub(crate) alloc: Global,
    pub(crate) publications: Publications,
    pub(crate) system: SystemName,
    /// Whose log it is, as its file tells it: see `HubBuilder::identity`.
    pub(crate) identity: Text,
    pub log: PublisherParts,
    pub slots: OpenedSlots,
    pub settings: HubSettings,
    /// Those that may connect by their passwords: everyone without one, unless it is set.
    pub users: Option<Users>,
    /// Those of a file by which the log and its slots go on, where they are kept in one. `Hub::keep` has to run then: before that
    /// nothing is on the disk, and commits wait.
    pub entries: Option<Vec<Entry>>,
}

impl HubBuilder {
    /// For these tables, these publications over them, the text by which the system names itself to clients, and a log of so
    /// many records. `LongName` where that text is too long for an answer, then `Memory`.
    pub fn new(
        alloc: Global,
        catalog: Catalog,
        publications: Publications,
        systemid: Text,
        records: usize,
    ) -> Result<Self, HubFault>
        requires some { 1 ≤ records }
        requires few { records ≤ MAX_RECORDS }
    {
        match Parts::new(alloc, catalog, systemid, records) {
            Ok(
                Parts {
                    system,
                    identity,
                    log,
                    slots,
                },
            ) => Ok(HubBuilder {
                alloc,
                publications,
                system,
                identity,
                log,
                slots,
                settings: settings_for(records),
                users: None,
                entries: None,
            }),
            Err(fault) => {
                drop(publications);
                Err(fault)
            }
        }
    }

    /// The text by which a file of this log is known: the system's name and its tables, a line each.
    pub fn identity(&self) -> &str
        ensures { result.now ≡ self.now.identity }
    {
        self.identity.as_str()
    }
}

/// What is made as a hub is opened: the system's name, its log and its slots.
#[derive(Drop)]
struct Parts {
    system: SystemName,
    identity: Text,
    log: PublisherParts,
    slots: OpenedSlots,
}

impl Parts {
    fn new(
        alloc: Global,
        catalog: Catalog,
        systemid: Text,
        records: usize,
    ) -> Result<Self, HubFault>
        requires some { 1 ≤ records }
        requires few { records ≤ MAX_RECORDS }
    {
        let Some(system) = SystemName::new(systemid) else {
            drop(catalog);
            return Err(HubFault::LongName);
        };
        let Ok(identity) = identity_of(alloc, system.as_str(), &catalog) else {
            drop(catalog);
            drop(system);
            return Err(HubFault::Memory);
        };
        match log_and_slots(alloc, catalog, records) {
            Ok((log, slots)) => Ok(Parts {
                system,
                identity,
                log,
                slots,
            }),
            Err(fault) => {
                drop(system);
                drop(identity);
                Err(fault)
            }
        }
    }
}

fn log_and_slots(
    alloc: Global,
    catalog: Catalog,
    records: usize,
) -> Result<(PublisherParts, OpenedSlots), HubFault>
    requires some { 1 ≤ records }
    requires few { records ≤ MAX_RECORDS }
{
    let log = log_of(alloc, catalog, records)?;
    match OpenedSlots::new(alloc) {
        Ok(slots) => Ok((log, slots)),
        Err(_) => {
            drop(log);
            Err(HubFault::Memory)
        }
    }
}

/// What is set unless it is set otherwise, for a log of so many records.
fn settings_for(records: usize) -> HubSettings {
    HubSettings {
        wal_sender_timeout: Duration::from_secs(WAL_SENDER_TIMEOUT),
        authentication_timeout: Duration::from_secs(AUTHENTICATION_TIMEOUT),
        max_connections: MAX_CONNECTIONS,
        connections: None,
        max_replication_slots: MAX_REPLICATION_SLOTS,
        max_wal_senders: MAX_WAL_SENDERS,
        chunks: CHUNKS,
        answers_postgresql: false,
        allows_start_ahead: false,
        max_slot_keep: None,
        synchronous_commit: true,
        capacity: records,
    }
}

fn log_of(alloc: Global, catalog: Catalog, records: usize) -> Result<PublisherParts, HubFault>
    requires some { 1 ≤ records }
    requires few { records ≤ MAX_RECORDS }
{
    match PublisherParts::new(alloc, catalog, records, 1) {
        Ok(log) => Ok(log),
        Err(_) => Err(HubFault::Memory),
    }
}
