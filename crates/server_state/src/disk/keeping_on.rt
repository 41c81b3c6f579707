//! Who puts a log and its slots on the disk, in rounds.

ghost use Rattle.std.specs.Prelude.{◌≡◌, ◌≤◌, OnOk};

use crate::disk::disk_state::Round;
use crate::disk::durability::Durability;
use crate::disk::keeper_place::KeeperPlace;
use crate::disk::slot_journal::{SlotJournal, Standing};
use crate::kept::log_size::LogSize;
use crate::server_state::ServerState;
use crate::streams::spreading::Woken;
use connections::SlotStanding;
use pqformat::Text;
use segments::{KeepFault, KeptSlot, LogKeeper, Segment, SegmentFault, SlotEvent};
use shared_log::LogName;
use slots::SlotName;
use sqlite_disk::Disk;
use std::alloc::{AllocError, Global};
use std::mem;
use std::sync::Wait;
use std::time::{Clock, Duration};

/// How often at least it is written up to where slots are confirmed, in milliseconds.
const SLOT_PERIOD: u64 = 500;

/// How many records are written at a time.
const RECORDS: usize = 1_024;

impl<L: LogName + SlotName> ServerState<L> {
    /// Puts what is written into this segment, until `end_keeping` is called: all that there is then, too. The segment is the one whose
    /// entries it was opened with. An error of a write or a sync is answered at once, and commits are refused from then on; `Behind`
    /// where it wasn't opened to be kept.
    pub fn keep<D: Disk + Drop, R: Wait + Clock>(
        &self,
        rt: &R,
        segment: Segment<D>,
    ) -> Result<(), KeepFault> {
        let Some(durability) = &self.durability else {
            drop(segment);
            return Err(KeepFault::Behind);
        };
        let place = mem::replace(&mut *self.keeper_place.lock(rt), None);
        let kept = self.keep_from(rt, durability, segment, place);
        if kept.is_err() {
            durability.fail(rt);
        }
        durability.close(rt);
        kept
    }

    fn keep_from<D: Disk + Drop, R: Wait + Clock>(
        &self,
        rt: &R,
        durability: &Durability,
        segment: Segment<D>,
        place: Option<KeeperPlace<L>>,
    ) -> Result<(), KeepFault> {
        let Some(KeeperPlace { reader, count, end }) = place else {
            drop(segment);
            return Err(KeepFault::Behind);
        };
        let mut keeper = LogKeeper::resume(self.alloc, segment, reader, end, count)?;
        self.keep_on(rt, durability, &mut keeper)
    }

    /// The server ends: what is there is put on the disk, and then `keep` ends. Nothing more is written by then.
    pub fn end_keeping<R: Wait>(&self, rt: &R) {
        if let Some(durability) = &self.durability {
            durability.end(rt);
        }
    }

    fn keep_on<D: Disk + Drop, R: Wait + Clock>(
        &self,
        rt: &R,
        durability: &Durability,
        keeper: &mut LogKeeper<D, L>,
    ) -> Result<(), KeepFault> {
        let mut told = rt.monotonic().ok();
        for _ in rt.forever() {
            let round = durability.begin_round(rt, Duration::from_millis(SLOT_PERIOD));
            let now = rt.monotonic().ok();
            let is_due = is_due(told, now);
            if is_due {
                told = now;
            }
            self.take_round(rt, durability, keeper, round, is_due)?;
            if round.is_last {
                break;
            }
        }
        Ok(())
    }

    /// Puts all on the disk that there is, and slots where they are due or waited for.
    fn take_round<D: Disk + Drop, R: Wait>(
        &self,
        rt: &R,
        durability: &Durability,
        keeper: &mut LogKeeper<D, L>,
        round: Round,
        is_due: bool,
    ) -> Result<(), KeepFault> {
        if is_due || round.wants_slots || round.is_last {
            let journal = self.journal_now(rt)?;
            let events = self.events_since(rt, &journal)?;
            let size = self.size(rt);
            put_on_disk(rt, self.alloc, keeper, events.as_slice(), size)?;
            *self.journal.lock(rt) = journal;
            self.end_round(rt, durability, size);
        } else {
            let size = self.size(rt);
            put_on_disk(rt, self.alloc, keeper, &[], size)?;
            self.end_round(rt, durability, size);
        }
        Ok(())
    }

    fn size<R: Wait>(&self, rt: &R) -> LogSize {
        *self.log_size.lock(rt)
    }

    /// The log of this size is on the disk: sessions and streams go on.
    fn end_round<R: Wait>(&self, rt: &R, durability: &Durability, size: LogSize) {
        durability.end_round(rt, size.count, size.end);
        Woken::all(rt, &self.latches, size.end);
    }

    fn events_since<R: Wait>(
        &self,
        rt: &R,
        journal: &SlotJournal,
    ) -> Result<Vec<SlotEvent>, AllocError> {
        journal.since(self.alloc, &*self.journal.lock(rt))
    }

    /// How slots stand now. No slot is made or dropped meanwhile.
    pub(crate) fn journal_now<R: Wait>(&self, rt: &R) -> Result<SlotJournal, AllocError> {
        let names = self.names.lock(rt);
        let mut journal = SlotJournal::new(self.alloc);
        for monitor in &self.monitors {
            let standing = match monitor.standing(rt, self.alloc)? {
                Some(known) => {
                    let owner = names.owner_of(self.alloc, known.name.as_str())?;
                    Some(standing_of(known, owner))
                }
                None => None,
            };
            journal.places.push(standing)?;
        }
        drop(names);
        Ok(journal)
    }
}

fn standing_of(known: SlotStanding, owner: Option<Text>) -> Standing {
    Standing {
        number: known.number,
        slot: KeptSlot {
            name: known.name,
            owner,
            confirmed: known.confirmed,
            is_lost: known.is_lost,
        },
    }
}

/// Whether slots were told so long ago that they are to be told again.
fn is_due(told: Option<Duration>, now: Option<Duration>) -> bool {
    match (told, now) {
        (Some(told), Some(now)) => {
            Duration::from_millis(SLOT_PERIOD) <= now.saturating_sub(told)
        }
        _ => true,
    }
}

/// Puts the records of a log of this size on the disk, and after them these events. Where all is there it does nothing.
fn put_on_disk<D: Disk + Drop, L: LogName, R: Wait>(
    rt: &R,
    alloc: Global,
    keeper: &mut LogKeeper<D, L>,
    events: &[SlotEvent],
    size: LogSize,
) -> Result<(), KeepFault>
    ensures reached { OnOk result (size.count ≤ keeper.new.reader.place) }
{
    if size.count <= keeper.place() && events.is_empty() {
        return Ok(());
    }
    write_records(rt, alloc, keeper, size.count)?;
    write_events(keeper, events)?;
    keeper.sync()?;
    Ok(())
}

/// Writes up to this record at least, which the log has.
fn write_records<D: Disk + Drop, L: LogName, R: Wait>(
    rt: &R,
    alloc: Global,
    keeper: &mut LogKeeper<D, L>,
    count: usize,
) -> Result<(), KeepFault>
    ensures { OnOk result (count ≤ keeper.new.reader.place) }
{
    for _ in rt.forever() {
        if count <= keeper.place() {
            return Ok(());
        }
        keeper.write_on(alloc, RECORDS)?;
    }
    Err(KeepFault::Behind)
}

fn write_events<D: Disk + Drop, L: LogName>(
    keeper: &mut LogKeeper<D, L>,
    events: &[SlotEvent],
) -> Result<(), SegmentFault>
    ensures { keeper.new.reader ≡ keeper.old.reader }
{
    for event in events {
        keeper.write_event(event)?;
    }
    Ok(())
}
