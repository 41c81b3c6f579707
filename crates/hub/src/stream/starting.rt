//! A START over the hub: where its slot, its publications and its reader come from.

ghost use Rattle.std.specs.Prelude.{◌≡◌, ◌<◌, IfOk};
ghost use Rattle.hub.specs.Streams.{IsStarted, asked_for};
ghost use Rattle.slots.specs.declared.table.TheConstants.{END_OF_PLACES};

use crate::connection::backend::name_of;
use crate::stream::grant::{StreamGrant, StreamParams};
use pqformat::Text;
use publication::PubFault;
use replcmd::StreamOptions;
use server::BackendFault;
use server_state::{ReaderSeat, ServerState};
use shared_log::LogName;
use slots::SlotName;
use std::sync::Wait;
use walsender::{ClaimFault, StartBackend};

/// What a START asks for, and of which hub.
#[derive(Drop)]
pub(crate) struct HubStart<'h, L: LogName + SlotName, R: Wait> {
    pub rt: &'h R,
    pub server_state: &'h ServerState<L>,
    pub slot: &'h str,
    pub options: &'h StreamOptions,
    pub position: u64,
    /// Who has proved its password, where one was asked.
    pub user: &'h Option<Text>,
}

impl<'h, L: LogName + SlotName, R: Wait> HubStart<'h, L, R> {
    /// Why its user may not start this, if it may not: `NotOwner` (A3) where the slot is another one's, `NotGranted` (A4) where a
    /// publication isn't granted.
    pub fn forbidden(&self) -> Option<BackendFault> {
        let server_state = self.server_state;
        if !server_state.is_open_to(self.rt, self.slot, name_of(self.user)) {
            return Some(BackendFault::NotOwner);
        }
        let names = self.options.publications.as_slice();
        if !server_state.may_follow(self.rt, name_of(self.user), names) {
            return Some(BackendFault::NotGranted);
        }
        None
    }

    /// Claims the slot, and makes what its stream is made of: what the START asks for, from its position on or from a later one that
    /// the slot has confirmed. Where that is refused, the reader is free again.
    fn granted(
        &self,
        slot: FoundSlot,
        reader_seat: ReaderSeat<L>,
    ) -> Result<StreamGrant<L>, ClaimFault>
        ensures place { IfOk result (λ grant. grant.hold.lease.place ≡ slot.place) }
        ensures started { IfOk result
            (λ grant. IsStarted
            (asked_for self.now.server_state.now.publications
            self.now.options.now.publications self.now.options.now)
            self.now.position self.now.server_state.now.settings.chunks
            grant.selection grant.start grant.arena) }
    {
        let server_state = self.server_state;
        let params = StreamParams {
            alloc: server_state.alloc,
            publications: &server_state.publications,
            names: self.options.publications.as_slice(),
            options: self.options,
            chunks: server_state.settings.chunks,
            was_full: server_state.was_full(self.rt, slot.place),
        };
        match StreamGrant::claim(
            &server_state.slots,
            reader_seat,
            slot.place,
            &params,
            self.position,
        ) {
            Ok(grant) => Ok(grant),
            Err((reader_seat, fault)) => {
                server_state.give_back(self.rt, reader_seat);
                Err(fault)
            }
        }
    }
}

/// The place of a slot that was found by its name.
#[derive(Clone, Copy, Drop)]
pub(crate) struct FoundSlot {
    place: usize,
    ghost low: { place < END_OF_PLACES },
}

impl<'h, L: LogName + SlotName, R: Wait> StartBackend for HubStart<'h, L, R> {
    type Slot = FoundSlot;

    type Reader = ReaderSeat<L>;

    type Grant = StreamGrant<L>;

    // Other connections ask the same hub in between, so of an answer nothing is told, but that the START stays what it is.
    ghost told = { λ old question new. new ≡ old };

    ghost granted = { λ start grant. IsStarted
        (asked_for start.server_state.now.publications start.options.now.publications start.options.now)
        start.position start.server_state.now.settings.chunks
        grant.selection grant.start grant.arena };

    fn find_slot(&mut self) -> Option<FoundSlot> {
        match self.server_state.place_of(self.rt, self.slot) {
            Some(place) => Some(FoundSlot { place }),
            None => None,
        }
    }

    fn judge(&mut self) -> Result<(), PubFault> {
        self.server_state
            .publications
            .judge(self.options.publications.as_slice())
    }

    fn take_reader(&mut self) -> Option<ReaderSeat<L>> {
        self.server_state.take_reader_seat(self.rt)
    }

    fn claim(
        &mut self,
        slot: FoundSlot,
        reader_seat: ReaderSeat<L>,
    ) -> Result<StreamGrant<L>, ClaimFault> {
        self.granted(slot, reader_seat)
    }
}
