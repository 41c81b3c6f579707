//! The backend of a connection over the hub.

use crate::connection::session_copies::SessionCopies;
use crate::stream::granting::{begin_stream, end_stream};
use crate::stream::new_stream::NewStream;
use crate::stream::starting::HubStart;
use connections::{ConnectionMailbox, RefusedCommand, ServerObserver};
use pqformat::{Items, Text};
use replcmd::StreamOptions;
use server::{Backend, BackendFault, FoundTable, Refusal, TableAttribute, TableColumns, TableName};
use server_state::{
    ServerState, attributes_of, column_lists, columns_of, found_table, known_names, row_filters,
    tables_of,
};
use shared_log::LogName;
use slots::SlotName;
use std::net::TcpStream;
use std::sync::Wait;
use std::time::Clock;

/// What a connection asks of its hub. A stream that begins, and statuses, go to the connection's mailbox; what is refused is told to the
/// observer.
#[derive(Drop)]
pub(crate) struct HubBackend<'h, L: LogName + SlotName, R: Wait, G: ServerObserver> {
    pub rt: &'h R,
    pub server_state: &'h ServerState<L>,
    pub mailbox: &'h ConnectionMailbox<NewStream<L>>,
    pub observer: &'h G,
    /// The connection's number.
    pub number: u32,
    pub socket: &'h TcpStream,
    /// Who has proved its password, where one was asked.
    pub user: &'h Option<Text>,
    /// The latch of the stream that runs.
    pub latch: Option<usize>,
    pub copies: SessionCopies,
}

impl<'h, L: LogName + SlotName, R: Wait, G: ServerObserver> HubBackend<'h, L, R, G> {
    /// Whether its user may follow these publications.
    fn judge(&self, names: &[Text]) -> Result<(), BackendFault> {
        if self
            .server_state
            .may_follow(self.rt, name_of(self.user), names)
        {
            Ok(())
        } else {
            Err(BackendFault::NotGranted)
        }
    }

    /// Tells the observer of a slot that could not be dropped, unless it is one that a subscriber drops whether it is there or not.
    fn tell_drop(&self, slot: &str, dropped: &Result<(), BackendFault>) {
        if let Err(fault) = dropped {
            if *fault == BackendFault::SlotMissing && is_of_copy(slot) {
                return;
            }
            let what = RefusedCommand::OfSlot("DROP_REPLICATION_SLOT", slot, *fault);
            self.observer.refused(self.number, &what);
        }
    }
}

impl<'h, L: LogName + SlotName, R: Wait + Clock, G: ServerObserver> Backend
    for HubBackend<'h, L, R, G> {
    // Other connections ask the same hub in between, so of a call nothing is told.
    ghost told = { λ old call new. Unit {0} };

    fn end(&mut self) -> u64 {
        self.server_state.end_of_log(self.rt)
    }

    fn systemid(&self) -> &str {
        self.server_state.system.as_str()
    }

    fn create(&mut self, slot: &str) -> Result<u64, BackendFault> {
        let created = self
            .server_state
            .create_slot(self.rt, slot, name_of(self.user));
        if let Err(fault) = &created {
            let what = RefusedCommand::OfSlot("CREATE_REPLICATION_SLOT", slot, *fault);
            self.observer.refused(self.number, &what);
        }
        created
    }

    fn create_with_snapshot(&mut self, slot: &str) -> Result<u64, BackendFault> {
        let user = name_of(self.user);
        match self
            .server_state
            .create_slot_with_snapshot(self.rt, slot, user)
        {
            Ok(made) => {
                self.copies.release(self.rt, self.server_state);
                self.copies.snapshot = Some(made.snapshot);
                Ok(made.consistent_point)
            }
            Err(fault) => {
                let what = RefusedCommand::OfSlot("CREATE_REPLICATION_SLOT", slot, fault);
                self.observer.refused(self.number, &what);
                Err(fault)
            }
        }
    }

    fn release_snapshot(&mut self) {
        self.copies.release(self.rt, self.server_state);
    }

    fn table(&mut self, schema: &str, name: &str) -> Result<Option<FoundTable>, BackendFault> {
        Ok(found_table(&self.server_state.publications, schema, name))
    }

    fn attributes(&mut self, oid: u32) -> Result<Items<TableAttribute>, BackendFault> {
        let state = self.server_state;
        match attributes_of(state.alloc, &state.publications, oid) {
            Ok(attributes) => Ok(attributes),
            Err(_) => Err(BackendFault::Memory),
        }
    }

    fn column_lists(
        &mut self,
        oid: u32,
        names: &Items<Text>,
    ) -> Result<Items<Option<Items<u16>>>, BackendFault> {
        self.judge(names.as_slice())?;
        let state = self.server_state;
        match column_lists(state.alloc, &state.publications, oid, names.as_slice()) {
            Ok(lists) => Ok(lists),
            Err(_) => Err(BackendFault::Memory),
        }
    }

    fn row_filters(
        &mut self,
        oid: u32,
        names: &Items<Text>,
    ) -> Result<Items<Option<Text>>, BackendFault> {
        self.judge(names.as_slice())?;
        let state = self.server_state;
        match row_filters(state.alloc, &state.publications, oid, names.as_slice()) {
            Ok(filters) => Ok(filters),
            Err(_) => Err(BackendFault::Memory),
        }
    }

    fn open_copy(
        &mut self,
        table: &TableName,
        columns: &Items<Text>,
        filter: &Option<Text>,
    ) -> Result<(), BackendFault> {
        self.copies.copy = None;
        let Some(snapshot) = self.copies.snapshot else {
            return Err(BackendFault::NoCopies);
        };
        let filter = filter.as_ref().map(|text| text.as_str());
        let copy = self.server_state.open_copy(
            self.rt,
            snapshot,
            name_of(self.user),
            table,
            columns.as_slice(),
            filter,
        )?;
        self.copies.copy = Some(copy);
        Ok(())
    }

    fn next_row(&mut self) -> Result<Option<Items<Option<Text>>>, BackendFault> {
        match &mut self.copies.copy {
            Some(copy) => self.server_state.next_row(self.rt, copy),
            None => Ok(None),
        }
    }

    fn drop_slot(&mut self, slot: &str) -> Result<(), BackendFault> {
        let dropped = self
            .server_state
            .drop_slot(self.rt, slot, name_of(self.user));
        self.tell_drop(slot, &dropped);
        dropped
    }

    fn publications(&mut self, names: &Items<Text>) -> Result<Items<Text>, BackendFault> {
        self.judge(names.as_slice())?;
        match known_names(
            self.server_state.alloc,
            &self.server_state.publications,
            names.as_slice(),
        ) {
            Ok(known) => Ok(known),
            Err(_) => Err(BackendFault::Memory),
        }
    }

    fn tables(&mut self, names: &Items<Text>) -> Result<Items<TableName>, BackendFault> {
        self.judge(names.as_slice())?;
        tables_of(
            self.server_state.alloc,
            &self.server_state.publications,
            names.as_slice(),
        )
    }

    fn columns(&mut self, names: &Items<Text>) -> Result<Items<TableColumns>, BackendFault> {
        self.judge(names.as_slice())?;
        columns_of(
            self.server_state.alloc,
            &self.server_state.publications,
            names.as_slice(),
        )
    }

    fn drop_when_free(&mut self, slot: &str) -> Result<(), BackendFault> {
        let dropped = self
            .server_state
            .drop_when_free(self.rt, slot, name_of(self.user), self.socket);
        self.tell_drop(slot, &dropped);
        dropped
    }

    fn start(
        &mut self,
        slot: &str,
        position: u64,
        options: &StreamOptions,
    ) -> Result<(), BackendFault> {
        let mut start = HubStart {
            rt: self.rt,
            server_state: self.server_state,
            slot,
            options,
            position,
            user: self.user,
        };
        match begin_stream(&mut start) {
            Ok(stream) => {
                self.latch = Some(stream.latch());
                self.server_state.sockets.begin_stream(self.rt, self.number);
                if let Some(unwritten) = self.mailbox.begin(self.rt, stream) {
                    end_stream(self.rt, self.server_state, unwritten.begin());
                }
                Ok(())
            }
            Err(fault) => {
                let names = options.publications.as_slice();
                let what = RefusedCommand::Start(slot, names, fault);
                self.observer.refused(self.number, &what);
                Err(fault)
            }
        }
    }

    fn refused(&self, text: &str, refusal: Refusal) {
        self.observer
            .refused(self.number, &RefusedCommand::Text(text, refusal));
    }

    fn flushed(&mut self, position: u64, ask: bool) {
        if !self.mailbox.flush(self.rt, position, ask) {
            return;
        }
        if let Some(latch) = self.latch {
            self.server_state.tell_work(self.rt, latch);
        }
    }
}

/// The name of a user, where one had to prove its password.
pub(crate) fn name_of(user: &Option<Text>) -> Option<&str> {
    match user {
        Some(user) => Some(user.as_str()),
        None => None,
    }
}

/// Whether it is a slot that a subscriber of PostgreSQL has for the initial copy of a table: pg_SUBSCRIPTION_sync_TABLE_SYSTEM
/// (PostgreSQL 15, 31.2.1).
fn is_of_copy(slot: &str) -> bool {
    slot.starts_with("pg_") && slot.contains("_sync_")
}
