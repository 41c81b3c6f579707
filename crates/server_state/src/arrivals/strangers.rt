//! Connections whose users haven't proved their passwords yet, where passwords are asked.

use crate::server_state::ServerState;
use bytes::BytesMut;
use connections::{ConnectionEnd, GuardedConnection, NONCE_BYTES, User, nonce_of};
use pqformat::{Items, Text};
use server::ConnFault;
use shared_log::LogName;
use slots::SlotName;
use std::mem;
use std::random::RandomSource;
use std::sync::Wait;
use std::sync::atomic::Ordering;

/// One of so many connections may be that of a stranger, so that strangers can't shut users out.
const STRANGERS_SHARE: u32 = 3;

impl<L: LogName + SlotName> ServerState<L> {
    /// The connection of this number, of which nothing has come. Where passwords are asked, `NoNonce` where no random bytes are to
    /// be had, then `Memory`.
    pub fn connection<R: RandomSource>(
        &self,
        rt: &R,
        number: u32,
    ) -> Result<GuardedConnection, ConnectionEnd> {
        let service = self.service(number);
        if self.users.is_none() {
            return Ok(GuardedConnection::open(self.alloc, service));
        }
        let mut drawn = [0; NONCE_BYTES];
        if rt.fill_bytes(&mut drawn).is_err() {
            return Err(ConnectionEnd::NoNonce);
        }
        let nonce = nonce_of(self.alloc, &drawn)?;
        Ok(GuardedConnection::guarded(self.alloc, service, nonce))
    }

    /// Answers one startup or message of an exchange, as `GuardedConnection::authenticate` does, for the users that there are now.
    pub fn authenticate<R: Wait>(
        &self,
        rt: &R,
        connection: &mut GuardedConnection,
        out: &mut BytesMut,
    ) -> Result<bool, ConnFault> {
        let Some(users) = &self.users else {
            return Ok(false);
        };
        let users = users.lock(rt);
        let answered = connection.authenticate(&users, out);
        drop(users);
        if connection.is_let_in() {
            self.leave_strangers();
        }
        answered
    }

    /// Whether a user may follow these publications: anyone, where no passwords are asked.
    pub fn may_follow<R: Wait>(&self, rt: &R, user: Option<&str>, names: &[Text]) -> bool {
        let Some(users) = &self.users else {
            return true;
        };
        let Some(user) = user else {
            return true;
        };
        let users = users.lock(rt);
        let may_follow = users.may_follow(user, names);
        drop(users);
        may_follow
    }

    /// From now on these users may connect. False: no passwords are asked.
    pub fn replace_users<R: Wait>(&self, rt: &R, anew: Items<User>) -> bool {
        let Some(users) = &self.users else {
            drop(anew);
            return false;
        };
        let mut users = users.lock(rt);
        let before = mem::replace(&mut users.users, anew);
        drop(users);
        drop(before);
        true
    }

    /// One more connection is a stranger's, unless as many are as may be at once.
    pub(crate) fn admits_stranger(&self) -> bool {
        if self.users.is_none() {
            return true;
        }
        let most = (self.settings.max_connections / STRANGERS_SHARE).max(1);
        if most <= self.strangers.fetch_add(1, Ordering::SeqCst) {
            self.leave_strangers();
            return false;
        }
        true
    }

    /// A connection is no stranger's any more, or is served no more.
    pub fn leave_strangers(&self) {
        if self.users.is_some() {
            self.strangers.fetch_sub(1, Ordering::SeqCst);
        }
    }
}
