//! A copy from its first question to its last.

use crate::copying::asked_rows::{TextValue, ask_rows, text_at};
use crate::copying::made_frames::MadeFrames;
use crate::copying::questions;
use crate::copying::table_copy::copy_table;
use crate::fault::FollowFault;
use crate::login::asking::{End, creating, send_query, wait_for};
use crate::quoting::push_quoted;
use crate::receiving::incoming::Incoming;
use bytes::BytesMut;
use client::ClientFault;
use pqformat::{Items, Text};
use replcmd::{CmdFault, names_of, parse_position};
use std::alloc::{AllocError, Global};
use std::io::{Read, Write};
use std::sync::Wait;

/// A transaction whose snapshot all copies share (PostgreSQL 15, 55.4, CREATE_REPLICATION_SLOT).
const BEGIN: &str = "BEGIN READ ONLY ISOLATION LEVEL REPEATABLE READ";

const WITH_SNAPSHOT: &str = " (SNAPSHOT 'use')";

const COMMIT: &str = "COMMIT";

/// The code by which a server refuses to drop what isn't there (undefined_object).
const IS_NOT_THERE: &str = "42704";

/// What is copied: which publications have which tables.
#[derive(Drop)]
pub(crate) struct CopySession {
    publications: Items<Text>,
    tables: Vec<Vec<TextValue>>,
}

impl CopySession {
    /// Asks which tables are published. `NoPublication` (K10) names a publication that there isn't, or a list that has no names;
    /// else faults as of `ask_rows`.
    pub(crate) fn begin<R: Wait, S: Read + Write>(
        rt: &R,
        alloc: Global,
        incoming: &mut Incoming,
        socket: &mut S,
        publications: &str,
    ) -> Result<Self, FollowFault> {
        let publications = names_in(alloc, publications)?;
        match tables_of(rt, alloc, incoming, socket, publications.as_slice()) {
            Ok(tables) => Ok(CopySession {
                publications,
                tables,
            }),
            Err(fault) => {
                // Let go before the way out, which keeps the proof short.
                drop(publications);
                Err(fault)
            }
        }
    }

    /// Makes the slot, and copies the rows that committed before its point: they are one transaction of a stream, whose frames are
    /// answered. `Server` (K4) where the slot is there; else faults as of `copy_table`.
    pub(crate) fn copy<R: Wait, S: Read + Write>(
        &self,
        rt: &R,
        alloc: Global,
        incoming: &mut Incoming,
        socket: &mut S,
        slot: &str,
    ) -> Result<BytesMut, FollowFault> {
        ask(rt, alloc, incoming, socket, BEGIN)?;
        let point = create(rt, alloc, incoming, socket, slot)?;
        let mut made = MadeFrames::begin(alloc, point)?;
        for table in self.tables.as_slice() {
            let publications = self.publications.as_slice();
            copy_table(
                rt,
                alloc,
                incoming,
                socket,
                table.as_slice(),
                publications,
                &mut made,
            )?;
        }
        ask(rt, alloc, incoming, socket, COMMIT)?;
        made.end()
    }
}

/// The names of a list. A text that is none names no publication.
fn names_in(alloc: Global, list: &str) -> Result<Items<Text>, FollowFault> {
    match names_of(alloc, list) {
        Ok(names) => Ok(names),
        Err(CmdFault::Memory) => Err(FollowFault::Client(ClientFault::Memory)),
        Err(_) => Err(FollowFault::NoPublication(list.to_string(alloc)?)),
    }
}

/// The tables of these publications, which have to be there.
fn tables_of<R: Wait, S: Read + Write>(
    rt: &R,
    alloc: Global,
    incoming: &mut Incoming,
    socket: &mut S,
    names: &[Text],
) -> Result<Vec<Vec<TextValue>>, FollowFault> {
    let asked = questions::publications(alloc, names)?;
    let there = ask_rows(rt, alloc, incoming, socket, asked)?;
    let judged = judge(alloc, names, there.as_slice());
    // Let go before the way out, which keeps the proof short.
    drop(there);
    judged?;
    let asked = questions::tables(alloc, names)?;
    ask_rows(rt, alloc, incoming, socket, asked)
}

/// Refused where a publication isn't there.
fn judge(alloc: Global, names: &[Text], there: &[Vec<TextValue>]) -> Result<(), FollowFault> {
    for name in names {
        let is_there = there.iter().any(
            |row| matches!(text_at(row.as_slice(), 0), Ok(told) if told == name.as_str()),
        );
        if !is_there {
            return Err(FollowFault::NoPublication(name.as_str().to_string(alloc)?));
        }
    }
    Ok(())
}

/// Drops the slot that is left of a copy that didn't come to its end, if it is there and once nobody has it.
pub(crate) fn drop_left<R: Wait, S: Read + Write>(
    rt: &R,
    alloc: Global,
    incoming: &mut Incoming,
    socket: &mut S,
    slot: &str,
) -> Result<(), FollowFault> {
    send_query(alloc, socket, dropping(alloc, slot)?)?;
    match wait_for(rt, incoming, socket, End::ReadyForQuery) {
        Err(FollowFault::Server(said)) => {
            if said.code.as_str() == IS_NOT_THERE {
                return wait_for(rt, incoming, socket, End::ReadyForQuery);
            }
            Err(FollowFault::Server(said))
        }
        dropped => dropped,
    }
}

fn dropping(alloc: Global, slot: &str) -> Result<String, AllocError> {
    let mut text = "DROP_REPLICATION_SLOT ".to_string(alloc)?;
    push_quoted(&mut text, slot, '"')?;
    text.push_str(" WAIT")?;
    Ok(text)
}

fn ask<R: Wait, S: Read + Write>(
    rt: &R,
    alloc: Global,
    incoming: &mut Incoming,
    socket: &mut S,
    text: &str,
) -> Result<(), FollowFault> {
    send_query(alloc, socket, text.to_string(alloc)?)?;
    wait_for(rt, incoming, socket, End::ReadyForQuery)
}

/// Makes the slot, with the transaction's snapshot, and answers its point.
fn create<R: Wait, S: Read + Write>(
    rt: &R,
    alloc: Global,
    incoming: &mut Incoming,
    socket: &mut S,
    slot: &str,
) -> Result<u64, FollowFault> {
    let mut text = creating(alloc, slot)?;
    text.push_str(WITH_SNAPSHOT)?;
    let rows = ask_rows(rt, alloc, incoming, socket, text)?;
    let [row] = rows.as_slice() else {
        return Err(FollowFault::Client(ClientFault::Order));
    };
    match parse_position(text_at(row.as_slice(), 1)?) {
        Ok(point) => Ok(point),
        Err(_) => Err(FollowFault::Client(ClientFault::Order)),
    }
}
