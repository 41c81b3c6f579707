//! How far a subscriber is, and what each word makes of it.

ghost use Rattle.std.specs.Prelude.{◌≡◌, ◌++◌, ◌∷◌, [], None, OnErr, OnOk, if◌then◌else◌, nat_le};
ghost use Rattle.client.specs.Subscriber.{after_word, after_message, after_begin, after_change, after_commit, after_logical_message, after_keepalive, after_note, after_relation, note_of, subscriber_at_rest, Makes};

use crate::fault::ClientFault;
use crate::judging::{Tables, judge};
use crate::note::note_of;
use crate::open_transaction::OpenTransaction;
use indexmap::IndexMap;
use pgoutput::{
    Begin, Commit, CopyBothMessage, Keepalive, Logical, Message, Published, Relation, XLogData,
};
use std::alloc::{AllocError, Global};
use std::marker::Model;

/// A subscriber: what it has applied, and what it knows since it connected.
#[derive(Drop)]
pub(crate) struct Progress {
    alloc: Global,
    position: u64,
    applied: Vec<Published>,
    tables: Tables,
    half: Option<OpenTransaction>,
}

impl Model for Progress {
    ghost use Rattle.client.specs.Subscriber.{Subscriber};

    ghost Value = { Subscriber };

    ghost view = { λ p. record {
      position = p.position;
      applied = p.applied.items;
      tables = p.tables.entries;
      half = p.half;
    } };
}

impl Progress {
    pub(crate) fn new(alloc: Global) -> Self
        ensures { result ≡ subscriber_at_rest 0 [] }
    {
        Progress::at(alloc, 0)
    }

    pub(crate) fn at(alloc: Global, position: u64) -> Self
        ensures { result ≡ subscriber_at_rest position [] }
    {
        Progress {
            alloc,
            position,
            applied: Vec::new(alloc),
            tables: IndexMap::new(alloc),
            half: None,
        }
    }

    pub(crate) fn position(&self) -> u64
        ensures { result ≡ self.now.position }
    {
        self.position
    }

    pub(crate) fn applied(&self) -> &[Published]
        ensures { result.now ≡ self.now.applied }
    {
        self.applied.as_slice()
    }

    pub(crate) fn forget_applied(&mut self)
        ensures { self.new ≡ record self.old { applied = [] } }
    {
        self.applied.clear();
    }

    /// Forgets what hangs on the connection.
    pub(crate) fn reconnect(&mut self)
        ensures { self.new ≡ subscriber_at_rest self.old.position self.old.applied }
    {
        self.tables = IndexMap::new(self.alloc);
        self.half = None;
    }

    pub(crate) fn apply(&mut self, word: CopyBothMessage) -> Result<(), ClientFault>
        ensures { Makes result self.old self.new (after_word self.old word) }
    {
        match word {
            CopyBothMessage::Keepalive(keepalive) => {
                self.keep_alive(&keepalive);
                Ok(())
            }
            CopyBothMessage::XLogData(piece) => self.hear(piece),
        }
    }

    fn hear(&mut self, piece: XLogData) -> Result<(), ClientFault>
        ensures { Makes result self.old self.new
            (after_message self.old piece.start piece.end piece.message) }
    {
        let XLogData {
            start,
            end,
            message,
            ..
        } = piece;
        match message {
            Logical::Begin(begin) => self.begin(begin),
            Logical::Relation(relation) => self.tell(&relation),
            Logical::Commit(commit) => self.commit(&commit),
            Logical::Message(message) => self.message(start, end, message),
            change => self.change(start, change),
        }
    }

    fn keep_alive(&mut self, keepalive: &Keepalive)
        ensures { self.new ≡ after_keepalive self.old.half self.old keepalive.now }
    {
        if self.half.is_none() {
            self.position = self.position.max(keepalive.position);
        }
    }

    fn begin(&mut self, begin: Begin) -> Result<(), ClientFault>
        ensures { Makes result self.old self.new (after_begin self.old.half self.old begin) }
    {
        if self.half.is_some() {
            return Err(ClientFault::Order);
        }
        self.half = Some(OpenTransaction::new(self.alloc, begin));
        Ok(())
    }

    fn tell(&mut self, relation: &Relation) -> Result<(), ClientFault>
        ensures { Makes result self.old self.new
            (after_relation self.old.half self.old relation.now) }
    {
        if self.half.is_none() {
            return Err(ClientFault::Order);
        }
        self.tables.insert(relation.oid, relation.columns.len())?;
        Ok(())
    }

    fn change(&mut self, position: u64, message: Logical) -> Result<(), ClientFault>
        ensures { Makes result self.old self.new
            (after_change self.old.half self.old position message) }
    {
        let judged = judge(&self.tables, &message);
        match &mut self.half {
            Some(half) if judged.is_ok() => Ok(half.push(position, message)?),
            half => {
                // Let go by one call, which keeps the proof short.
                drop(message);
                if half.is_some() {
                    return judged;
                }
                Err(ClientFault::Order)
            }
        }
    }

    fn message(&mut self, start: u64, end: u64, message: Message) -> Result<(), ClientFault>
        ensures { Makes result self.old self.new
            (after_logical_message message.is_transactional self.old start end message) }
    {
        if message.is_transactional {
            self.change(start, Logical::Message(message))
        } else {
            self.note(end, message)
        }
    }

    fn note(&mut self, end: u64, message: Message) -> Result<(), ClientFault>
        ensures { Makes result self.old self.new (after_note self.old.half self.old end message) }
    {
        if self.half.is_some() {
            // Let go by one call, which keeps the proof short.
            drop(message);
            return Err(ClientFault::Order);
        }
        self.apply_note(end, message)?;
        self.position = self.position.max(end);
        Ok(())
    }

    /// Applies the note, unless it was applied before.
    fn apply_note(&mut self, end: u64, message: Message) -> Result<(), AllocError>
        ensures ok { OnOk result (self.new
            ≡ record self.old {
              applied = self.old.applied
                  ++ (if nat_le self.old.position message.position then note_of end message ∷ [] else []);
            }) }
        ensures err { OnErr result (self.new ≡ self.old) }
    {
        if message.position < self.position {
            // Let go by one call, which keeps the proof short.
            drop(message);
            return Ok(());
        }
        let note = note_of(self.alloc, end, message)?;
        Ok(self.applied.push(note)?)
    }

    /// Memory is asked for before anything changes.
    fn commit(&mut self, commit: &Commit) -> Result<(), ClientFault>
        ensures { Makes result self.old self.new (after_commit self.old.half self.old commit.now) }
    {
        let Some(half) = &self.half else {
            return Err(ClientFault::Order);
        };
        let start = half.position();
        if commit.position != start {
            return Err(ClientFault::Order);
        }
        if commit.end <= start {
            return Err(ClientFault::CommitEnd);
        }
        self.applied.reserve(1)?;
        match self.half.take() {
            Some(half) if self.position <= start => {
                self.applied.push_reserved(half.commit(commit));
            }
            passed_over => drop(passed_over),
        }
        self.position = self.position.max(commit.end);
        Ok(())
    }
}
