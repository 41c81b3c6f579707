//! The subscriber of a connection.

ghost use Rattle.std.specs.Prelude.{◌≡◌, ◌<◌, ◌++◌, ◌∷◌, [], List, MatchOption, OnErr, OnOk, false, map, take, drop, string_bytes, vec_len, vec_capacity};
ghost use Rattle.std.specs.List.{list_any};
ghost use Rattle.std.specs.Str.{bytes_eq};
ghost use Rattle.indexmap.specs.IndexSet.{spare};
ghost use Rattle.world.specs.declared.subscriber.Subscriber.{Subscriber};
ghost use Rattle.world.specs.State.{new_subscriber, slot_of_connection, subscriber_connected_again, subscriber_of, subscribers_after_reconnect, with_one_for};
ghost use Rattle.world.specs.Slots.{has_status, is_waiting, status_with};
ghost use Rattle.world.specs.Delivering.{Gets};
ghost use Rattle.world.specs.Machine.{AreNames, subscriber_place, subscriber_state};

use crate::pipe_back::PipeBack;
use crate::printed::answer::Answer;
use client::Applier;
use copyboth::Status;
use indexmap::IndexSet;
use pgoutput::Published;
use pqformat::Text;
use std::alloc::{AllocError, Global};
use wal::part;

/// The subscriber of a connection, for the whole run: each start of the connection's sender sends to it.
#[derive(Drop)]
pub struct Subscriber {
    pub(crate) connection: Text,
    /// The slot that its open start streams from.
    pub(crate) slot: Option<Text>,
    pub(crate) applier: Applier,
    /// How many bytes of those that the open start has produced were delivered.
    pub(crate) delivered: usize,
    pub(crate) has_taken: bool,
    pub(crate) back: PipeBack,
}

impl Subscriber {
    pub(crate) fn new(alloc: Global, connection: Text, slot: Option<Text>) -> Self
        ensures { subscriber_state result ≡ new_subscriber connection slot }
    {
        Subscriber {
            connection,
            slot,
            applier: Applier::new(alloc),
            delivered: 0,
            has_taken: false,
            back: PipeBack::new(alloc),
        }
    }

    /// The name by which the schedule calls the connection.
    pub fn connection(&self) -> &str
        ensures { result.now ≡ (subscriber_state self.now).connection }
    {
        self.connection.as_str()
    }

    /// How far it is in the log.
    pub fn position(&self) -> u64
        ensures { result ≡ (subscriber_state self.now).applier.subscriber.position }
    {
        self.applier.position()
    }

    /// The transactions that it has applied, in order.
    pub fn applied(&self) -> &[Published]
        ensures { result.now ≡ (subscriber_state self.now).applier.subscriber.applied }
    {
        self.applier.applied()
    }

    /// Whether ever a byte was delivered to it.
    pub fn has_taken(&self) -> bool
        ensures { result ≡ (subscriber_state self.now).has_taken }
    {
        self.has_taken
    }

    /// Takes up to `max` bytes of those that the start has produced and that were not delivered yet.
    pub(crate) fn take(&mut self, produced: &[u8], max: u32) -> Answer
        ensures { Gets (take max (drop self.old.delivered produced.now)) (subscriber_state self.old)
            result (subscriber_state self.new) }
    {
        let bytes = part(produced, self.delivered, max as usize);
        self.delivered += bytes.len();
        self.has_taken = self.has_taken || !bytes.is_empty();
        match self.applier.take(bytes) {
            Ok(()) => return Answer::Done,
            Err(fault) => return Answer::Subscriber(fault),
        }
    }

    /// Puts a status into the pipe back, with this number as what it has flushed, if there is one.
    pub(crate) fn put_back(&mut self, flushed: Option<u64>, clock: i64) -> Result<(), AllocError>
        ensures ok { OnOk result
            (subscriber_state self.new
            ≡ record (subscriber_state self.old) {
              back = (subscriber_state self.old).back
                  ++ status_with flushed clock
                  (subscriber_state self.old).applier.subscriber.position
                  ∷ [];
            }) }
        ensures err { OnErr result (subscriber_state self.new ≡ subscriber_state self.old) }
    {
        let position = self.applier.position();
        match flushed {
            None => {
                let frame = self.applier.status(clock, false);
                self.back.send(&frame)
            }
            Some(flushed) => self.back.send_status(&Status {
                written: position,
                flushed,
                applied: position,
                clock,
                ask: false,
            }),
        }
    }

    /// Reads the next status of the pipe back, and takes it out.
    pub(crate) fn next_status(&mut self) -> Option<Status>
        ensures { MatchOption result
            ((subscriber_state self.old).back ≡ []
            × subscriber_state self.new ≡ subscriber_state self.old)
            (λ status. ((subscriber_state self.old).back
            ≡ status ∷ (subscriber_state self.new).back)
            × (subscriber_state self.new
            ≡ record (subscriber_state self.old) {
              back =
                  (subscriber_state self.new).back;
            })) }
    {
        self.back.receive()
    }

    fn is_waiting(&self) -> bool
        ensures { result ≡ is_waiting (subscriber_state self.now).back }
    {
        self.back.is_waiting()
    }

    /// Its connection starts to stream from this slot, or from none.
    fn stream_from(&mut self, slot: Option<Text>)
        ensures { subscriber_state self.new ≡ record (subscriber_state self.old) { slot = slot } }
    {
        self.slot = slot;
    }

    /// Its connection was cut: what was on its way is lost, both ways. It answers the slot that it streamed from.
    pub(crate) fn reconnect(&mut self) -> Option<Text>
        ensures again { subscriber_state self.new
            ≡ subscriber_connected_again (subscriber_state self.old) }
        ensures slot { result ≡ (subscriber_state self.old).slot }
    {
        self.applier.reconnect();
        self.delivered = 0;
        self.back.clear();
        self.slot.take()
    }
}

/// The place of the connection's subscriber, by the names of all, in their order.
pub(crate) fn place_of(names: &IndexSet<String>, connection: &Text) -> Option<usize>
    ensures { (subscribers : List Subscriber) → AreNames names.now subscribers →
        result ≡ subscriber_place 0 connection.now (map subscriber_state subscribers) }
{
    names.get_index_of(connection.as_str())
}

/// Whether a status of the connection waits.
pub(crate) fn has_status(
    names: &IndexSet<String>,
    subscribers: &[Subscriber],
    connection: &Text,
) -> bool
    requires { AreNames names.now subscribers.now }
    ensures { result
        ≡ has_status (subscriber_of connection.now (map subscriber_state subscribers.now)) }
{
    match place_of(names, connection) {
        Some(place) => subscribers[place].is_waiting(),
        None => false,
    }
}

/// Adds the subscriber where its connection has none yet; else the one that is there streams from the slot.
pub(crate) fn subscribe(
    names: &mut IndexSet<String>,
    subscribers: &mut Vec<Subscriber>,
    new: Subscriber,
    name: Text,
)
    requires named { AreNames names.old subscribers.old.items }
    requires room { vec_len subscribers.old < vec_capacity subscribers.old }
    requires room_for_name { 0 < spare names.old }
    requires fresh { subscriber_state new ≡ new_subscriber new.connection new.slot }
    requires name { name ≡ new.connection }
    ensures joined { map subscriber_state subscribers.new.items
        ≡ with_one_for new.connection new.slot (map subscriber_state subscribers.old.items) }
    ensures named { AreNames names.new subscribers.new.items }
{
    match place_of(names, &new.connection) {
        Some(place) => subscribers[place].stream_from(new.slot),
        None => {
            add_name(names, name);
            subscribers.push_reserved(new);
        }
    }
}

/// Adds a name after the others. There is room for it.
fn add_name(names: &mut IndexSet<String>, name: Text)
    requires room { 0 < spare names.old }
    requires new { list_any (λ k. bytes_eq name (string_bytes k)) names.old.keys ≡ false }
    ensures { map string_bytes names.new.keys ≡ map string_bytes names.old.keys ++ name ∷ [] }
{
    match names.insert(name.into_string()) {
        Ok(_) => {}
        Err(_) => unreachable!(),
    }
}

/// The connection was cut. It answers the slot that the connection streamed from.
pub(crate) fn reconnect(
    names: &IndexSet<String>,
    subscribers: &mut Vec<Subscriber>,
    connection: &Text,
) -> Option<Text>
    requires { AreNames names.now subscribers.old.items }
    ensures again { map subscriber_state subscribers.new.items
        ≡ subscribers_after_reconnect connection.now (map subscriber_state subscribers.old.items) }
    ensures named { AreNames names.now subscribers.new.items }
    ensures slot { result
        ≡ slot_of_connection connection.now (map subscriber_state subscribers.old.items) }
{
    match place_of(names, connection) {
        Some(place) => subscribers[place].reconnect(),
        None => None,
    }
}
