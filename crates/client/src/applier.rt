//! An applier: the bytes of a stream in, applied transactions out.

ghost use Rattle.std.specs.Prelude.{◌≡◌, ◌<◌, ◌++◌, [], None, Ok, Err, IfErr, OnErr, OnOk, length, false, true};
ghost use Rattle.frames.specs.Frame.{frame};
ghost use Rattle.frames.specs.declared.copy_data.TheConstants.{COPY_DATA};
ghost use Rattle.copyboth.specs.Status.{status};
ghost use Rattle.client.specs.Subscriber.{subscriber_at_rest};
ghost use Rattle.client.specs.Taking.{HasTaken, Reached, Stops, StopsAfter, StopsForMemory, Takes};
ghost use Rattle.client.specs.Words.{TakesMemory, Waits};
ghost use Rattle.client.specs.Law.{Follows};

use crate::fault::ClientFault;
use crate::progress::Progress;
use crate::reading::read_word;
use crate::status::status_frame;
use bytes::BytesMut;
use pgoutput::Published;
use std::alloc::Global;
use std::marker::Model;

/// Applies the published transactions of a stream, each once.
///
/// `take` is given what the server sends after its CopyBothResponse, in any cuts. Of each transaction that is whole it keeps
/// what a subscriber applies, unless its commit record starts below `position()`: then it was applied before. So a subscriber
/// whose connection was lost may call `reconnect` and ask for the stream again from its position or below.
///
/// After a fault `take` answers it again until `reconnect`. What stood whole before the fault counts.
#[derive(Drop)]
pub struct Applier {
    alloc: Global,
    progress: Progress,
    /// What has come and isn't a whole frame yet.
    unread: BytesMut,
    fault: Option<ClientFault>,
}

impl Model for Applier {
    ghost use Rattle.client.specs.Taking.{ApplierState};

    ghost Value = { ApplierState };

    ghost view = { λ a. record {
      subscriber = a.progress;
      unread = a.unread.items;
      fault = a.fault;
    } };
}

impl Applier {
    /// The applier of a subscriber that has applied nothing, at position 0.
    pub fn new(alloc: Global) -> Self
        ensures value { result
            ≡ record { subscriber = subscriber_at_rest 0 []; unread = []; fault = None } }
        ensures taken { HasTaken result.subscriber result [] }
    {
        Applier {
            alloc,
            progress: Progress::new(alloc),
            unread: BytesMut::new(alloc),
            fault: None,
        }
    }

    /// The applier of a subscriber that has applied elsewhere all that commits below a position, and keeps none of it.
    pub fn at(alloc: Global, position: u64) -> Self
        ensures value { result
            ≡ record { subscriber = subscriber_at_rest position []; unread = []; fault = None } }
        ensures taken { HasTaken result.subscriber result [] }
    {
        Applier {
            alloc,
            progress: Progress::at(alloc, position),
            unread: BytesMut::new(alloc),
            fault: None,
        }
    }

    /// The greatest of the ends of the transactions that came whole and the numbers of the keepalives.
    pub fn position(&self) -> u64
        ensures { result ≡ self.now.subscriber.position }
    {
        self.progress.position()
    }

    /// The transactions that were applied, in order.
    pub fn applied(&self) -> &[Published]
        ensures { result.now ≡ self.now.subscriber.applied }
    {
        self.progress.applied()
    }

    /// Forgets the transactions that were applied, once its caller has done with them. All else stays, so none of them is applied
    /// again.
    pub fn forget_applied(&mut self)
        ensures { self.new
            ≡ record self.old { subscriber = record self.old.subscriber { applied = [] } } }
    {
        self.progress.forget_applied();
    }

    /// The frame that tells the server how far the subscriber is: a CopyData with a standby status update (PostgreSQL 15,
    /// 55.4), whose three positions are `position()`. `clock` is in microseconds since 2000-01-01; `ask` asks the server for a
    /// keepalive at once.
    pub fn status(&self, clock: i64, ask: bool) -> [u8; 39]
        ensures { result ≡ frame COPY_DATA (status (record {
          written = self.now.subscriber.position;
          flushed = self.now.subscriber.position;
          applied = self.now.subscriber.position;
          clock = clock;
          ask = ask;
        })) }
    {
        status_frame(self.progress.position(), clock, ask)
    }

    /// For a connection that begins: forgets what wasn't read, the tables that were told, a transaction that isn't whole, and
    /// a fault.
    pub fn reconnect(&mut self)
        ensures value { self.new
            ≡ record {
              subscriber = subscriber_at_rest self.old.subscriber.position
                  self.old.subscriber.applied;
              unread = [];
              fault = None;
            } }
        ensures taken { HasTaken self.new.subscriber self.new [] }
    {
        self.progress.reconnect();
        self.unread.clear();
        self.fault = None;
    }

    /// Takes what comes next of the stream.
    ///
    /// `Frame` (K1) where it is no frame of a stream: none that a server sends, another than CopyData and ErrorResponse, or a
    /// CopyData that holds no message or keepalive. `Order` (K2), where messages don't follow as they should (PostgreSQL 15,
    /// 55.5.3): at Begin or a message of no transaction inside one, any other message outside one, a Commit whose position
    /// isn't its Begin's, and a tuple with another count of cells than its table has columns. `UnknownRelation` (K3) at a table
    /// that wasn't told on this connection. `Server` (K4) at an ErrorResponse. `Memory` (K5). `CommitEnd` (K8) at a Commit
    /// whose end isn't past its position, so that nothing is applied twice, whatever comes. A fault is answered again until
    /// `reconnect`.
    pub fn take(&mut self, bytes: &[u8]) -> Result<(), ClientFault>
        // Whole words are taken one after the other; a fault is answered where it stands.
        ensures takes { Takes self.old self.new bytes.now result }
        // Over a stream whose transactions end past their starts nothing but want of memory is refused, and what stands whole is
        // gained.
        ensures follows { Follows self.old self.new bytes.now result }
        // Want of memory is answered for the bytes themselves, before a word is taken, or at a frame that is kept.
        ensures memory { self.old.fault ≡ None → result ≡ Err ClientFault.Memory →
            StopsForMemory self.old.subscriber (self.old.unread ++ bytes.now) self.new.subscriber }
    {
        if let Some(fault) = self.fault {
            return Err(fault);
        }
        let taken = self.take_words(bytes);
        if let Err(fault) = taken {
            self.fault = Some(fault);
        }
        taken
    }

    /// Takes all words that what is unread and these bytes hold.
    fn take_words(&mut self, bytes: &[u8]) -> Result<(), ClientFault>
        ensures ok { OnOk result
            (Reached self.old.subscriber (self.old.unread ++ bytes.now) self.new.subscriber
            self.new.unread) }
        ensures waits { OnOk result (Waits self.new.unread) }
        ensures err { IfErr result
            (λ e. StopsAfter self.old.subscriber (self.old.unread ++ bytes.now) self.new.subscriber
            e) }
        ensures memory { result ≡ Err ClientFault.Memory →
            StopsForMemory self.old.subscriber (self.old.unread ++ bytes.now) self.new.subscriber }
        ensures fault { self.new.fault ≡ self.old.fault }
    {
        self.unread.extend_from_slice(bytes)?;
        while self.step()? {}
        Ok(())
    }

    /// Takes the word at the front; false: no frame is there whole.
    fn step(&mut self) -> Result<bool, ClientFault>
        ensures more { result ≡ Ok true →
            Reached self.old.subscriber self.old.unread self.new.subscriber self.new.unread }
        ensures fewer { result ≡ Ok true → length self.new.unread < length self.old.unread }
        ensures none { result ≡ Ok false → self.new ≡ self.old }
        ensures waits { result ≡ Ok false → Waits self.new.unread }
        ensures err { IfErr result (λ e. Stops e self.old.subscriber self.old.unread) }
        ensures memory { result ≡ Err ClientFault.Memory → TakesMemory self.old.unread }
        ensures unchanged { OnErr result (self.new ≡ self.old) }
        ensures fault { self.new.fault ≡ self.old.fault }
    {
        let Some((word, size)) = read_word(self.alloc, self.unread.as_slice())? else {
            return Ok(false);
        };
        self.progress.apply(word)?;
        self.unread.advance(size);
        Ok(true)
    }
}
