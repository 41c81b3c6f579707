//! What a follower takes in over all its connections: where each begins, what is to be printed, and what is acknowledged.

ghost use Rattle.std.specs.Prelude.{◌≡◌, ◌-◌, ◌↔◌, ◌≤◌, [], List, None, IsTrue, length};
ghost use Rattle.frames.specs.Frame.{frame};
ghost use Rattle.frames.specs.declared.copy_data.TheConstants.{COPY_DATA};
ghost use Rattle.copyboth.specs.Status.{status};
ghost use Rattle.pgoutput.specs.declared.published.Published.{Published};
ghost use Rattle.client.specs.Subscriber.{subscriber_at_rest};
ghost use Rattle.client.specs.Taking.{HasTaken, Takes};
ghost use Rattle.client.specs.Law.{Follows};
ghost use Rattle.follower.specs.Once.{Gains, applier_at_connection, applier_without_applied, with_printed};

use client::{Applied, Applier, ClientFault};
use std::alloc::Global;

/// A subscriber over its connections, and how many transactions it still waits for.
///
/// What its frames make whole is `unprinted` until it is said to be `printed`. Nothing is acknowledged before.
#[derive(Drop)]
pub(crate) struct StreamReceiver {
    applier: Applier,
    left: u32,
}

impl StreamReceiver {
    /// Of a subscriber that has all that commits below the position, and waits for so many transactions.
    pub(crate) fn new(alloc: Global, position: u64, count: u32) -> Self
        ensures applier { result.applier
            ≡ record { subscriber = subscriber_at_rest position []; unread = []; fault = None } }
        ensures left { result.left ≡ count }
    {
        StreamReceiver {
            applier: Applier::at(alloc, position),
            left: count,
        }
    }

    pub(crate) fn position(&self) -> u64
        ensures { result ≡ self.now.applier.subscriber.position }
    {
        self.applier.position()
    }

    /// For a connection that begins: where its stream is to begin. Of the one before, only whole transactions count.
    pub(crate) fn connect(&mut self) -> u64
        ensures start { result ≡ self.old.applier.subscriber.position }
        ensures new { self.new
            ≡ record self.old { applier = applier_at_connection self.old.applier } }
    {
        let start = self.applier.position();
        self.applier.reconnect();
        start
    }

    /// Takes a frame of the stream. Faults as of `Applier::take`, K1 to K5 and K8.
    #[tactic(auto, using(crate::proofs::Gaining::gains_taken, crate::proofs::Printed::follows_printed))]
    pub(crate) fn take(&mut self, frame: &[u8]) -> Result<(), ClientFault>
        ensures left { self.new.left ≡ self.old.left }
        ensures takes { Takes self.old.applier self.new.applier frame.now result }
        // Whatever a server sends: each transaction once, in the order of the commits.
        ensures once { Gains self.old.applier.subscriber self.new.applier.subscriber }
        // Over a stream, with all that was printed already: nothing but want of memory is refused, and what stands whole is gained.
        ensures follows { (printed : List Published) →
            Follows (with_printed printed self.old.applier) (with_printed printed self.new.applier)
            frame.now result }
    {
        self.applier.take(frame)
    }

    /// The transactions that were gained and weren't printed, in order.
    pub(crate) fn unprinted(&self) -> &[Applied]
        ensures { result.now ≡ self.now.applier.subscriber.applied }
    {
        self.applier.applied()
    }

    /// They are printed.
    pub(crate) fn printed(&mut self)
        ensures { self.new
            ≡ record {
              applier = applier_without_applied self.old.applier;
              left = self.old.left - length self.old.applier.subscriber.applied;
            } }
    {
        let count = self.applier.applied().len();
        let count = u32::try_from(count).unwrap_or(u32::MAX);
        self.left = self.left.saturating_sub(count);
        self.applier.forget_applied();
    }

    /// Whether as many are there as it waited for.
    pub(crate) fn is_complete(&self) -> bool
        ensures { IsTrue result ↔ (self.now.left ≤ length self.now.applier.subscriber.applied) }
    {
        self.left as usize <= self.applier.applied().len()
    }

    /// The status that acknowledges all that was printed, under this clock. It may ask for a keepalive.
    pub(crate) fn status(&self, clock: i64, ask: bool) -> [u8; 39]
        requires { self.now.applier.subscriber.applied ≡ [] }
        ensures { result ≡ frame COPY_DATA (status (record {
          written = self.now.applier.subscriber.position;
          flushed = self.now.applier.subscriber.position;
          applied = self.now.applier.subscriber.position;
          clock = clock;
          ask = ask;
        })) }
    {
        self.applier.status(clock, ask)
    }
}
