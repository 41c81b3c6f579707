//! Where a stream's work comes from.

use crate::stream::streaming::Stream;
use connections::Work;
use shared_log::LogName;
use slots::SlotName;

/// The connection of a stream, for whoever writes it. `told` is what a call with its work says of it before and after; who tells
/// nothing says `Unit`.
pub(crate) trait WorkBackend<L: LogName + SlotName> {
    ghost use Rattle.std.specs.Prelude.{◌≡◌};
    ghost use Rattle.hub.specs.Streams.{HasLearnt};
    ghost use Rattle.connections.specs.declared.inbox.Work.{Work};

    ghost told: { Self → Work → Self → Type 0 };

    /// Waits until the stream or its connection has something to do, tells the stream of the latest commit, and takes the work.
    fn next(&mut self, stream: &mut Stream<L>) -> Work
        ensures told { told self.old result self.new }
        ensures learnt { HasLearnt stream.old.walsender stream.new.walsender }
        ensures hold { stream.new.hold ≡ stream.old.hold };

    /// The last work of a connection that is over: nothing is written any more, and nothing more comes.
    fn last(&mut self) -> Work
        ensures { told self.old result self.new };
}
