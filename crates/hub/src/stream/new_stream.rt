//! A stream on its way from the thread that begins it to the one that writes it.

ghost use Rattle.std.specs.Prelude.{◌≡◌, [], IfOk, length};
ghost use Rattle.shared_log.specs.Readers.{seen_of};
ghost use Rattle.walsender.specs.Sending.{HasChunks};
ghost use Rattle.walsender.specs.Serving.{Serves};

use crate::stream::grant::StreamGrant;
use crate::stream::streaming::Stream;
use shared_log::LogName;
use slots::SlotName;
use std::alloc::{AllocFailed, Global};

/// A stream of which nothing was written. It lies in memory of its own. It isn't `Drop`: `begin` lets it begin.
pub(crate) struct NewStream<L: LogName + SlotName> {
    stream: Box<Stream<L>>,
    ghost new: { ∥ Serves (seen_of stream.value.walsender.reader) [] stream.value.walsender ∥₁ },
}

impl<L: LogName + SlotName> NewStream<L> {
    /// The stream of a grant. Where memory is refused it comes back as the error.
    pub fn open(alloc: Global, grant: StreamGrant<L>) -> Result<Self, Stream<L>>
        ensures asked { IfOk result
            (λ s. (s.stream.value.walsender.sender.selection ≡ grant.selection)
            × (s.stream.value.walsender.sender.start ≡ grant.start)) }
        ensures chunks { IfOk result
            (λ s. HasChunks s.stream.value.walsender.sender (length grant.arena)) }
    {
        match Box::new(alloc, Stream::open(alloc, grant)) {
            Ok(stream) => Ok(NewStream { stream }),
            Err(AllocFailed { value }) => Err(value),
        }
    }

    /// Which latch wakes it.
    pub fn latch(&self) -> usize {
        self.stream.latch()
    }

    /// From now on it is written.
    pub fn begin(self) -> Box<Stream<L>>
        ensures { ∥ Serves (seen_of result.value.walsender.reader) [] result.value.walsender ∥₁ }
    {
        let NewStream { stream } = self;
        stream
    }
}
