//! The readers and seats that streams take.

ghost use Rattle.std.specs.Prelude.{◌≡◌, ◌++◌, ◌∷◌, [], ◌≤◌, vec_len, vec_capacity, IfOk, IsOk, OnOk, MatchOption};

use shared_log::{LogName, LogReader};
use slots::{SlotName, SlotSeat};
use std::alloc::{AllocError, Global};

/// What a stream takes: a reader of the log, and a seat at the slots.
#[derive(Drop)]
pub struct ReaderSeat<L: LogName + SlotName> {
    pub reader: LogReader<L>,
    pub seat: SlotSeat<L>,
    /// Which latch wakes its stream: each seat has one of its own.
    pub latch: usize,
}

impl<L: LogName + SlotName> ReaderSeat<L> {
    pub fn of(reader: LogReader<L>, seat: SlotSeat<L>, latch: usize) -> Self
        ensures { result ≡ record { reader = reader; seat = seat; latch = latch } }
    {
        ReaderSeat {
            reader,
            seat,
            latch,
        }
    }
}

/// The seats that no stream has.
#[derive(Drop)]
pub(crate) struct ReaderPool<L: LogName + SlotName> {
    reader_seats: Vec<ReaderSeat<L>>,
}

impl<L: LogName + SlotName> ReaderPool<L> {
    /// Each reader with a seat. `AllocError` where memory is refused.
    pub fn of(
        alloc: Global,
        readers: Vec<LogReader<L>>,
        seats: Vec<SlotSeat<L>>,
    ) -> Result<Self, AllocError> {
        let mut reader_seats = Vec::with_capacity(alloc, readers.len())?;
        for (reader, seat) in readers.into_iter().zip(seats) {
            let latch = reader_seats.len();
            reader_seats.push(ReaderSeat::of(reader, seat, latch))?;
        }
        Ok(ReaderPool { reader_seats })
    }

    /// A seat, if there is one.
    pub fn take(&mut self) -> Option<ReaderSeat<L>>
        ensures { MatchOption result
            ((self.old.reader_seats.items ≡ []) × (self.new.reader_seats.items ≡ []))
            (λ reader_seat. self.old.reader_seats.items ≡ self.new.reader_seats.items ++ reader_seat ∷ []) }
    {
        self.reader_seats.pop()
    }

    /// Takes a seat back. There is room for each that was taken, so `AllocError` doesn't come of those.
    pub fn give_back(&mut self, reader_seat: ReaderSeat<L>) -> Result<(), AllocError>
        ensures ok { OnOk result (self.new.reader_seats.items ≡ self.old.reader_seats.items ++ reader_seat ∷ []) }
    {
        self.reader_seats.push(reader_seat)?;
        Ok(())
    }
}
