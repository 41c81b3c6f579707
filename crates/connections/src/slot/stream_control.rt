//! How a stream is steered on purpose, as a test of its client needs it.

ghost use Rattle.std.specs.Prelude.{◌≡◌, ◌≤◌, ◌↔◌, Some, None, false, true};
ghost use Rattle.connections.specs.StreamControl.{count_that_passes, left_behind, control_after};

use std::mem;

/// One way to steer a stream.
#[derive(Clone, Copy, PartialEq, Eq)]
pub enum StreamCommand {
    /// Nothing of it is written any more, until it is let go.
    Hold,
    LetGo,
    /// A keepalive asks its client for an answer.
    Ask,
    /// Its connection is cut after so many bytes.
    Cut(u64),
}

/// How the stream of a slot is steered. It is of the slot, so that it stands for a stream that is still to come.
#[derive(Clone, Copy)]
pub struct StreamControl {
    /// Nothing of the stream is written.
    is_held: bool,
    /// A keepalive is to ask its client for an answer.
    asks: bool,
    /// Behind how many more bytes its connection is cut.
    cut_behind: Option<u64>,
}

impl StreamControl {
    /// Nothing is steered.
    pub fn loose() -> Self
        ensures { result ≡ record { is_held = false; asks = false; cut_behind = None } }
    {
        StreamControl {
            is_held: false,
            asks: false,
            cut_behind: None,
        }
    }

    pub fn steer(&mut self, command: StreamCommand)
        ensures { self.new ≡ control_after self.old command }
    {
        match command {
            StreamCommand::Hold => self.is_held = true,
            StreamCommand::LetGo => self.is_held = false,
            StreamCommand::Ask => self.asks = true,
            StreamCommand::Cut(bytes) => self.cut_behind = Some(bytes),
        }
    }

    pub fn is_held(&self) -> bool
        ensures { result ≡ self.now.is_held }
    {
        self.is_held
    }

    /// Whether a keepalive is to ask, which it then does once.
    pub fn take_ask(&mut self) -> bool
        ensures asks { result ≡ self.old.asks }
        ensures once { self.new ≡ record self.old { asks = false } }
    {
        mem::replace(&mut self.asks, false)
    }

    /// How many of so many bytes pass before a cut.
    pub fn passing(&self, count: usize) -> usize
        ensures passing { result ≡ count_that_passes self.now.cut_behind count }
        ensures few { result ≤ count }
    {
        match self.cut_behind {
            Some(left) => (count as u64).min(left) as usize,
            None => count,
        }
    }

    /// So many bytes have passed.
    pub fn pass(&mut self, count: usize)
        ensures { self.new
            ≡ record self.old { cut_behind = left_behind self.old.cut_behind count } }
    {
        if let Some(left) = self.cut_behind {
            self.cut_behind = Some(left.saturating_sub(count as u64));
        }
    }

    /// Whether the connection is to be cut before the next byte.
    pub fn is_cut(&self) -> bool
        ensures { (result ≡ true) ↔ (self.now.cut_behind ≡ Some 0) }
    {
        self.cut_behind == Some(0)
    }

    /// Whether the connection is to be cut before the next byte, which is then done.
    pub fn take_cut(&mut self) -> bool
        ensures cut { (result ≡ true) ↔ (self.old.cut_behind ≡ Some 0) }
        ensures once { result ≡ true → self.new ≡ record self.old { cut_behind = None } }
        ensures same { result ≡ false → self.new ≡ self.old }
    {
        if self.is_cut() {
            self.cut_behind = None;
            return true;
        }
        false
    }
}
