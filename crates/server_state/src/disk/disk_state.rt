//! How far a log is on its disk.

ghost use Rattle.std.specs.Prelude.{◌≡◌, ◌+◌, ◌≤◌, ◌⊎◌, false, max, true};

/// What is on the disk at one moment, and what is asked of who puts it there. That is done in rounds: each puts all on the disk that
/// there is as it begins.
#[derive(Clone, Copy)]
pub(crate) struct DiskState {
    /// The position up to which the log is on the disk.
    pub end: u64,
    /// How many rounds have begun, and how many of them are done.
    begun: u64,
    done: u64,
    /// Somebody waits for what the last round didn't put there, or for slots too.
    is_wanted: bool,
    wants_slots: bool,
    /// Nothing more is put there, since it has failed.
    pub has_failed: bool,
    /// The server ends: one more round, and nothing after it.
    is_ending: bool,
    is_over: bool,
}

/// What a round is to do.
#[derive(Clone, Copy)]
pub(crate) struct Round {
    /// The server ends: nothing comes after it.
    pub is_last: bool,
    /// Somebody waits for slots.
    pub wants_slots: bool,
}

impl DiskState {
    /// Of a log that is on the disk up to this position.
    pub fn of(end: u64) -> Self
        ensures end { result.end ≡ end }
        ensures fresh { (result.has_failed ≡ false) × (result.is_over ≡ false) }
    {
        DiskState {
            end,
            begun: 0,
            done: 0,
            is_wanted: false,
            wants_slots: false,
            has_failed: false,
            is_ending: false,
            is_over: false,
        }
    }

    /// The round that has all of what there is now: the next one.
    pub fn next_round(&self) -> u64 {
        self.begun.saturating_add(1)
    }

    pub fn want(&mut self)
        ensures { self.new ≡ record self.old { is_wanted = true } }
    {
        self.is_wanted = true;
    }

    pub fn want_slots(&mut self)
        ensures { self.new ≡ record self.old { is_wanted = true; wants_slots = true } }
    {
        self.is_wanted = true;
        self.wants_slots = true;
    }

    /// Whether who waits for this position waits on: it isn't on the disk, and may be yet.
    pub fn is_awaited(&self, end: u64) -> bool {
        self.end < end && self.goes_on()
    }

    /// The same of this round.
    pub fn is_round_awaited(&self, round: u64) -> bool {
        self.done < round && self.goes_on()
    }

    /// Whether this position is on the disk.
    pub fn has(&self, end: u64) -> bool {
        end <= self.end
    }

    /// Whether this round is done.
    pub fn has_done(&self, round: u64) -> bool {
        round <= self.done
    }

    fn goes_on(&self) -> bool {
        !self.has_failed && !self.is_over
    }

    /// Whether who puts the log on the disk has nothing to do.
    pub fn is_quiet(&self) -> bool {
        !self.is_wanted && !self.is_ending
    }

    /// A round begins.
    pub fn begin_round(&mut self) -> Round
        ensures round { self.new
            ≡ record self.old {
              begun = self.new.begun;
              is_wanted = false;
              wants_slots = false;
            } }
        ensures wanted { result
            ≡ record { is_last = self.old.is_ending; wants_slots = self.old.wants_slots } }
    {
        let round = Round {
            is_last: self.is_ending,
            wants_slots: self.wants_slots,
        };
        self.is_wanted = false;
        self.wants_slots = false;
        self.begun = self.begun.saturating_add(1);
        round
    }

    /// The round is done: the log is on the disk up to this position.
    pub fn end_round(&mut self, end: u64)
        ensures { self.new
            ≡ record self.old { end = max self.old.end end; done = self.old.begun } }
    {
        self.end = self.end.max(end);
        self.done = self.begun;
    }

    /// A write or a sync has failed. Nothing takes that back.
    pub fn fail(&mut self)
        ensures { self.new ≡ record self.old { has_failed = true } }
    {
        self.has_failed = true;
    }

    pub fn end(&mut self)
        ensures { self.new ≡ record self.old { is_ending = true } }
    {
        self.is_ending = true;
    }

    /// The last round is over.
    pub fn close(&mut self)
        ensures { self.new ≡ record self.old { is_over = true } }
    {
        self.is_over = true;
    }
}
