//! What a Commit tells of its transaction.

ghost use Rattle.std.specs.Prelude.{◌≡◌, ◌<◌, ◌^◌, FitsSigned};
ghost use Rattle.std.specs.Int.{w64, cast_unsigned};

/// Where the record of a commit stands, and what it says.
#[derive(Drop)]
pub(crate) struct Header {
    pub(crate) start: u64,
    pub(crate) end: u64,
    pub(crate) time: i64,
    pub(crate) xid: u32,
}

impl Header {
    pub(crate) fn new(start: u64, end: u64, time: i64, xid: u32) -> Header
        ensures value { result ≡ record { start = start; end = end; time = time; xid = xid } }
        ensures numbers { (result.start < 2 ^ 64) × (result.end < 2 ^ 64)
            × FitsSigned w64 result.time × (result.xid < 2 ^ 32) }
    {
        Header {
            start,
            end,
            time,
            xid,
        }
    }

    /// The commit time as it is sent.
    pub(crate) fn time_bits(&self) -> u64
        ensures { result ≡ cast_unsigned w64 self.now.time }
    {
        self.time.cast_unsigned()
    }
}
