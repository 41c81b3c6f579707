//! Counting the transactions in the bytes of a stream.

ghost use Rattle.std.specs.Prelude.{◌≤◌};

/// How many bytes the head of a frame has: its type and its length (PostgreSQL 15, 55.7).
const HEAD: u64 = 5;

/// Where in a frame the tag of its message stands, after the head of XLogData: its own tag, two positions and a clock (PostgreSQL 15,
/// 55.4).
const TAG_AT: u64 = 30;

/// The type of a frame of CopyData.
const COPY_DATA: u8 = b'd';

/// The tag of a Commit.
const COMMIT: u8 = b'C';

/// Goes over the frames of a stream, however their bytes are cut into pieces.
#[derive(Clone, Copy)]
pub struct CommitCounter {
    /// How many bytes of the frame have passed.
    at: u64,
    /// Its length after its type, as far as that has passed.
    length: u64,
    is_data: bool,
}

impl CommitCounter {
    pub fn new() -> Self {
        CommitCounter {
            at: 0,
            length: 0,
            is_data: false,
        }
    }

    /// These bytes pass, and so many Commits with them. Each turn takes a byte at least.
    pub fn pass(&mut self, bytes: &[u8]) -> u64 {
        let mut commits: u64 = 0;
        let mut rest = bytes;
        for _ in 0..bytes.len() {
            let Some(first) = rest.first() else {
                break;
            };
            if self.take(*first) {
                commits = commits.saturating_add(1);
            }
            rest = &rest[1..];
            let skipped = self.skip(rest.len());
            rest = &rest[skipped..];
        }
        commits
    }

    /// A byte passes. It answers whether it is the tag of a Commit.
    fn take(&mut self, byte: u8) -> bool {
        let is_commit = self.at == TAG_AT && self.is_data && byte == COMMIT;
        if self.at == 0 {
            self.is_data = byte == COPY_DATA;
            self.length = 0;
        } else if self.at < HEAD {
            self.length = self.length.wrapping_mul(256).wrapping_add(u64::from(byte));
        }
        self.step(1);
        is_commit
    }

    /// The bytes pass that nothing depends on, at most so many, and so many have.
    fn skip(&mut self, most: usize) -> usize
        ensures { result ≤ most }
    {
        if self.at < HEAD || self.at == TAG_AT {
            return 0;
        }
        let next = if self.at < TAG_AT && TAG_AT <= self.length {
            TAG_AT
        } else {
            self.length.saturating_add(1)
        };
        let count = next.saturating_sub(self.at).min(most as u64);
        self.step(count);
        count as usize
    }

    /// So many bytes of the frame pass. After its last one the next begins.
    fn step(&mut self, count: u64) {
        self.at = self.at.saturating_add(count);
        if HEAD <= self.at && self.length < self.at {
            self.at = 0;
        }
    }
}
