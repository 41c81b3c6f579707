//! ReadyForQuery, that the server waits for the next query: its type and its reader.

ghost use Rattle.std.specs.Prelude.{◌≡◌};
ghost use Rattle.frames.specs.Body.{whole, always};
ghost use Rattle.frames.specs.Plain.{status_letter, status_at};

use crate::fault::FrameFault;
use crate::parts::body::end_of;
use crate::parts::field::byte;
use pqformat::Cursor;

/// The type byte of ReadyForQuery (PostgreSQL 15, 55.7).
///
/// ```text
/// Byte1('Z') | Int32 5, itself counted | Byte1 'I', 'T' or 'E'
/// ```
pub const READY_FOR_QUERY: u8 = b'Z';

/// Whether a transaction block is open: `I`, `T` and `E`.
#[derive(Clone, Copy, Debug, PartialEq, Eq)]
pub enum TransactionStatus {
    Idle,
    InTransaction,
    Failed,
}

impl TransactionStatus {
    pub(crate) fn letter(self) -> u8
        ensures { result ≡ status_letter self }
    {
        match self {
            TransactionStatus::Idle => b'I',
            TransactionStatus::InTransaction => b'T',
            TransactionStatus::Failed => b'E',
        }
    }
}

pub(crate) fn ready_of(body: &[u8]) -> Result<TransactionStatus, FrameFault>
    ensures { result ≡ whole always (status_at body.now) }
{
    let mut cursor = Cursor::new(body);
    let status = match byte(&mut cursor)? {
        b'I' => TransactionStatus::Idle,
        b'T' => TransactionStatus::InTransaction,
        b'E' => TransactionStatus::Failed,
        _ => return Err(FrameFault::BadBody),
    };
    end_of(&cursor)?;
    Ok(status)
}
