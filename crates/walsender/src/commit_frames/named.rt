//! The tables that a message names.

ghost use Rattle.std.specs.Prelude.{◌≡◌, ◌≤◌, length};
ghost use Rattle.walsender.specs.Spelled.{named_in, oids_in};

use pgoutput::{MESSAGE, TRUNCATE};
use pqformat::Cursor;

/// Where the one OID stands that a message of a change has, after its letter.
const OID: usize = 1;

/// Where the OIDs of a Truncate begin, after its letter, their count and its options.
const TRUNCATED: usize = 6;

/// The OIDs of the tables that the message of a change names, in the order in which it names them.
pub(crate) fn named_in(message: &[u8]) -> Cursor<'_>
    requires { 6 ≤ length message.now }
    ensures { oids_in result ≡ named_in message.now }
{
    if message[0] == TRUNCATE {
        return Cursor::new(&message[TRUNCATED..]);
    }
    if message[0] == MESSAGE {
        return Cursor::new(&[]);
    }
    Cursor::new(&message[OID..OID + 4])
}
