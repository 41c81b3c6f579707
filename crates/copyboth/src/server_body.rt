//! What a server sends inside CopyData, by its kind byte: its reader.

ghost use Rattle.std.specs.Prelude.{◌≡◌, IfOk, Ok};
ghost use Rattle.copyboth.specs.Reading.{FaultIs, keepalive_at, server_at, xlogdata_at};
ghost use Rattle.copyboth.specs.Server.{SpellsServer, server_fault};

use crate::fault::CopyFault;
use crate::keepalive::{KEEPALIVE, Keepalive, keepalive_of};
use crate::xlogdata::{XLOGDATA, XLogData, xlogdata_of};
use pqformat::Cursor;

/// A body of a server (PostgreSQL 15, 55.4).
#[derive(Debug, Drop)]
pub enum ServerBody<'a> {
    XLogData(XLogData<'a>),
    Keepalive(Keepalive),
}

/// The body that the bytes spell, all of them. What an XLogData holds is lent and not copied.
///
/// `Short` (B1) where the bytes end inside a field, `UnknownKind` (B2) where no body has the first byte, `Trailing` (B3) at
/// bytes after a keepalive.
pub fn read_server(bytes: &[u8]) -> Result<ServerBody<'_>, CopyFault>
    // What is read is spelled so,
    ensures found { IfOk result (λ b. SpellsServer bytes.now b) }
    // what is spelled is read,
    ensures only { (b : ServerBody) → SpellsServer bytes.now b → result ≡ Ok b }
    // and a fault is answered where it stands.
    ensures fault { FaultIs result (server_fault bytes.now) }
{
    server_of(bytes)
}

fn server_of(bytes: &[u8]) -> Result<ServerBody<'_>, CopyFault>
    ensures { result ≡ server_at bytes.now }
{
    let mut cursor = Cursor::new(bytes);
    match cursor.u8().ok_or(CopyFault::Short)? {
        XLOGDATA => Ok(ServerBody::XLogData(xlogdata_of(&mut cursor)?)),
        KEEPALIVE => Ok(ServerBody::Keepalive(keepalive_of(&mut cursor)?)),
        _ => Err(CopyFault::UnknownKind),
    }
}
