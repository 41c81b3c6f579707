//! What a follower is connected by.

ghost use Rattle.std.specs.Prelude.{◌≡◌, ◌++◌, ℕ, List, IfOk, OnErr, OnOk, length};
ghost use Rattle.std.specs.Io.KnownBytes.{Keeps};

use bytes::BytesMut;
use std::io;
use std::io::{Read, Write};
use std::net::TcpStream;

/// A connection to a server.
pub trait Peer: Read + Write {
    /// Waits for bytes, and adds them. What was sent is as it was.
    fn receive(&mut self, bytes: &mut BytesMut) -> io::Result<usize>
        ensures sent { Keeps (Self.contents self.old) (Self.contents self.new) }
        ensures ok { IfOk result (λ count. (more : List ℕ) × (length more ≡ count)
            × (bytes.new.items ≡ bytes.old.items ++ more)) }
        ensures err { OnErr result (bytes.new.items ≡ bytes.old.items) };
}

impl Peer for TcpStream {
    fn receive(&mut self, bytes: &mut BytesMut) -> io::Result<usize> {
        bytes.read_from(self)
    }
}
