//! The frames that a server sends, one after the other.

ghost use Rattle.std.specs.Prelude.{◌≡◌, ◌++◌, ℕ, List, drop, take};
ghost use Rattle.std.specs.Io.KnownBytes.{Keeps};

use crate::fault::{FollowFault, unread};
use crate::login::peer::Peer;
use crate::login::request::{RequestKind, framed_request, request_of};
use bytes::BytesMut;
use client::ClientFault;
use frames::{AUTHENTICATION, Back, body_alone, read_back};
use std::alloc::Global;
use std::io;
use std::io::{ErrorKind, Read};
use std::sync::Wait;

/// How many bytes are read at once, at most.
const MOST_READ: usize = 16_384;

/// The type byte of CopyOutResponse.
const COPY_OUT_RESPONSE: u8 = b'H';

/// The greatest length field of one: two bytes for each of so many columns as a count of 16 bits tells.
const MOST_COPY_OUT_BYTES: u32 = 65_600;

/// What has come of a server's bytes and was not taken yet.
#[derive(Drop)]
pub(crate) struct Incoming {
    alloc: Global,
    unread: BytesMut,
}

impl Incoming {
    pub(crate) fn new(alloc: Global) -> Self {
        Incoming {
            alloc,
            unread: BytesMut::new(alloc),
        }
    }

    /// Of frames that need not be waited for.
    pub(crate) fn of(alloc: Global, frames: BytesMut) -> Self {
        Incoming {
            alloc,
            unread: frames,
        }
    }

    /// Whether all that has come is taken.
    pub(crate) fn is_empty(&self) -> bool {
        self.unread.is_empty()
    }

    /// The next frame, and how many of the bytes at the front are its own. `Client` where it is none (K1) or memory is refused
    /// (K5), `Connection`, `Silent` or `Ended` (K6).
    pub(crate) fn next<R: Wait, S: Read>(
        &mut self,
        rt: &R,
        socket: &mut S,
    ) -> Result<(Back, usize), FollowFault> {
        for _ in rt.forever() {
            if let Some(found) = self.whole()? {
                return Ok(found);
            }
            self.read_more(socket)?;
        }
        Err(FollowFault::Ended)
    }

    /// The frame at the front, if it has come whole, and its length. `Client` where it is none (K1) or memory is refused (K5).
    pub(crate) fn whole(&self) -> Result<Option<(Back, usize)>, FollowFault> {
        Ok(read_back(self.alloc, self.unread.as_slice())?)
    }

    /// The next request of one who asks who is there, which is passed over; None where another frame comes. Faults as of `next`.
    pub(crate) fn next_request<R: Wait, S: Read>(
        &mut self,
        rt: &R,
        socket: &mut S,
    ) -> Result<Option<(RequestKind, Vec<u8>)>, FollowFault> {
        for _ in rt.forever() {
            match self.unread.first() {
                Some(kind) if *kind != AUTHENTICATION => return Ok(None),
                _ => {}
            }
            if let Some((request, count)) = self.whole_request()? {
                self.pass(count);
                return Ok(Some(request));
            }
            self.read_more(socket)?;
        }
        Err(FollowFault::Ended)
    }

    /// The request at the front, if it has come whole, and its length.
    fn whole_request(&self) -> Result<Option<((RequestKind, Vec<u8>), usize)>, FollowFault> {
        let Some((body, count)) = framed_request(self.unread.as_slice())? else {
            return Ok(None);
        };
        let Some(request) = request_of(body) else {
            return Err(FollowFault::Client(ClientFault::Frame));
        };
        if request.kind == RequestKind::Nothing && !request.more.is_empty() {
            return Err(FollowFault::Client(ClientFault::Frame));
        }
        let more = Vec::from_slice(self.alloc, request.more)?;
        Ok(Some(((request.kind, more), count)))
    }

    /// Passes over the CopyOutResponse before a copy (PostgreSQL 15, 55.7), if the next frame is one. Faults as of `next`.
    pub(crate) fn pass_copy_out<R: Wait, S: Read>(
        &mut self,
        rt: &R,
        socket: &mut S,
    ) -> Result<(), FollowFault> {
        for _ in rt.forever() {
            match self.unread.first() {
                Some(kind) if *kind != COPY_OUT_RESPONSE => return Ok(()),
                _ => {}
            }
            if let Some(count) = self.whole_copy_out()? {
                self.pass(count);
                return Ok(());
            }
            self.read_more(socket)?;
        }
        Err(FollowFault::Ended)
    }

    /// How long the CopyOutResponse at the front is, if it has come whole.
    fn whole_copy_out(&self) -> Result<Option<usize>, FollowFault> {
        match body_alone(
            self.unread.as_slice(),
            COPY_OUT_RESPONSE,
            MOST_COPY_OUT_BYTES,
        )? {
            Some((_, count)) => Ok(Some(count)),
            None => Ok(None),
        }
    }

    /// Waits for more.
    fn read_more<S: Read>(&mut self, socket: &mut S) -> Result<(), FollowFault> {
        self.unread.reserve(MOST_READ)?;
        came(self.unread.read_from(socket))
    }

    /// Waits for more of a stream. `Connection`, `Silent` or `Ended` (K6), or `Client` (K5) where memory is refused.
    pub(crate) fn receive_more<S: Peer>(&mut self, socket: &mut S) -> Result<(), FollowFault>
        ensures sent { Keeps (S.contents socket.old) (S.contents socket.new) }
        ensures more { (more : List ℕ) × (self.new.unread.items ≡ self.old.unread.items ++ more) }
    {
        self.unread.reserve(MOST_READ)?;
        came(socket.receive(&mut self.unread))
    }

    /// Up to so many bytes at the front.
    pub(crate) fn front(&self, count: usize) -> &[u8]
        ensures { result.now ≡ take count self.now.unread.items }
    {
        let unread = self.unread.as_slice();
        &unread[..count.min(unread.len())]
    }

    /// Takes up to so many bytes off the front.
    pub(crate) fn pass(&mut self, count: usize)
        ensures { self.new.unread.items ≡ drop count self.old.unread.items }
    {
        let count = count.min(self.unread.len());
        self.unread.advance(count);
    }
}

/// What a read comes to. Where a signal ends the wait, as that which continues a stopped process, nothing has come.
fn came(read: io::Result<usize>) -> Result<(), FollowFault> {
    match read {
        Ok(0) => Err(FollowFault::Ended),
        Ok(_) => Ok(()),
        Err(fault) if fault.kind() == ErrorKind::Interrupted => Ok(()),
        Err(fault) => Err(unread(fault)),
    }
}
