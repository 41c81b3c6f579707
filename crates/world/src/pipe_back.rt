//! The pipe back of a connection: the bytes that its subscriber sends to the publisher.

ghost use Rattle.std.specs.Prelude.{◌≡◌, ◌++◌, ◌∷◌, [], MatchOption, OnErr, OnOk, slice_get};
ghost use Rattle.pqformat.specs.Putting.{Puts};
ghost use Rattle.world.specs.PipeBack.{IsPipe, IsSpelled, status_frame, statuses_in};
ghost use Rattle.world.specs.Slots.{is_waiting};

use bytes::BytesMut;
use copyboth::{Status, read_client, write_status};
use frames::COPY_DATA;
use pqformat::{Cursor, put_byte, put_int32};
use std::alloc::{AllocError, Global};
use std::marker::Model;

/// What the length field of a status's frame says, and how many bytes its body and the whole frame take.
const LENGTH: u32 = 38;

const BODY: usize = 34;

const FRAME: usize = 39;

/// What a subscriber has sent and the publisher hasn't read yet, frames of statuses. Contracts see the statuses.
#[derive(Drop)]
pub(crate) struct PipeBack {
    bytes: BytesMut,
}

impl Model for PipeBack {
    ghost use Rattle.std.specs.Prelude.{List};
    ghost use Rattle.copyboth.specs.declared.status.Status.{Status};
    ghost use Rattle.world.specs.PipeBack.{IsPipe, statuses_in};

    ghost Value = { List Status };

    ghost view = { λ p. statuses_in p.bytes.items };

    ghost invariant = { λ p. IsPipe p.bytes.items };
}

impl PipeBack {
    pub(crate) fn new(alloc: Global) -> Self
        ensures { result ≡ [] }
    {
        PipeBack {
            bytes: BytesMut::new(alloc),
        }
    }

    /// Adds the frames of statuses as they are; refused, adds nothing.
    pub(crate) fn send(&mut self, frames: &[u8]) -> Result<(), AllocError>
        requires { IsPipe frames.now }
        ensures ok { OnOk result (self.new ≡ self.old ++ statuses_in frames.now) }
        ensures err { OnErr result (self.new ≡ self.old) }
    {
        self.bytes.extend_from_slice(frames)
    }

    /// Adds the frame of this status; refused, adds nothing.
    pub(crate) fn send_status(&mut self, status: &Status) -> Result<(), AllocError>
        requires { IsSpelled status.now }
        ensures ok { OnOk result (self.new ≡ self.old ++ status.now ∷ []) }
        ensures err { OnErr result (self.new ≡ self.old) }
    {
        write_frame(&mut self.bytes, status)
    }

    /// Reads the status at the front, and takes its frame away. It takes no memory.
    pub(crate) fn receive(&mut self) -> Option<Status>
        ensures { MatchOption result ((self.old ≡ []) × (self.new ≡ self.old))
            (λ status. self.old ≡ status ∷ self.new) }
    {
        let status = read_status(self.bytes.as_slice())?;
        self.bytes.advance(FRAME);
        Some(status)
    }

    /// Whether a status waits.
    pub(crate) fn is_waiting(&self) -> bool
        ensures { result ≡ is_waiting self.now }
    {
        !self.bytes.is_empty()
    }

    pub(crate) fn clear(&mut self)
        ensures { self.new ≡ [] }
    {
        self.bytes.clear();
    }
}

/// The status in the frame at the front, if there is one. Not by `read_front`, which copies what a frame holds.
fn read_status(bytes: &[u8]) -> Option<Status>
    requires { IsPipe bytes.now }
    ensures { result ≡ slice_get (statuses_in bytes.now) 0 }
{
    let mut cursor = Cursor::new(bytes);
    let kind = cursor.u8()?;
    if kind != COPY_DATA {
        return None;
    }
    let length = cursor.u32()?;
    if length != LENGTH {
        return None;
    }
    let body = cursor.take(BODY)?;
    read_client(body).ok()
}

/// Adds the frame of a status at the end of `out`; refused, adds nothing.
fn write_frame(out: &mut BytesMut, status: &Status) -> Result<(), AllocError>
    ensures ok { OnOk result (out.new.items ≡ out.old.items ++ status_frame status.now) }
    ensures err { OnErr result (out.new.items ≡ out.old.items) }
{
    let start = out.len();
    let written = put_frame(out, status);
    if written.is_err() {
        out.truncate(start);
    }
    written
}

#[tactic(auto, using(pqformat::proofs::Putting::in_place))]
fn put_frame(out: &mut BytesMut, status: &Status) -> Result<(), AllocError>
    ensures { Puts result out.old.items out.new.items (status_frame status.now) }
{
    put_byte(out, COPY_DATA)?;
    put_int32(out, LENGTH)?;
    write_status(status, out)
}
