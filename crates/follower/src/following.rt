//! Following a stream: each message printed, each transaction and each note acknowledged.

use crate::fault::FollowFault;
use crate::login::asking::{ask_for_stream, send};
use crate::options::Options;
use crate::printing::form::Form;
use crate::printing::json_transcript::JsonTranscript;
use crate::receiving::incoming::Incoming;
use crate::receiving::streamed::{body_in, carried, message_in, print_lines};
use crate::resume_point::ResumePoint;
use client::{Applier, ClientFault};
use copyboth::{ServerBody, clock_now};
use frames::{Back, Front};
use message_lines::render;
use pgoutput::Logical;
use std::alloc::{AllocError, Global};
use std::io::{Read, Write};
use std::random::RandomSource;
use std::sync::Wait;
use std::time::Clock;

/// Asks a server for a stream of the slot, and prints each message on a line, in the form of the options. Behind each Commit, and
/// after each message outside of a transaction, it tells the server its position, and once it has as many of these as it should it
/// ends the stream, and reads no more. Then it prints the last line of the form, if it has one.
///
/// `Server` (K4) is what the server refused, `Login` (K9) that a password isn't proved that it asks for, or that it doesn't know
/// it. `Client` is a fault of an applier (K1 to K3, K5, K8). K6 comes where a command with these names is too long to be sent
/// (`LongCommand`), where the connection failed (`Connection`), fell silent (`Silent`) or ended early (`Ended`), or where the
/// output failed (`Output`).
pub fn follow<R: Wait + Clock + RandomSource, S: Read + Write, W: Write>(
    rt: &R,
    alloc: Global,
    socket: &mut S,
    options: &Options<'_>,
    output: &mut W,
) -> Result<(), FollowFault> {
    let mut incoming = Incoming::new(alloc);
    ask_for_stream(rt, alloc, &mut incoming, socket, options)?;
    let mut following = Following::new(alloc, options);
    following.follow_stream(rt, &mut incoming, socket, output)
}

/// A subscriber, and how many transactions and notes it still waits for.
#[derive(Drop)]
struct Following {
    alloc: Global,
    applier: Applier,
    left: u32,
    /// What the clock said last, in microseconds since 2000-01-01.
    clock: i64,
    /// In the form of JSON.
    transcript: Option<JsonTranscript>,
}

fn transcript_in(alloc: Global, options: &Options<'_>) -> Option<JsonTranscript> {
    match options.form {
        Form::Text => None,
        Form::Json => Some(JsonTranscript::new(alloc, &ResumePoint::new(), options.send_times)),
    }
}

impl Following {
    fn new(alloc: Global, options: &Options<'_>) -> Self {
        Following {
            alloc,
            applier: Applier::new(alloc),
            left: options.count,
            clock: 0,
            transcript: transcript_in(alloc, options),
        }
    }

    /// From the stream's first frame to its end.
    fn follow_stream<R: Wait + Clock, S: Read + Write, W: Write>(
        &mut self,
        rt: &R,
        incoming: &mut Incoming,
        socket: &mut S,
        output: &mut W,
    ) -> Result<(), FollowFault> {
        self.take_frames(rt, incoming, socket, output)?;
        self.print_last(output)?;
        send(self.alloc, socket, &Front::CopyDone)
    }

    fn take_frames<R: Wait + Clock, S: Read + Write, W: Write>(
        &mut self,
        rt: &R,
        incoming: &mut Incoming,
        socket: &mut S,
        output: &mut W,
    ) -> Result<(), FollowFault> {
        for _ in rt.forever() {
            if self.left == 0 {
                break;
            }
            let (frame, length) = incoming.next(rt, socket)?;
            let taken = self.applier.take(incoming.front(length));
            incoming.pass(length);
            self.take_frame(rt, frame, taken, socket, output)?;
        }
        Ok(())
    }

    /// Takes a frame, and what the applier told of it.
    fn take_frame<R: Clock, S: Write, W: Write>(
        &mut self,
        rt: &R,
        frame: Back,
        taken: Result<(), ClientFault>,
        socket: &mut S,
        output: &mut W,
    ) -> Result<(), FollowFault> {
        let data = carried(frame, taken)?;
        match body_in(&data)? {
            ServerBody::XLogData(data) => {
                let message = message_in(self.alloc, data.payload)?;
                self.note_sent(&message, data.clock)?;
                if self.print(data.start, message, output)? {
                    self.left = self.left.saturating_sub(1);
                    self.acknowledge(rt, socket)?;
                }
                Ok(())
            }
            ServerBody::Keepalive(keepalive) if keepalive.ask => self.acknowledge(rt, socket),
            ServerBody::Keepalive(_) => Ok(()),
        }
    }

    /// Prints a message, and answers whether a transaction ends with it. Then nothing of the output waits.
    fn print<W: Write>(
        &mut self,
        position: u64,
        message: Logical,
        output: &mut W,
    ) -> Result<bool, FollowFault> {
        let is_end = ends_a_transaction(&message);
        let lines = self.lines(position, message)?;
        output
            .write_all(lines.as_slice())
            .map_err(FollowFault::Output)?;
        if is_end {
            output.flush().map_err(FollowFault::Output)?;
        }
        Ok(is_end)
    }

    fn note_sent(&mut self, message: &Logical, clock: i64) -> Result<(), AllocError> {
        match &mut self.transcript {
            Some(transcript) => transcript.note_sent(message, clock),
            None => Ok(()),
        }
    }

    /// The lines of a message, with their ends.
    fn lines(&mut self, position: u64, message: Logical) -> Result<Vec<u8>, FollowFault> {
        let alloc = self.alloc;
        match &mut self.transcript {
            None => {
                let line = text_of(alloc, &message);
                drop(message);
                Ok(line?)
            }
            Some(transcript) => json_of(alloc, transcript, position, message),
        }
    }

    /// Prints what stands after all.
    fn print_last<W: Write>(&self, output: &mut W) -> Result<(), FollowFault> {
        if let Some(transcript) = &self.transcript {
            print_lines(transcript.summary()?.as_slice(), output)?;
        }
        Ok(())
    }

    /// Tells the server the position.
    fn acknowledge<R: Clock, S: Write>(
        &mut self,
        rt: &R,
        socket: &mut S,
    ) -> Result<(), FollowFault> {
        self.clock = clock_now(rt, self.clock);
        let status = self.applier.status(self.clock, false);
        socket.write_all(&status).map_err(FollowFault::Connection)
    }
}

/// The line of text, with its end.
fn text_of(alloc: Global, message: &Logical) -> Result<Vec<u8>, AllocError> {
    let mut line = render(alloc, message)?;
    line.push('\n')?;
    Ok(line.into_bytes())
}

/// The lines of JSON. A Relation has none, and is kept for the changes of its table.
fn json_of(
    alloc: Global,
    transcript: &mut JsonTranscript,
    position: u64,
    message: Logical,
) -> Result<Vec<u8>, FollowFault> {
    let mut lines = Vec::new(alloc);
    match message {
        Logical::Relation(relation) => transcript.tell(relation)?,
        message => {
            let added = transcript.add_message(position, &message, &mut lines);
            drop(message);
            added?;
        }
    }
    Ok(lines)
}

/// A message outside of a transaction is one by itself.
fn ends_a_transaction(message: &Logical) -> bool {
    match message {
        Logical::Commit(_) => true,
        Logical::Message(said) => !said.is_transactional,
        _ => false,
    }
}
