//! Conversations with a server.

use crate::talking::scripted_backend::ScriptedBackend;
use crate::wording::answer::bytes_of;
use anyhow::{Context, Result};
use bytes::BytesMut;
use server::{ConnFault, Connection, ConnectionTerms, Dialect, Phase};
use std::alloc::{AllocError, Global};

/// A connection, its backend, and what was said to its client.
#[derive(Drop)]
struct Exchange {
    backend: ScriptedBackend,
    connection: Connection,
    said: BytesMut,
}

/// Pieces of what a client sends to the first connection of a server of this dialect, in digits, a comma after each; a dot among
/// them ends the stream, if one stops. Adds what each was answered and the phase after it, then what the backend was asked and
/// what was said.
pub fn answer_talk(
    alloc: Global,
    dialect: Dialect,
    given: &str,
    answer: &mut String,
) -> Result<()> {
    let number = 1;
    let mut talk = Exchange {
        backend: ScriptedBackend::new(alloc),
        connection: Connection::served(alloc, ConnectionTerms { number, dialect }),
        said: BytesMut::new(alloc),
    };
    talk.add_all(alloc, given, answer)
}

impl Exchange {
    fn add_all(&mut self, alloc: Global, given: &str, answer: &mut String) -> Result<()> {
        self.add_pieces(alloc, given, answer)?;
        let asked = self.backend.asked().context("is not told whole")?;
        Ok(self.add_end(asked, answer)?)
    }

    fn add_pieces(&mut self, alloc: Global, given: &str, answer: &mut String) -> Result<()> {
        answer.push('=')?;
        for piece in given.split_terminator(',') {
            self.add_piece(alloc, piece, answer)?;
        }
        Ok(())
    }

    fn add_piece(&mut self, alloc: Global, piece: &str, answer: &mut String) -> Result<()> {
        let came = self.take(alloc, piece)?;
        Ok(write!(answer, " {came:?} {:?}", self.connection.phase())?)
    }

    fn take(&mut self, alloc: Global, piece: &str) -> Result<Result<Phase, ConnFault>> {
        if piece == "." {
            return Ok(self.end_stream());
        }
        let bytes = bytes_of(alloc, piece)?;
        Ok(
            self.connection
                .take(bytes.as_slice(), &mut self.backend, &mut self.said),
        )
    }

    fn end_stream(&mut self) -> Result<Phase, ConnFault> {
        if self.connection.phase() == Phase::Stopping {
            self.connection.stopped(&mut self.said)
        } else {
            Ok(self.connection.phase())
        }
    }

    fn add_end(&self, asked: &str, answer: &mut String) -> Result<(), AllocError> {
        let said = self.said.as_slice();
        write!(answer, " {:?} [{asked}] {said:?}", self.connection.phase())
    }
}
