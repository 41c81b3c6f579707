//! What makes lines of transactions, in either form.

use crate::fault::FollowFault;
use crate::printing::form::Form;
use crate::printing::json_transcript::JsonTranscript;
use crate::printing::transcript::Transcript;
use crate::resume_point::ResumePoint;
use client::Applied;
use pgoutput::{Logical, Relation};
use std::alloc::{AllocError, Global};

/// What makes lines of transactions.
#[derive(Drop)]
pub(crate) enum Printer {
    Text(Transcript),
    Json(JsonTranscript),
}

impl Printer {
    /// For an output that holds so much already.
    pub(crate) fn new(alloc: Global, form: Form, kept: &ResumePoint, send_times: bool) -> Self {
        match form {
            Form::Text => Printer::Text(Transcript::new(alloc)),
            Form::Json => Printer::Json(JsonTranscript::new(alloc, kept, send_times)),
        }
    }

    /// Whether it prints when messages were sent.
    pub(crate) fn has_send_times(&self) -> bool {
        match self {
            Printer::Text(_) => false,
            Printer::Json(transcript) => transcript.has_send_times(),
        }
    }

    /// The message was sent at this time of the server's clock. `AllocError` where memory to keep it is refused.
    pub(crate) fn note_sent(&mut self, message: &Logical, clock: i64) -> Result<(), AllocError> {
        match self {
            Printer::Text(_) => Ok(()),
            Printer::Json(transcript) => transcript.note_sent(message, clock),
        }
    }

    /// Whether what was told of this table before was something else, which what isn't printed yet is told by.
    pub(crate) fn has_told_else(&self, relation: &Relation) -> bool {
        match self {
            Printer::Text(_) => false,
            Printer::Json(transcript) => transcript.has_told_else(relation),
        }
    }

    /// Keeps what is told of a table. `AllocError` where memory for it is refused.
    pub(crate) fn tell(&mut self, relation: Relation) -> Result<(), AllocError> {
        match self {
            Printer::Text(transcript) => {
                let message = Logical::Relation(relation);
                let told = transcript.tell(&message);
                drop(message);
                told
            }
            Printer::Json(transcript) => transcript.tell(relation),
        }
    }

    /// Adds the lines of a transaction, or the one line of a note. `Client` where a row doesn't fit its table (K2), where that
    /// wasn't told (K3), or where memory is refused (K5).
    pub(crate) fn add(
        &mut self,
        transaction: &Applied,
        lines: &mut Vec<u8>,
    ) -> Result<(), FollowFault> {
        match self {
            Printer::Text(transcript) => Ok(transcript.add(transaction, lines)?),
            Printer::Json(transcript) => transcript.add(transaction, lines),
        }
    }

    /// What is printed after all transactions. `AllocError` where memory for it is refused.
    pub(crate) fn last(&self, alloc: Global) -> Result<Vec<u8>, AllocError> {
        match self {
            Printer::Text(_) => Ok(Vec::new(alloc)),
            Printer::Json(transcript) => transcript.summary(),
        }
    }
}
