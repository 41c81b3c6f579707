//! ErrorResponse, why a command or a session was refused: its type, its reader and its writer.

ghost use Rattle.std.specs.Prelude.{◌≡◌, length};
ghost use Rattle.frames.specs.Body.{GivesAt, ReadsAt, checked_at, passed_part};
ghost use Rattle.pqformat.specs.Putting.{Puts};
ghost use Rattle.frames.specs.ErrorResponse.{error_field, error_field_at, is_error_text};

use crate::fault::FrameFault;
use crate::parts::body::{is_valid_text, text_of};
use crate::parts::field::{byte, string};
use crate::parts::list::{Field, Put};
use bytes::BytesMut;
use pqformat::{Cursor, Items, Text, put_byte, put_string};
use std::alloc::{AllocError, Global};

/// The type byte of ErrorResponse.
pub const ERROR_RESPONSE: u8 = b'E';

/// ErrorResponse (PostgreSQL 15, 55.7).
///
/// ```text
/// Byte1('E') | Int32 length, itself counted | each field | Byte1(0)
/// ```
#[derive(Debug, Drop)]
pub struct ErrorResponse {
    pub fields: Items<ErrorField>,
}

/// A field of an error; what the codes mean is told in 55.8. The code is never zero.
///
/// ```text
/// Byte1 code | String text
/// ```
#[derive(Debug, Drop)]
pub struct ErrorField {
    pub code: u8,
    pub text: Text,
}

impl Field for ErrorField {
    ghost use Rattle.frames.specs.ErrorResponse.{error_field_at, is_error_text};

    ghost field_at = { error_field_at };

    ghost is_text = { is_error_text };

    #[tactic(auto, unfolding(crate::specs::ErrorResponse::error_field_at))]
    fn pass(cursor: &mut Cursor<'_>) -> Result<bool, FrameFault> {
        byte(cursor)?;
        let text = string(cursor)?;
        Ok(is_valid_text(text))
    }

    #[tactic(auto, unfolding(crate::specs::ErrorResponse::error_field_at))]
    fn read(alloc: Global, cursor: &mut Cursor<'_>) -> Result<Self, FrameFault> {
        let code = byte(cursor)?;
        let text = string(cursor)?;
        let text = text_of(alloc, text)?;
        Ok(ErrorField { code, text })
    }
}

impl Put for ErrorField {
    ghost use Rattle.frames.specs.ErrorResponse.{error_field};

    ghost spelled = { error_field };

    ghost is_short = { λ _. Unit {0} };

    fn len(&self) -> usize {
        self.text.as_str().len() + 2
    }

    #[tactic(auto, using(pqformat::proofs::Putting::in_place))]
    fn put(&self, out: &mut BytesMut) -> Result<(), AllocError> {
        put_byte(out, self.code)?;
        put_string(out, self.text.as_str())
    }
}
