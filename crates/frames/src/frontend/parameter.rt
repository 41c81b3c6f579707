//! A parameter of a session, as a client asks for it in its startup.

ghost use Rattle.std.specs.Prelude.{◌≡◌};
ghost use Rattle.frames.specs.Body.{GivesAt, ReadsAt, checked_at, passed_part};
ghost use Rattle.frames.specs.Parameter.{parameter_at, is_parameter_text};

use crate::fault::FrameFault;
use crate::parts::body::{is_valid_text, text_of};
use crate::parts::field::string;
use crate::parts::list::Field;
use pqformat::{Cursor, Text};
use std::alloc::Global;

/// A parameter of a session (PostgreSQL 15, 55.7, StartupMessage). The name is never empty.
///
/// ```text
/// String name | String value
/// ```
#[derive(Debug, Drop)]
pub struct Parameter {
    pub name: Text,
    pub value: Text,
}

impl Field for Parameter {
    ghost use Rattle.frames.specs.Parameter.{parameter_at, is_parameter_text};

    ghost field_at = { parameter_at };

    ghost is_text = { is_parameter_text };

    #[tactic(auto, unfolding(crate::specs::Parameter::parameter_at))]
    fn pass(cursor: &mut Cursor<'_>) -> Result<bool, FrameFault> {
        let name = string(cursor)?;
        let value = string(cursor)?;
        Ok(is_valid_text(name) && is_valid_text(value))
    }

    #[tactic(auto, unfolding(crate::specs::Parameter::parameter_at))]
    fn read(alloc: Global, cursor: &mut Cursor<'_>) -> Result<Self, FrameFault> {
        let name = string(cursor)?;
        let value = string(cursor)?;
        let name = text_of(alloc, name)?;
        let value = text_of(alloc, value)?;
        Ok(Parameter { name, value })
    }
}
