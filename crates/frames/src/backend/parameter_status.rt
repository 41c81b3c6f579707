//! ParameterStatus, what a parameter of the session is now: its type and its reader. Its body is a `Parameter`.

ghost use Rattle.std.specs.Prelude.{◌≡◌, ◌^◌, ◌<◌, length, Err, IsOk};
ghost use Rattle.frames.specs.Body.{whole};
ghost use Rattle.frames.specs.Frame.{Gives};
ghost use Rattle.frames.specs.Parameter.{parameter, parameter_at, is_parameter_text};
ghost use Rattle.pqformat.specs.Putting.{Puts};

use crate::fault::FrameFault;
use crate::frontend::parameter::Parameter;
use crate::parts::body::{end_of, judged};
use crate::parts::field::string;
use bytes::BytesMut;
use pqformat::{Cursor, Text, put_string};
use std::alloc::{AllocError, Global};

/// The type byte of ParameterStatus (PostgreSQL 15, 55.7).
///
/// ```text
/// Byte1('S') | Int32 length, itself counted | String name | String value
/// ```
pub const PARAMETER_STATUS: u8 = b'S';

#[tactic(auto, unfolding(crate::specs::Parameter::parameter_at))]
pub(crate) fn parameter_status_of(alloc: Global, body: &[u8]) -> Result<Parameter, FrameFault>
    ensures exact { Gives result (whole is_parameter_text (parameter_at body.now)) }
    ensures memory { result ≡ Err FrameFault.Memory →
        IsOk (whole is_parameter_text (parameter_at body.now)) }
{
    let mut cursor = Cursor::new(body);
    let name = string(&mut cursor)?;
    let value = string(&mut cursor)?;
    end_of(&cursor)?;
    let name = judged(name)?;
    let value = judged(value)?;
    let name = Text::copy_of(alloc, name)?;
    let value = Text::copy_of(alloc, value)?;
    Ok(Parameter { name, value })
}

pub(crate) fn parameter_len(status: &Parameter) -> usize
    requires { length (parameter status.now) < 2 ^ 32 }
    ensures { result ≡ length (parameter status.now) }
{
    status.name.as_str().len() + status.value.as_str().len() + 2
}

#[tactic(auto, using(pqformat::proofs::Putting::in_place))]
pub(crate) fn put_parameter(out: &mut BytesMut, status: &Parameter) -> Result<(), AllocError>
    ensures { Puts result out.old.items out.new.items (parameter status.now) }
{
    put_string(out, status.name.as_str())?;
    put_string(out, status.value.as_str())
}
