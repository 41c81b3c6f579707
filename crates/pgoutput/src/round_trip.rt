//! A message that is written and read again.

ghost use Rattle.std.specs.Prelude.{◌≡◌, Ok, Err, IfOk, IfErr};
ghost use Rattle.pgoutput.specs.Logical.{FitsLogical, IsShort};
ghost use Rattle.pgoutput.specs.Reading.{Answers};

use crate::fault::PgoutputError;
use crate::logical::{Logical, read_logical, write_logical};
use bytes::BytesMut;
use std::alloc::Global;

/// The message again, by its spelling alone; or `Memory` (O6), and no other fault.
pub fn written_and_read(alloc: Global, message: &Logical) -> Result<Logical, PgoutputError>
    requires range { FitsLogical message.now }
    requires short { IsShort message.now }
    ensures same { IfOk result (λ m. m ≡ message.now) }
    ensures memory { IfErr result (λ e. e ≡ PgoutputError.Memory) }
{
    let mut out = BytesMut::new(alloc);
    write_logical(message, &mut out)?;
    read_logical(alloc, out.as_slice())
}
