//! The end of a stream, as the server says it.

ghost use Rattle.frames.specs.declared.back.Back.TheVariants.{CopyDone};
ghost use Rattle.pqformat.specs.Putting.{Puts};
ghost use Rattle.server.specs.Said.{sent_frame, copied, end_of_stream};

use crate::connection_terms::Dialect;
use crate::said::say::{say, say_completed, say_ready};
use bytes::BytesMut;
use frames::Back;
use std::alloc::{AllocError, Global};

#[tactic(auto, using(pqformat::proofs::Putting::in_place), unfolding(pqformat::specs::Fields::int32))]
fn say_copy_done(out: &mut BytesMut) -> Result<(), AllocError>
    ensures { Puts result out.old.items out.new.items (sent_frame CopyDone) }
{
    say(out, Back::CopyDone)
}

/// That a stream is copied, which the commands alone don't tell.
#[tactic(auto, using(pqformat::proofs::Putting::in_place))]
fn say_copied(alloc: Global, out: &mut BytesMut, dialect: Dialect) -> Result<(), AllocError>
    ensures { Puts result out.old.items out.new.items (copied dialect) }
{
    match dialect {
        Dialect::Commands => Ok(()),
        Dialect::Questions => say_completed(alloc, out, "COPY 0"),
    }
}

/// The end of a stream (PostgreSQL 15, 55.2.6 and 55.4). `AllocError` where memory is refused; some of it may have been added
/// then.
#[tactic(auto, using(pqformat::proofs::Putting::in_place), unfolding(crate::specs::Said::end_of_stream))]
pub fn say_ended(alloc: Global, out: &mut BytesMut, dialect: Dialect) -> Result<(), AllocError>
    ensures { Puts result out.old.items out.new.items (end_of_stream dialect) }
{
    say_copy_done(out)?;
    say_copied(alloc, out, dialect)?;
    say_completed(alloc, out, "START_REPLICATION")?;
    say_ready(out)
}
