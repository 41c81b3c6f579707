//! Whose log a file is.

ghost use Rattle.std.specs.Prelude.{◌≡◌, ◌++◌, ◌∷◌, [], List, OnOk};
ghost use Rattle.segments.specs.Entries.{Written};
ghost use Rattle.segments.specs.Contents.{HasWritten};
ghost use Rattle.segments.specs.Identity.{identity_in, spell_identity};
ghost use Rattle.segments.specs.RecordReading.{Answers};

use crate::fault::SegmentFault;
use crate::records::fault::RecordFault;
use crate::segment::Segment;
use crate::slot_events::reading::text_of;
use bytes::BytesMut;
use pqformat::{Cursor, Text, put_byte, put_bytes};
use sqlite_disk::Disk;
use std::alloc::{AllocError, Global};

/// The first byte of what tells whose log a file is.
pub const IDENTITY_TAG: u8 = 9;

/// Writes whose log the file is. It isn't on the disk before a sync. It fails as `Segment::append` does.
pub fn write_identity<D: Disk + Drop>(
    alloc: Global,
    segment: &mut Segment<D>,
    identity: &str,
) -> Result<(), SegmentFault>
    ensures { OnOk result
        ((es : List Written) → HasWritten D.seen segment.old es →
        HasWritten D.seen segment.new
        (es ++ record { synced = segment.old.synced; body = spell_identity identity.now } ∷ [])) }
{
    let mut body = BytesMut::new(alloc);
    put_identity(identity, &mut body)?;
    segment.append(body.as_slice())
}

fn put_identity(identity: &str, out: &mut BytesMut) -> Result<(), AllocError>
    ensures { OnOk result (out.new.items ≡ out.old.items ++ spell_identity identity.now) }
{
    put_byte(out, IDENTITY_TAG)?;
    put_bytes(out, identity.as_bytes())
}

/// Whose log a file is, by what these bytes tell. `NoRecord` where they don't, or `Memory`.
pub fn read_identity(alloc: Global, bytes: &[u8]) -> Result<Text, RecordFault>
    ensures { Answers (λ identity. identity) result (identity_in bytes.now) }
{
    let mut cursor = Cursor::new(bytes);
    let tag = cursor.u8().ok_or(RecordFault::NoRecord)?;
    if tag != IDENTITY_TAG {
        return Err(RecordFault::NoRecord);
    }
    text_of(alloc, cursor.rest())
}
