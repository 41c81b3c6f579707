//! Why a client may not connect, as it is told: by a fatal error, after which the connection is closed.

ghost use Rattle.std.specs.Prelude.{◌≡◌, ◌≤◌, ◌++◌, ◌∷◌, [], length, OnOk, IfOk, codes, string_bytes};
ghost use Rattle.frames.specs.declared.back.Back.TheVariants.{ErrorResponse as ErrorFrame};
ghost use Rattle.pqformat.specs.Putting.{Puts};
ghost use Rattle.scram.specs.Told.{fault_code};
ghost use Rattle.connections.specs.Refusing.{fatal, fatal_frame, password_text, told_text};

use bytes::BytesMut;
use frames::{Back, ErrorField, ErrorResponse, write_back};
use pqformat::{Items, Text};
use scram::ExchangeFault;
use std::alloc::{AllocError, Global};

/// The most bytes of a name that is repeated: PostgreSQL has no longer ones (PostgreSQL 15, 4.1.1).
pub(crate) const MOST_NAME_BYTES: usize = 63;

fn push_field(
    alloc: Global,
    fields: &mut Vec<ErrorField>,
    code: u8,
    text: &str,
) -> Result<(), AllocError>
    ensures { OnOk result
        (fields.new.items ≡ fields.old.items ++ (record { code = code; text = text.now } ∷ [])) }
{
    let field = ErrorField {
        code,
        text: Text::copy_of(alloc, text)?,
    };
    fields.push(field)?;
    Ok(())
}

fn fatal_fields(alloc: Global, code: &str, text: &str) -> Result<Items<ErrorField>, AllocError>
    ensures { IfOk result
        (λ fields. ErrorFrame (record { fields = fields }) ≡ fatal_frame code.now text.now) }
{
    let mut fields = Vec::new(alloc);
    push_field(alloc, &mut fields, b'S', "FATAL")?;
    push_field(alloc, &mut fields, b'V', "FATAL")?;
    push_field(alloc, &mut fields, b'C', code)?;
    push_field(alloc, &mut fields, b'M', text)?;
    Ok(Items::new(fields))
}

/// A fatal error of this code and this text.
#[tactic(auto, using(pqformat::proofs::Putting::in_place), unfolding(crate::specs::Refusing::fatal, server::specs::Said::sent_frame))]
pub(crate) fn say_fatal(
    alloc: Global,
    out: &mut BytesMut,
    code: &str,
    text: &str,
) -> Result<(), AllocError>
    requires code { length code.now ≤ 40 }
    requires text { length text.now ≤ 120 }
    ensures { Puts result out.old.items out.new.items (fatal code.now text.now) }
{
    let fields = fatal_fields(alloc, code, text)?;
    let frame = Back::ErrorResponse(ErrorResponse { fields });
    let written = write_back(&frame, out);
    // Let go by one call, which keeps the proof short.
    drop(frame);
    written
}

/// Why this user's exchange failed: of a wrong password PostgreSQL names the user.
#[tactic(auto, using(pqformat::proofs::Putting::in_place))]
pub(crate) fn say_failed(
    alloc: Global,
    out: &mut BytesMut,
    fault: ExchangeFault,
    user: &str,
) -> Result<(), AllocError>
    ensures { Puts result out.old.items out.new.items
        (fatal (fault_code fault) (told_text fault user.now)) }
{
    let text = told_text(alloc, fault, user)?;
    let (code, _plain) = fault.told();
    say_fatal(alloc, out, code, text.as_str())
}

fn told_text(alloc: Global, fault: ExchangeFault, user: &str) -> Result<String, AllocError>
    ensures text { IfOk result (λ t. string_bytes t ≡ told_text fault user.now) }
    ensures short { IfOk result (λ t. length (string_bytes t) ≤ 120) }
{
    match fault {
        ExchangeFault::Password if user.len() <= MOST_NAME_BYTES => password_text(alloc, user),
        _ => {
            let (_code, text) = fault.told();
            String::from_str(alloc, text)
        }
    }
}

fn password_text(alloc: Global, user: &str) -> Result<String, AllocError>
    ensures { IfOk result (λ t. string_bytes t ≡ password_text user.now) }
{
    let mut text = String::from_str(alloc, "password authentication failed for user \"")?;
    text.push_str(user)?;
    text.push_str("\"")?;
    Ok(text)
}
