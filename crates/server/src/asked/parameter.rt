//! The parameters of a server that clients ask for.

ghost use Rattle.std.specs.Prelude.{◌≡◌, ◌≤◌, length, option_copied, string_bytes, IfOk, IfSome};
ghost use Rattle.server.specs.Answers.{parameter_value};
ghost use Rattle.server.specs.Refusals.{parameter_text};

use std::alloc::{AllocError, Global};

/// The value of the parameter of this name (PostgreSQL 15, 20), if it is known.
pub(crate) fn parameter_value(name: &str) -> Option<&'static str>
    ensures value { option_copied result ≡ parameter_value name.now }
    ensures short { IfSome result (λ value. length value.now ≤ 63) }
{
    match name {
        "data_directory_mode" => Some("0700"),
        "integer_datetimes" => Some("on"),
        "server_version" => Some("15.0"),
        "wal_level" => Some("logical"),
        "wal_segment_size" => Some("16MB"),
        _ => None,
    }
}

/// That a parameter isn't known.
pub(crate) fn unknown_text(alloc: Global, name: &str) -> Result<String, AllocError>
    requires { length name.now ≤ 63 }
    ensures text { IfOk result (λ t. string_bytes t ≡ parameter_text name.now) }
    ensures short { IfOk result (λ t. length (string_bytes t) ≤ 120) }
{
    let mut text = String::from_str(alloc, "unrecognized configuration parameter \"")?;
    text.push_str(name)?;
    text.push_str("\"")?;
    Ok(text)
}
