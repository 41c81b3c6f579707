//! The beginning of a session: what its startup asks for.

ghost use Rattle.std.specs.Prelude.{◌≡◌, ◌≤◌, ◌+◌, ◌++◌, length, option_map, OnOk, OnErr, IfOk, codes};
ghost use Rattle.pqformat.specs.Putting.{Extends, Puts};
ghost use Rattle.pqformat.specs.Steps.{closed_list};
ghost use Rattle.frames.specs.Parameter.{parameter};
ghost use Rattle.server.specs.Opening.{value_of, opened_database, is_database, first_of};
ghost use Rattle.server.specs.Said.{answer_to_startup, greeting_of};

use crate::asked::database::{Database, MOST_DATABASE_BYTES};
use crate::connection_terms::{ConnectionTerms, Dialect};
use crate::refusal::Refusal;
use crate::said::say::{say_greeting, say_refused};
use crate::said::say_answers::say_other_greeting;
use bytes::BytesMut;
use frames::Parameter;
use pqformat::Text;
use std::alloc::{AllocError, Global};

/// The value of the last parameter of this name.
fn value_of<'a>(parameters: &'a [Parameter], name: &str) -> Option<&'a str>
    ensures { option_map (λ s. s.now) result ≡ value_of name.now parameters.now }
{
    let mut found = None;
    for parameter in parameters {
        if parameter.name.as_str() == name {
            found = Some(parameter.value.as_str());
        }
    }
    found
}

/// Whether replication on a database is asked for.
fn asks_for_replication(parameters: &[Parameter]) -> bool
    ensures { result ≡ is_database (value_of (codes "replication") parameters.now) }
{
    match value_of(parameters, "replication") {
        Some(value) => value == "database",
        None => false,
    }
}

/// The name of the database: that of `database`, or else of `user`, or else none (PostgreSQL 15, 55.7, StartupMessage).
fn database_of(parameters: &[Parameter]) -> &str
    ensures { result.now
        ≡ first_of (value_of (codes "database") parameters.now)
        (value_of (codes "user") parameters.now) }
{
    match value_of(parameters, "database") {
        Some(name) => name,
        None => match value_of(parameters, "user") {
            Some(name) => name,
            None => "",
        },
    }
}

/// The beginning of a session.
#[tactic(auto, using(pqformat::proofs::Putting::in_place))]
fn greet(alloc: Global, service: ConnectionTerms, out: &mut BytesMut) -> Result<(), AllocError>
    ensures { Puts result out.old.items out.new.items (greeting_of service) }
{
    match service.dialect {
        Dialect::Commands => say_greeting(alloc, out, service.number),
        Dialect::Questions => say_other_greeting(alloc, out, service.number),
    }
}

/// Answers the startup of a session on a connection that is served so: the database, or that none is served.
///
/// The session must ask for `replication=database` (PostgreSQL 15, 55.4). Other parameters are passed over, and of a repeated
/// name the last pair counts. Refused, for want of memory: what stood in `out` still stands at its front.
#[tactic(auto, using(pqformat::proofs::Putting::in_place), unfolding(crate::specs::Opening::opened_database))]
pub(crate) fn open(
    alloc: Global,
    service: ConnectionTerms,
    parameters: &[Parameter],
    out: &mut BytesMut,
) -> Result<Option<Database>, AllocError>
    requires { length (closed_list parameter parameters.now) ≤ MOST_DATABASE_BYTES }
    ensures database { IfOk result (λ d. d ≡ opened_database parameters.now) }
    ensures says { OnOk result
        (out.new.items
        ≡ out.old.items ++ answer_to_startup service (opened_database parameters.now)) }
    ensures kept { OnErr result (Extends out.old.items out.new.items) }
{
    if !asks_for_replication(parameters) {
        say_refused(alloc, out, Refusal::NoReplication)?;
        return Ok(None);
    }
    let name = Text::copy_of(alloc, database_of(parameters))?;
    let database = Database::new(name);
    greet(alloc, service, out)?;
    Ok(Some(database))
}
