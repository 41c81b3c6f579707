//! One turn of an authentication: the startup or the message at the front of what is pending, and its answer.

ghost use Rattle.std.specs.Prelude.{◌≡◌, ◌≢◌, ◌≤◌, ◌++◌, List, ℕ, OnErr, IfOk, codes, length, option_map};
ghost use Rattle.pqformat.specs.Putting.{Extends, Puts};
ghost use Rattle.scram.specs.Logins.{answer_to};
ghost use Rattle.server.specs.Opening.{value_of};
ghost use Rattle.server.specs.Said.{error_of_refusal};
ghost use Rattle.server.specs.Turns.{refusal_of};
ghost use Rattle.connections.specs.Refusing.{fatal, not_a_message};
ghost use Rattle.connections.specs.Turns.{AreTurns, Asks, IsProved, IsTurned, Opens, Replies, Says, Turn, named_user};
ghost use Rattle.connections.specs.declared.authentication.stage.StartupUser.{StartupUser};
ghost use Rattle.connections.specs.declared.authentication.stage.AuthenticationStage.TheVariants as stages;
ghost use Rattle.connections.specs.declared.authentication.stage.AuthenticationStage.TheVariants.{Closed, Fresh, Passed};

use crate::authentication::password_message::read_password;
use crate::authentication::refusing::{say_failed, say_fatal};
use crate::authentication::sasl::{say_continue, say_final, say_request};
use crate::authentication::stage::{Asking, AuthenticationStage, AuthenticationTurn, StartupUser};
use crate::authentication::users::Users;
use bytes::BytesMut;
use frames::{FrameFault, Parameter, Startup, read_startup};
use pqformat::{Items, Text};
use scram::{ExchangeFault, Login, ProofRequest, Reply};
use server::{Refusal, say_refused};
use std::alloc::{AllocError, Global};

/// The value of the last parameter `user`.
fn value_of_user(parameters: &[Parameter]) -> Option<&str>
    ensures { option_map (λ s. s.now) result ≡ value_of (codes "user") parameters.now }
{
    let mut found = None;
    for parameter in parameters {
        if parameter.name.as_str() == "user" {
            found = Some(parameter.value.as_str());
        }
    }
    found
}

/// The user that is named.
fn named_user(parameters: &[Parameter]) -> Option<&str>
    ensures { option_map (λ s. s.now) result
        ≡ named_user (value_of (codes "user") parameters.now) }
{
    match value_of_user(parameters) {
        Some(user) if !user.is_empty() => Some(user),
        _ => None,
    }
}

/// Of whom, and by which nonce, a proof is asked.
#[derive(Clone, Copy)]
pub(crate) struct Guarding<'a> {
    pub users: &'a Users,
    pub nonce: &'a [u8],
}

/// Asks this user for a proof.
#[tactic(auto, using(pqformat::proofs::Putting::in_place))]
fn ask(
    alloc: Global,
    guarding: Guarding<'_>,
    startup: &[u8],
    user: &str,
    out: &mut BytesMut,
) -> Result<AuthenticationStage, AllocError>
    ensures asks { IfOk result
        (λ next. (said : List ℕ)
        × Asks guarding.entry.users.now guarding.entry.nonce.now startup.now (Some user.now) said next
        × (out.new.items ≡ out.old.items ++ said)) }
    ensures kept { OnErr result (Extends out.old.items out.new.items) }
{
    let account = guarding.users.account_of(alloc, user)?;
    let nonce = Items::new(Vec::from_slice(alloc, guarding.nonce)?);
    let opening = StartupUser {
        startup: Items::new(Vec::from_slice(alloc, startup)?),
        user: Text::copy_of(alloc, user)?,
    };
    say_request(out)?;
    let login = Login::Offered(ProofRequest { account, nonce });
    Ok(AuthenticationStage::Asked(Asking { opening, login }))
}

/// Answers a session's startup.
#[tactic(auto, using(pqformat::proofs::Putting::in_place))]
fn open_session(
    alloc: Global,
    guarding: Guarding<'_>,
    startup: &[u8],
    parameters: &[Parameter],
    out: &mut BytesMut,
) -> Result<AuthenticationStage, AllocError>
    ensures asks { IfOk result
        (λ next. (said : List ℕ)
        × Asks guarding.entry.users.now guarding.entry.nonce.now startup.now
        (named_user (value_of (codes "user") parameters.now)) said next
        × (out.new.items ≡ out.old.items ++ said)) }
    ensures kept { OnErr result (Extends out.old.items out.new.items) }
{
    match named_user(parameters) {
        Some(user) => ask(alloc, guarding, startup, user, out),
        None => {
            say_fatal(
                alloc,
                out,
                "28000",
                "no PostgreSQL user name specified in startup packet",
            )?;
            Ok(AuthenticationStage::Closed)
        }
    }
}

/// Declines encryption (PostgreSQL 15, 55.2.10 and 55.2.11).
#[tactic(auto, using(pqformat::proofs::Putting::in_place))]
fn decline(out: &mut BytesMut) -> Result<AuthenticationStage, AllocError>
    ensures fresh { IfOk result (λ next. next ≡ Fresh) }
    ensures says { IfOk result (λ _. out.new.items ≡ out.old.items ++ codes "N") }
    ensures kept { OnErr result (Extends out.old.items out.new.items) }
{
    out.extend_from_slice(b"N")?;
    Ok(AuthenticationStage::Fresh)
}

#[tactic(auto, using(pqformat::proofs::Putting::in_place))]
fn answer_startup(
    alloc: Global,
    guarding: Guarding<'_>,
    text: &[u8],
    startup: &Startup,
    out: &mut BytesMut,
) -> Result<AuthenticationStage, AllocError>
    ensures opens { IfOk result
        (λ next. (said : List ℕ)
        × Opens guarding.entry.users.now guarding.entry.nonce.now text.now startup.now said next
        × (out.new.items ≡ out.old.items ++ said)) }
    ensures kept { OnErr result (Extends out.old.items out.new.items) }
{
    match startup {
        Startup::Session(parameters) => {
            open_session(alloc, guarding, text, parameters.as_slice(), out)
        }
        Startup::Ssl | Startup::Gss => decline(out),
        Startup::Cancel(_, _) => Ok(AuthenticationStage::Closed),
    }
}

/// Refuses what is pending, since it is no startup.
#[tactic(auto, using(pqformat::proofs::Putting::in_place))]
fn refuse_startup(
    alloc: Global,
    fault: FrameFault,
    pending: &[u8],
    out: &mut BytesMut,
) -> Result<AuthenticationTurn, AllocError>
    ensures readable { IfOk result (λ _. fault ≢ FrameFault.Memory) }
    ensures closes { IfOk result
        (λ t. t ≡ record { stage = Closed; count = length pending.now }) }
    ensures says { IfOk result
        (λ _. out.new.items ≡ out.old.items ++ error_of_refusal (refusal_of fault)) }
    ensures kept { OnErr result (Extends out.old.items out.new.items) }
{
    match fault {
        FrameFault::Memory => return Err(AllocError),
        FrameFault::BadVersion => say_refused(alloc, out, Refusal::Version)?,
        _ => say_refused(alloc, out, Refusal::Violation)?,
    }
    Ok(AuthenticationTurn {
        stage: AuthenticationStage::Closed,
        count: pending.len(),
    })
}

/// The turn of a connection that waits for its startup.
#[tactic(auto, using(pqformat::proofs::Putting::in_place))]
fn turn_startup(
    alloc: Global,
    guarding: Guarding<'_>,
    pending: &[u8],
    out: &mut BytesMut,
) -> Result<AuthenticationTurn, AllocError>
    ensures turned { IfOk result
        (λ t. IsTurned guarding.entry.users.now guarding.entry.nonce.now Fresh pending.now t out.old.items
        out.new.items) }
    ensures kept { OnErr result (Extends out.old.items out.new.items) }
{
    match read_startup(alloc, pending) {
        Ok(None) => Ok(AuthenticationTurn {
            stage: AuthenticationStage::Fresh,
            count: 0,
        }),
        Ok(Some((startup, count))) => {
            let stage = answer_startup(alloc, guarding, &pending[..count], &startup, out)?;
            Ok(AuthenticationTurn { stage, count })
        }
        Err(fault) => refuse_startup(alloc, fault, pending, out),
    }
}

/// Answers a message of the exchange.
#[tactic(auto, using(pqformat::proofs::Putting::in_place))]
fn answer_message(
    alloc: Global,
    asking: Asking,
    body: &[u8],
    out: &mut BytesMut,
) -> Result<AuthenticationStage, AllocError>
    ensures replies { IfOk result
        (λ next. (said : List ℕ)
        × Replies asking.opening (answer_to asking.login body.now) said next
        × (out.new.items ≡ out.old.items ++ said)) }
    ensures kept { OnErr result (Extends out.old.items out.new.items) }
{
    let Asking { opening, login } = asking;
    match login.answer(alloc, body) {
        Ok(Reply::Continue(text, login)) => {
            say_continue(out, text.as_slice())?;
            Ok(AuthenticationStage::Asked(Asking { opening, login }))
        }
        Ok(Reply::Final(text)) => {
            say_final(out, text.as_slice())?;
            Ok(AuthenticationStage::Passed(opening))
        }
        Err(ExchangeFault::Memory) => Err(AllocError),
        Err(fault) => {
            say_failed(alloc, out, fault, opening.user.as_str())?;
            Ok(AuthenticationStage::Closed)
        }
    }
}

/// Refuses a message whose length can't be right.
#[tactic(auto, using(pqformat::proofs::Putting::in_place))]
fn say_bad_length(alloc: Global, out: &mut BytesMut) -> Result<(), AllocError>
    ensures { Puts result out.old.items out.new.items
        (fatal (codes "08P01") (codes "invalid message length")) }
{
    say_fatal(alloc, out, "08P01", "invalid message length")
}

/// Refuses what is pending, since it is no message of the exchange.
#[tactic(auto, using(pqformat::proofs::Putting::in_place))]
fn refuse_message(
    alloc: Global,
    fault: FrameFault,
    user: &str,
    out: &mut BytesMut,
) -> Result<(), AllocError>
    ensures { Puts result out.old.items out.new.items (not_a_message fault user.now) }
{
    match fault {
        FrameFault::TooLong => say_failed(alloc, out, ExchangeFault::Password, user),
        FrameFault::UnknownType => say_fatal(alloc, out, "08P01", "expected SASL response"),
        FrameFault::BadLength => say_bad_length(alloc, out),
        FrameFault::BadVersion => say_bad_length(alloc, out),
        FrameFault::BadBody => say_bad_length(alloc, out),
        FrameFault::NotUtf8 => say_bad_length(alloc, out),
        FrameFault::Memory => say_bad_length(alloc, out),
    }
}

/// The turn of a connection whose user is asked for a proof.
#[tactic(auto, using(pqformat::proofs::Putting::in_place, crate::proofs::Turning::message_turned, crate::proofs::Turning::message_refused))]
fn turn_exchange(
    alloc: Global,
    guarding: Guarding<'_>,
    asking: Asking,
    pending: &[u8],
    out: &mut BytesMut,
) -> Result<AuthenticationTurn, AllocError>
    ensures turned { IfOk result
        (λ t. IsTurned guarding.entry.users.now guarding.entry.nonce.now (stages.Asked asking) pending.now t
        out.old.items out.new.items) }
    ensures kept { OnErr result (Extends out.old.items out.new.items) }
{
    match read_password(pending) {
        Ok(None) => Ok(AuthenticationTurn {
            stage: AuthenticationStage::Asked(asking),
            count: 0,
        }),
        Ok(Some((body, count))) => {
            let stage = answer_message(alloc, asking, body, out)?;
            Ok(AuthenticationTurn { stage, count })
        }
        Err(fault) => {
            refuse_message(alloc, fault, asking.opening.user.as_str(), out)?;
            Ok(AuthenticationTurn {
                stage: AuthenticationStage::Closed,
                count: pending.len(),
            })
        }
    }
}

/// Takes one turn at this stage. Closed, all that is pending is passed over; where a user was let in, it waits.
#[tactic(auto, using(pqformat::proofs::Putting::in_place))]
pub(crate) fn turn(
    alloc: Global,
    guarding: Guarding<'_>,
    stage: AuthenticationStage,
    pending: &[u8],
    out: &mut BytesMut,
) -> Result<AuthenticationTurn, AllocError>
    ensures turned { IfOk result
        (λ t. IsTurned guarding.entry.users.now guarding.entry.nonce.now stage pending.now t out.old.items
        out.new.items) }
    ensures kept { OnErr result (Extends out.old.items out.new.items) }
{
    match stage {
        AuthenticationStage::Fresh => turn_startup(alloc, guarding, pending, out),
        AuthenticationStage::Asked(asking) => turn_exchange(alloc, guarding, asking, pending, out),
        AuthenticationStage::Passed(opening) => Ok(AuthenticationTurn {
            stage: AuthenticationStage::Passed(opening),
            count: 0,
        }),
        AuthenticationStage::Closed => Ok(AuthenticationTurn {
            stage: AuthenticationStage::Closed,
            count: pending.len(),
        }),
    }
}

/// The law of an authentication: whatever was said and answered from the startup on, a user is let in only where the client
/// proved that it knows the key of the user that the startup names.
pub fn passes_only_by_proof()
    ensures { (nonce : List ℕ) (turns : List Turn) (opening : StartupUser) →
        AreTurns nonce Fresh turns (Passed opening) → IsProved nonce opening }
{}
