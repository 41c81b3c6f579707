//! A login: an exchange in the messages of PostgreSQL's protocol, of which the socket brings the bodies.

ghost use Rattle.std.specs.Prelude.{IfOk};
ghost use Rattle.scram.specs.Attributes.{Answers};
ghost use Rattle.scram.specs.Logins.{GivesText, ProvedBy, answer_to, begins, initial_of};

use crate::fault::ExchangeFault;
use crate::server_side::account::Account;
use crate::server_side::server_exchange::Exchange;
use pqformat::{Cursor, Items};
use std::alloc::Global;

/// The only mechanism that is offered.
pub const MECHANISM: &str = "SCRAM-SHA-256";

/// The most bytes of a body that are read.
pub const MOST_BODY_BYTES: usize = 1024;

/// In the place of a length, that no message stands there.
const NO_MESSAGE: u32 = u32::MAX;

/// Of whom a proof is asked, and by which nonce.
#[derive(Drop)]
pub struct ProofRequest {
    pub account: Account,
    /// New and random, printable, and without a comma.
    pub nonce: Items<u8>,
}

/// How far a login is.
#[derive(Drop)]
pub enum Login {
    /// The mechanism is waited for.
    Offered(ProofRequest),
    /// It was chosen without a first message, which is waited for.
    Chosen(ProofRequest),
    /// The last message is waited for.
    Challenged(Exchange),
}

/// What a client is told.
#[derive(Drop)]
pub enum Reply {
    /// An AuthenticationSASLContinue with this, and the login goes on.
    Continue(Items<u8>, Login),
    /// An AuthenticationSASLFinal with this, and AuthenticationOk: the client has proved that it knows the password.
    Final(Items<u8>),
}

impl Login {
    /// The answer of a message of the type `p`: a SASLInitialResponse, and then SASLResponses (PostgreSQL 15, 55.3).
    ///
    /// A body over `MOST_BODY_BYTES` is `ExchangeFault::Password`. A SASLInitialResponse is refused whose mechanism doesn't end
    /// (`NoMechanism`) or isn't offered (`Mechanism`), whose first message isn't there whole (`Short`) or is followed by
    /// something (`Trailing`). A first message is refused as by `Exchange::begin`, the last one as by `Exchange::finish`. Or
    /// `Memory`.
    #[tactic(auto, using(crate::proofs::Failing::fails))]
    pub fn answer(self, alloc: Global, body: &[u8]) -> Result<Reply, ExchangeFault>
        ensures exact { Answers result (answer_to self body.now) }
        ensures proved { IfOk result (λ reply. ProvedBy self body.now reply) }
    {
        if MOST_BODY_BYTES < body.len() {
            return Err(ExchangeFault::Password);
        }
        match self {
            Login::Offered(asked) => match initial_of(body)? {
                Some(text) => begin(alloc, asked, text),
                None => {
                    let nothing = Items::new(Vec::new(alloc));
                    Ok(Reply::Continue(nothing, Login::Chosen(asked)))
                }
            },
            Login::Chosen(asked) => begin(alloc, asked, body),
            Login::Challenged(exchange) => Ok(Reply::Final(exchange.finish(alloc, body)?)),
        }
    }
}

/// The challenge that answers the first message.
#[tactic(auto, using(crate::proofs::Failing::fails))]
fn begin(alloc: Global, asked: ProofRequest, text: &[u8]) -> Result<Reply, ExchangeFault>
    ensures { Answers result (begins asked text.now) }
{
    let exchange = Exchange::begin(alloc, asked.account, asked.nonce.as_slice(), text)?;
    let challenge = exchange.challenge(alloc)?;
    Ok(Reply::Continue(challenge, Login::Challenged(exchange)))
}

/// The first message in a SASLInitialResponse, if one stands there.
fn initial_of(body: &[u8]) -> Result<Option<&[u8]>, ExchangeFault>
    ensures { GivesText result (initial_of body.now) }
{
    let mut cursor = Cursor::new(body);
    let mechanism = cursor.cstr().ok_or(ExchangeFault::NoMechanism)?;
    if mechanism != MECHANISM.as_bytes() {
        return Err(ExchangeFault::Mechanism);
    }
    let length = cursor.u32().ok_or(ExchangeFault::Short)?;
    let text = cursor.rest();
    if length == NO_MESSAGE {
        return if text.is_empty() {
            Ok(None)
        } else {
            Err(ExchangeFault::Trailing)
        };
    }
    if text.len() < length as usize {
        return Err(ExchangeFault::Short);
    }
    if (length as usize) < text.len() {
        return Err(ExchangeFault::Trailing);
    }
    Ok(Some(text))
}
