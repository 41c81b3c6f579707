//! Passwords by SCRAM-SHA-256, as PostgreSQL has them (PostgreSQL 15, 55.3.1): what a server keeps of a password, and both sides
//! of an exchange that proves that each knows it. No socket, no randomness of its own.
//!
//! `Verifier` is what a server keeps, `Exchange` the server's side of RFC 5802's messages, and `Login` the same in the bodies of
//! PostgreSQL's authentication frames; `ClientExchange` is the client's side. `prepared` is the password that goes in, by SASLprep
//! (`saslprep.rt`). `hashes/hmac.rt` and `hashes/pbkdf2.rt` stand on a given SHA-256, SASLprep on a given NFKC.
//!
//! Read `server_side/login.rt`, `server_side/server_exchange.rt`, `client_side/client_exchange.rt`, `server_side/verifier.rt`. Above, two contracts are used: a login succeeds only
//! where the client proved that it knows the key of the user that it named (`Login::answer`: `proved`), and a client goes on only
//! with a server that knows the key of its password (`ClientAnswer::confirm`, `confirms_only_by_the_password`).
#![tactic(auto)]

mod client_side;
mod fault;
mod hashes;
mod parts;
mod saslprep;
mod server_side;

pub use client_side::client_exchange::{
    ClientAnswer, ClientExchange, confirms_only_by_the_password,
};
pub use client_side::iteration_count::MOST_ROUNDS;
pub use client_side::server_fault::ServerFault;
pub use fault::{ExchangeFault, Malformed, VerifierFault};
pub use hashes::coding::base64_of;
pub use hashes::hmac::{DIGEST_BYTES, hmac_sha256};
pub use hashes::pbkdf2::salted_password;
pub use saslprep::prepared;
pub use server_side::account::Account;
pub use server_side::login::{Login, MECHANISM, MOST_BODY_BYTES, ProofRequest, Reply};
pub use server_side::server_exchange::Exchange;
pub use server_side::user_line::line_of_user;
pub use server_side::verifier::{ROUNDS, SALT_BYTES, Verifier};
