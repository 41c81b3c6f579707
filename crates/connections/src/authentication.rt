//! Who may connect: the server's side of a connection up to the proof of its user's password, and the connection after it.
//!
//! `Users` are those of a file of passwords, and what nobody else knows. `GuardedConnection` asks the user that a startup names
//! for a proof (PostgreSQL 15, 55.2.1), and lets a `Connection` of `server` have the startup once it was right; where no passwords
//! are asked it is that connection. `stage.rt` says how far it is, `turn.rt` takes a startup or a message. No socket, no randomness.

pub(crate) mod guarded_connection;
pub(crate) mod nonce;
pub(crate) mod password_message;
pub(crate) mod refusing;
pub(crate) mod sasl;
pub(crate) mod stage;
pub(crate) mod turn;
pub(crate) mod user_lines;
pub(crate) mod users;
