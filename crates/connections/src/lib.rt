//! The parts of served connections and of their slots that know neither the log nor publications: `hub` puts them together.
//!
//! A connection comes from a listener (`next_socket`), goes to its two threads (`Arrival`), and is counted among those that are
//! served (`Sockets`). Its reading thread reads (`read_more`); what that leaves for its writing thread is an `Inbox`, and with
//! the stream that has begun a `ConnectionMailbox`. Why it ends is a `ConnectionEnd`, and what it is told then a `StreamError`.
//! Whoever runs the server hears of its commands by a `ServerObserver`. `Names` makes and drops slots, and a `Hold` is of one
//! that a stream has claimed. A `Latch` wakes the stream's writing thread; what it writes goes through a `MeteredWriter`, past
//! the `SlotMonitor` of its slot, where it is looked at and steered (`StreamControl`). Where passwords are asked, `Users` has those
//! who may connect, and a `GuardedConnection` hears nothing before the proof of its user's.
//!
//! Read `inbox.rt`, `connection_mailbox.rt`, `slot/slot_monitor.rt`, `authentication/guarded_connection.rt`. Above, a few contracts
//! are used: what a pool, an inbox or a mailbox was given comes out, once; as many bytes as a write took came to the writer; a cut
//! passes as many as it says; before a right proof of the user that the startup names, nothing but the startup and its messages is
//! answered, and the connection hears nothing (specs: `IsTurn`).
#![tactic(auto)]

mod authentication;
mod connection_mailbox;
mod fault;
mod inbox;
mod refused_command;
mod server_observer;
mod slot;
mod socket;
mod words;

pub use authentication::guarded_connection::GuardedConnection;
pub use authentication::nonce::{NONCE_BYTES, nonce_of};
pub use authentication::password_message::{MOST_PASSWORD_BYTES, PASSWORD};
pub use authentication::sasl::AUTHENTICATION;
pub use authentication::turn::passes_only_by_proof;
pub use authentication::user_lines::{BadUserLine, UserLineFault, users_in};
pub use authentication::users::{SECRET_BYTES, User, Users};
pub use connection_mailbox::ConnectionMailbox;
pub use fault::{AcceptError, ConnectionEnd, ConnectionRefusal};
pub use inbox::{Inbox, Work};
pub use refused_command::RefusedCommand;
pub use server_observer::{NoopObserver, ServerObserver};
pub use slot::flush_lag::{FlushLag, moment};
pub use slot::hold::Hold;
pub use slot::latch::Latch;
pub use slot::names::Names;
pub use slot::slot_keeping::SlotKeeping;
pub use slot::slot_monitor::SlotMonitor;
pub use slot::slot_snapshot::SlotSnapshot;
pub use slot::slot_standing::SlotStanding;
pub use slot::stream_control::{StreamCommand, StreamControl};
pub use socket::arrival::Arrival;
pub use socket::crowd::hear_in_crowd;
pub use socket::listening::{is_of_listener, next_socket, rest};
pub use socket::metered_writer::MeteredWriter;
pub use socket::outlet::Outlet;
pub use socket::reading::{Came, Patience, has_gone, read_more};
pub use socket::sockets::Sockets;
pub use words::{StreamError, say_stream_error, write_stream_error};
