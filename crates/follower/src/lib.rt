//! A client that follows a slot: it asks for a stream, prints each message, and acknowledges each transaction; or, over lost
//! connections, prints each transaction once.
//!
//! `follow` does it over one connection, `resume` over as many as it takes, from a `ResumePoint` that an `Output` gives; a
//! `Follower` hands the transactions to its caller, with rows whose values are asked for by the names of columns. `copy_rows` and
//! `CopiedRows` have the rows that are there first.
//!
//! `login/authenticating.rt` proves a password, `login/asking.rt` speaks to the server, `copying/session.rt` copies,
//! `receiving/stream_receiver.rt` takes a stream, `receiving/delivery.rt` prints and acknowledges, `printing/json_form.rt` and
//! `printing/text_form.rt` read kept lines again.
//!
//! Read `options.rt`, `resuming.rt`, `receiving/delivery.rt`, then specs/Lib.antt. Above, `subcat` uses one contract: what stands
//! in the output is each published transaction from the start on, once and in order, and nothing is acknowledged that wasn't kept.
#![tactic(auto)]

mod connecting;
mod copying;
mod fault;
mod follower;
mod follower_host;
mod following;
mod library;
mod login;
mod options;
mod printing;
mod quoting;
mod receiving;
mod resume_point;
mod resuming;
mod retrying;

pub use connecting::connect;
pub use copying::printed_copy::copy_rows;
pub use fault::{FollowFault, OtherSystem, ServerError};
pub use follower::Follower;
pub use follower_host::FollowerHost;
pub use following::follow;
pub use library::copied_rows::CopiedRows;
pub use library::row::Row;
pub use library::transaction::{Change, Transaction};
pub use login::login_fault::LoginFault;
pub use login::peer::Peer;
pub use options::Options;
pub use pgoutput::{Cell, Column, Identity, Message, Relation};
pub use printing::form::Form;
pub use printing::output::Output;
pub use receiving::promise::{
    a_run_goes_on_after_the_last_whole_one, each_transaction_is_printed_once,
    each_transaction_stands_once_over_kills, no_acknowledgement_is_ahead, no_transaction_is_lost,
    what_stands_is_a_beginning_of_what_is_published,
};
pub use resume_point::ResumePoint;
pub use resuming::{Subscription, resume};
pub use retrying::{LONGEST_PAUSE, Pauses, SHORTEST_PAUSE};
