//! A publisher that many connections are served from: what they share, and two threads for each. Its rules are told in
//! docs/SERVING.md.
//!
//! `serve` takes connections from a listener (`serving.rt`). The reading thread of each (`connection/read_loop.rt`) turns bytes
//! into words over a `HubBackend`; its writing thread (`connection/write_loop.rt`) sends these and the stream, whose turns
//! `stream/stream_loop.rt` takes. A START goes through `stream/starting.rt` and `stream/granting.rt`.
//!
//! Read `hub.rt`, `serving.rt`, `connection/read_loop.rt`, `connection/write_loop.rt`, then `stream/stream_loop.rt`, which has the
//! contract that README's promise stands on: what a connection writes of its stream is one encoding of what the log publishes
//! (`write_stream`: `slot`).
#![tactic(auto)]

mod connection;
mod hub;
mod listener_handle;
mod server_host;
mod service;
mod service_hub;
mod serving;
mod stream;

pub use connections::{
    AcceptError, ConnectionEnd, ConnectionRefusal, NoopObserver, RefusedCommand, ServerObserver,
};
pub use hub::Hub;
pub use listener_handle::ListenerHandle;
pub use named_rows::{Datum, FieldFault, NamedDatum, RowView, field};
pub use server::Refusal;
pub use server_host::ServerHost;
pub use server_state::{
    ChangeFault, ConfigurationFault, DiskFault, DiskStatus, EndFault, HubBuilder, HubFault,
    HubSettings, HubStatus, Left, NewMember, NewPublication, NewTable, NoteFault, OtherLog,
    Savepoint, ServeFault, SlotStatus, SteerFault, Transaction, Writing, judge_identity,
};
pub use service::{HubName, Service};
pub use service_hub::{WithHubFault, with_hub};
pub use serving::serve;
pub use txlog::SessionFault;
