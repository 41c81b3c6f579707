//! What the connections of a hub have in common, but for their streams: its log and rows, its slots, its publications, what
//! transactions and notes write, and what whoever runs it looks at and steers.
//!
//! `HubBuilder` is what a hub is opened with, and `ServerState` what is made of it. `hub` serves connections from that.
//!
//! Read `opening/hub_builder.rt`, `server_state.rt`, `sessions/transaction.rt`, `kept/keeping.rt`, `disk/keeping_on.rt`. Above, one contract is used: a
//! `Transaction` writes exactly the records that its calls name, and Ok of its end says that they are committed (`ended`).
#![tactic(auto)]

mod arrivals;
mod disk;
mod fault;
mod kept;
mod opening;
mod publications;
mod server_state;
mod sessions;
mod streams;

pub use arrivals::arriving::Admission;
pub use disk::disk_fault::DiskFault;
pub use disk::identity::{OtherLog, judge_identity};
pub use fault::{EndFault, HubFault, NoteFault, ServeFault, SteerFault};
pub use kept::keeping::SlotWithSnapshot;
pub use kept::pool::ReaderSeat;
pub use opening::configured::ConfigurationFault;
pub use opening::hub_builder::HubBuilder;
pub use opening::new_publication::{NewMember, NewPublication};
pub use opening::new_table::NewTable;
pub use opening::settings::HubSettings;
pub use opening::system::SystemName;
pub use publications::copying::TableCopy;
pub use publications::described::{attributes_of, found_table};
pub use publications::members::{column_lists, row_filters};
pub use publications::published::{known_names, tables_of};
pub use publications::published_columns::columns_of;
pub use publications::refusals::{of_publications, of_slot};
pub use server_state::ServerState;
pub use sessions::change_fault::ChangeFault;
pub use sessions::transaction::{Savepoint, Transaction};
pub use sessions::writing::{Left, Writing};
pub use streams::commit_notice::CommitNotice;
pub use streams::spreading::Woken;
pub use streams::status::{DiskStatus, HubStatus, SlotStatus};
