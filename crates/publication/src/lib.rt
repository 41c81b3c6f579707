//! What a stream selects of the publications by their names: which changes are published, and the messages that they become.
//!
//! `Publications` are what a server has, and `Selection` what one stream chose of them. `Selection::has_message` says whether a
//! change is published, and `Selection::put` writes its message, filtered and projected.
//!
//! Read `publications.rt`, `selection.rt`, `writing/putting.rt`; specs/Logged.antt says which message a change becomes. Above,
//! `walsender` uses one contract: `put` writes exactly the message of the definition, or none where there is none. `copied.rt` makes the
//! selection of an initial copy.
#![tactic(auto)]

mod copied;
mod projection;
mod publications;
mod rows;
mod selection;
mod writing;

pub use projection::Projected;
pub use publication_config::{
    PubFault, PublicationMember, PublicationMisfit, TableMember, TablePlace, explained,
};
pub use publications::Publications;
pub use row_messages::{MAX_MESSAGE_LENGTH, room_for};
pub use selection::Selection;
