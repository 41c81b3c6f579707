//! The server's side of a connection, as a core of its own: bytes in, bytes out, and a backend that it asks; with the questions that
//! PostgreSQL's own clients ask beside the commands, and what a server says. No socket, no thread.
//!
//! `Connection` takes bytes and adds answers, over a `Backend` that it asks. `stages/stage.rt` says what a connection waits for;
//! `stages/opening.rt`, `sessions/session.rt`, `stages/copying.rt` and `stages/streaming.rt` take the turns of the stages;
//! `asked/query.rt` runs commands, `asked/question.rt` knows the questions of clients; `refusal.rt` has each refusal's code and text.
//!
//! Read `connection.rt`, `stages/turn.rt`, `sessions/session.rt`, `asked/query.rt`. Above, one contract is used: whatever comes in
//! whatever cuts, what was asked of the backend and what was said is one conversation (specs: `IsConversation`).
#![tactic(auto)]

mod asked;
mod backend;
mod backend_fault;
mod connection;
mod connection_terms;
mod conversation;
mod fault;
mod found_table;
mod refusal;
mod said;
mod sessions;
mod stages;

pub use asked::question::{Question, no_text_asks_two_questions, question_of};
pub use asked::table_name::{TableColumns, TableName};
pub use backend::Backend;
pub use backend_fault::{BackendFault, StartAhead};
pub use connection::{Connection, Phase};
pub use connection_terms::{ConnectionTerms, Dialect};
pub use conversation::{ConnectionEvent, converse};
pub use fault::ConnFault;
pub use found_table::{FoundTable, TableAttribute, TableIdentity};
pub use refusal::Refusal;
pub use said::ending::say_ended;
pub use said::row_text::no_text_is_of_two_copies;
pub use said::say::{
    say_created, say_dropped, say_greeting, say_identified, say_refused, say_refused_ready,
};
pub use said::say_answers::{
    say_found_tables, say_other_greeting, say_path_set, say_publications, say_shown,
};
pub use said::say_columns_told::say_found_columns;
pub use said::say_lists::{say_column_lists, say_row_filters};
pub use said::say_table::{say_attributes, say_found_table};
pub use said::starting::say_started;
