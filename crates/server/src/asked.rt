//! What a query asks, and what is said of it.

pub(crate) mod copy_command;
pub(crate) mod copy_query;
pub(crate) mod database;
pub(crate) mod extended;
pub(crate) mod list;
pub(crate) mod literal;
pub(crate) mod naming;
pub(crate) mod parameter;
pub(crate) mod query;
pub(crate) mod question;
pub(crate) mod quoted;
pub(crate) mod refused_query;
pub(crate) mod replying;
pub(crate) mod table_name;
pub(crate) mod table_question;
pub(crate) mod telling_table;
