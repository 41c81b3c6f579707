//! The command line: its words, and what they ask for.

pub(crate) mod command;
pub(crate) mod command_fault;
pub(crate) mod help;
pub(crate) mod naming;
pub(crate) mod password;
pub(crate) mod sizes;
pub(crate) mod times;
pub(crate) mod user_file;
pub(crate) mod words;
