//! The frames that a server sends, one a file.

pub(crate) mod authentication_ok;
pub(crate) mod backend_key_data;
pub(crate) mod command_complete;
pub(crate) mod copy_both_response;
pub(crate) mod data_row;
pub(crate) mod error_response;
pub(crate) mod parameter_status;
pub(crate) mod ready_for_query;
pub(crate) mod row_description;
