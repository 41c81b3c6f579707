//! Frames of the PostgreSQL frontend/backend protocol: a type byte, a length and a body.
//!
//! A file for each frame: the struct with its fields, its tag, its reader and its writer. `front.rt` has what a client sends and
//! `back.rt` what a server sends, each an enum over those; `frontend/startup.rt` has what comes before the first tag; `parts/frame.rt` the
//! length that all have.
//!
//! Read `frontend/query.rt` as one of the kind, then `front.rt`. Above, one contract is used: `read_front` and `read_back` find exactly
//! the frame that the bytes begin with, wait while it isn't there whole, or name its fault; and no spelling begins another's, so
//! that cuts change nothing.
#![tactic(auto)]

mod back;
mod backend;
mod copy_data;
mod copy_done;
mod fault;
mod front;
mod frontend;
mod parts;

pub use back::{Back, no_back_begins_another, read_back, write_back};
pub use backend::authentication_ok::AUTHENTICATION;
pub use backend::backend_key_data::{BACKEND_KEY_DATA, BackendKeyData};
pub use backend::command_complete::{COMMAND_COMPLETE, CommandComplete};
pub use backend::copy_both_response::{COPY_BOTH_RESPONSE, CopyBothResponse};
pub use backend::data_row::{DATA_ROW, DataRow, DataValue};
pub use backend::error_response::{ERROR_RESPONSE, ErrorField, ErrorResponse};
pub use backend::parameter_status::PARAMETER_STATUS;
pub use backend::ready_for_query::{READY_FOR_QUERY, TransactionStatus};
pub use backend::row_description::{
    ColumnDescription, ColumnType, ROW_DESCRIPTION, RowDescription,
};
pub use copy_data::{COPY_DATA, CopyData};
pub use copy_done::COPY_DONE;
pub use fault::FrameFault;
pub use front::{Front, no_front_begins_another, read_front, write_front};
pub use frontend::copy_fail::{COPY_FAIL, CopyFail};
pub use frontend::parameter::Parameter;
pub use frontend::query::{QUERY, QUERY_LIMIT, Query};
pub use frontend::startup::{
    CANCEL_REQUEST, GSS_REQUEST, PROTOCOL_VERSION, SSL_REQUEST, STARTUP_LIMIT, Startup,
    no_startup_begins_another, read_startup,
};
pub use frontend::terminate::TERMINATE;
pub use parts::alone::body_alone;
pub use parts::frame::FRAME_LIMIT;
pub use pqformat::{
    Cursor, Items, Text, put_byte, put_bytes, put_int16, put_int32, put_int64, put_string, utf8_of,
};
