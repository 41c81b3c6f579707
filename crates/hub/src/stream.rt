//! A stream: what it is granted, how it begins, is written and ends.

pub(crate) mod demand;
pub(crate) mod grant;
pub(crate) mod granting;
pub(crate) mod new_stream;
pub(crate) mod refusals;
pub(crate) mod starting;
pub(crate) mod stream_backend;
pub(crate) mod stream_loop;
pub(crate) mod streaming;
pub(crate) mod work_backend;
