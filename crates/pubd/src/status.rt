//! A page over HTTP that tells what runs.

pub(crate) mod asker;
pub(crate) mod log_watch;
pub(crate) mod status_page;
pub(crate) mod status_service;
pub(crate) mod status_text;
