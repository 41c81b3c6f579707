//! What the tests stand on.

pub(crate) mod beside;
pub(crate) mod gated;
pub(crate) mod hub_fixture;
pub(crate) mod log_fixture;
pub(crate) mod log_reading;
pub(crate) mod peer;
pub(crate) mod work;
