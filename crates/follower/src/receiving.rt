//! What comes of a stream.

pub(crate) mod delivery;
pub(crate) mod giving;
pub(crate) mod incoming;
pub(crate) mod promise;
pub(crate) mod stream_receiver;
pub(crate) mod streamed;
