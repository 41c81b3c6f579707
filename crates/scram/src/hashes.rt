//! Hashes and their texts.

pub(crate) mod coding;
pub(crate) mod digest;
pub(crate) mod hmac;
pub(crate) mod pbkdf2;
