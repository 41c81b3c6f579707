//! What IS asks.

#[derive(Clone, Copy)]
pub enum IsTest {
    Null,
    True,
    False,
    Unknown,
}
