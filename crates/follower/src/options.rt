//! What is followed.

use crate::printing::form::Form;

/// Which slot is followed, from where on, and for how long.
#[derive(Clone, Copy)]
pub struct Options<'a> {
    /// Whether the slot is created first.
    pub create: bool,
    /// The name of the slot: 1 to 63 lower-case letters, digits and underscores, else the server refuses it (42602).
    pub slot: &'a str,
    /// Where the stream should begin, a byte position of the server's log; 0 for where the slot is. A slot that is confirmed further begins
    /// there.
    pub position: u64,
    /// The system that the position is of, as IDENTIFY_SYSTEM names it, where that is known: another one is refused (K7).
    pub system: Option<&'a str>,
    /// Names of publications, joined by commas, as `publication_names` takes them.
    pub publications: &'a str,
    /// Whether the messages that sessions put into the log are asked for too, by the option `messages` of
    /// START_REPLICATION (PostgreSQL 15, 55.5).
    pub messages: bool,
    /// After so many transactions `follow` and `resume` end the stream. A message outside of one counts as one.
    pub count: u32,
    /// How it is printed.
    pub form: Form,
    /// Whether, in JSON, the line of each Commit and of each message outside of a transaction has a member `sent`: what the server's
    /// clock said as it sent that, in microseconds since 2000-01-01.
    pub send_times: bool,
    /// Who connects: a name that isn't empty and has no zero byte. Its database has the same name.
    pub user: &'a str,
    /// What is proved to a server that asks for a password.
    pub password: Option<&'a [u8]>,
}

impl<'a> Options<'a> {
    /// Of a slot, which is created unless it is there, and of these publications, from where the slot is confirmed on and for good, by
    /// a user of the slot's name without a password. What is printed is text.
    pub fn new(slot: &'a str, publications: &'a str) -> Self {
        Options {
            create: true,
            slot,
            position: 0,
            system: None,
            publications,
            messages: false,
            count: u32::MAX,
            form: Form::Text,
            send_times: false,
            user: slot,
            password: None,
        }
    }
}
