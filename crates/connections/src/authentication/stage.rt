//! How far an authentication is, and what a turn leaves of it.

use pqformat::{Items, Text};
use scram::Login;

/// Who is let in, and by which startup.
#[derive(Drop)]
pub(crate) struct StartupUser {
    /// The startup, as it was spelled.
    pub startup: Items<u8>,
    /// The user that it names.
    pub user: Text,
}

/// Who is asked for a proof, and how far that is.
#[derive(Drop)]
pub(crate) struct Asking {
    pub opening: StartupUser,
    pub login: Login,
}

/// How far an authentication is.
#[derive(Drop)]
pub(crate) enum AuthenticationStage {
    /// The startup is waited for.
    Fresh,
    /// A message of the exchange is.
    Asked(Asking),
    /// The user of this startup has proved that it knows its password.
    Passed(StartupUser),
    Closed,
}

/// What a turn leaves: the stage, and how many of the pending bytes it took. None, if they have to wait for more.
#[derive(Drop)]
pub(crate) struct AuthenticationTurn {
    pub stage: AuthenticationStage,
    pub count: usize,
}
