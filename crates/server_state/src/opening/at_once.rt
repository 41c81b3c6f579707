//! How much of a hub there may be at once.

ghost use Rattle.std.specs.Prelude.{◌≤◌};

use crate::opening::settings::HubSettings;
use slots::LINES;

/// The most streams that may run at once.
pub(crate) const MOST_STREAMS: usize = 1024;

/// How many slots there may be at once, and how many streams.
#[derive(Clone, Copy, Drop)]
pub(crate) struct AtOnce {
    pub slots: usize,
    pub streams: usize,
    ghost few: { streams ≤ 1024 },
}

impl AtOnce {
    /// As they are set.
    pub fn of(settings: &HubSettings) -> Self {
        AtOnce {
            slots: (settings.max_replication_slots as usize).min(LINES),
            streams: (settings.max_wal_senders as usize).min(MOST_STREAMS),
        }
    }
}
