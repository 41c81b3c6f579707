//! The hub that a configuration and the command line ask for.

use crate::fault::Fault;
use crate::options::naming::system_name;
use crate::options::words::Numbers;
use configuration::Config;
use hub::{HubBuilder, HubSettings};

/// A hub for this configuration, with those limits that are told.
pub(crate) fn opened(
    rt: &HostRuntime,
    config: Config,
    numbers: &Numbers,
) -> Result<HubBuilder, Fault> {
    let alloc = rt.alloc();
    let (catalog, publications, server) = config.into_parts();
    let system = system_name(rt, alloc, server.systemid).map_err(Fault::System)?;
    let opened = HubBuilder::new(alloc, catalog, publications, system, server.records);
    let mut opened = opened.map_err(Fault::Hub)?;
    opened.settings.chunks = numbers.chunks.unwrap_or(server.chunks as u32);
    limit(&mut opened.settings, numbers);
    Ok(opened)
}

fn limit(settings: &mut HubSettings, numbers: &Numbers) {
    settings.wal_sender_timeout = numbers
        .wal_sender_timeout
        .unwrap_or(settings.wal_sender_timeout);
    settings.authentication_timeout = numbers
        .authentication_timeout
        .unwrap_or(settings.authentication_timeout);
    settings.connections = numbers.connections;
    settings.max_connections = numbers.max_connections.unwrap_or(settings.max_connections);
    settings.max_replication_slots = numbers
        .max_replication_slots
        .unwrap_or(settings.max_replication_slots);
    settings.max_wal_senders = numbers.max_wal_senders.unwrap_or(settings.max_wal_senders);
    settings.max_slot_keep = numbers.max_slot_keep;
    settings.answers_postgresql = numbers.answers_postgresql;
    settings.allows_start_ahead = numbers.allows_start_ahead;
    settings.synchronous_commit = numbers.synchronous_commit;
}
