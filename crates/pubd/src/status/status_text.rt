//! What runs, in Prometheus' text exposition format.

use hub::{DiskStatus, HubStatus, SlotStatus};
use std::io::Write;
use std::{fmt, io};

/// What is told of the server: the name of the family, its kind, and what it is.
const SERVER_FAMILIES: [(&str, &str, &str); 5] = [
    ("pubd_connections", "gauge", "Connections that are served"),
    (
        "pubd_streams_begun_total",
        "counter",
        "Streams that have begun",
    ),
    (
        "pubd_log_end_position",
        "gauge",
        "The position where the log ends",
    ),
    (
        "pubd_log_records",
        "gauge",
        "Records of the log that are kept",
    ),
    (
        "pubd_log_records_free",
        "gauge",
        "Records that the log has room for yet",
    ),
];

/// What is told of a log that is kept on a disk.
const DISK_FAMILIES: [(&str, &str, &str); 2] = [
    (
        "pubd_disk_end_position",
        "gauge",
        "The position up to which the log is on its disk",
    ),
    (
        "pubd_disk_failed",
        "gauge",
        "1 where the log's disk has failed, and commits are refused",
    ),
];

/// A line for each value, and two before each family. The writer's error.
pub fn write_status<W: Write>(status: &HubStatus, to: &mut W) -> io::Result<()> {
    for (name, kind, help) in &SERVER_FAMILIES {
        family(to, name, kind, help)?;
        writeln!(to, "{name} {}", server_value_of(name, status))?;
    }
    if let Some(disk) = status.disk {
        write_disk(disk, to)?;
    }
    write_slots(status, to)
}

fn write_disk<W: Write>(disk: DiskStatus, to: &mut W) -> io::Result<()> {
    for (name, kind, help) in &DISK_FAMILIES {
        family(to, name, kind, help)?;
        let value = match *name {
            "pubd_disk_failed" => u64::from(disk.has_failed),
            _ => disk.end,
        };
        writeln!(to, "{name} {value}")?;
    }
    Ok(())
}

fn server_value_of(family: &str, status: &HubStatus) -> u64 {
    match family {
        "pubd_connections" => u64::from(status.connections),
        "pubd_streams_begun_total" => status.streams_begun,
        "pubd_log_end_position" => status.log_end,
        "pubd_log_records" => status.records as u64,
        _ => status.capacity.saturating_sub(status.records) as u64,
    }
}

/// What is told of each slot: the name of the family, its kind, and what it is.
const SLOT_FAMILIES: [(&str, &str, &str); 13] = [
    (
        "pubd_slot_active",
        "gauge",
        "1 while a stream holds the slot",
    ),
    (
        "pubd_slot_held",
        "gauge",
        "1 while its stream is held on purpose",
    ),
    (
        "pubd_slot_confirmed_position",
        "gauge",
        "Up to where its client has confirmed",
    ),
    (
        "pubd_slot_behind_bytes",
        "gauge",
        "How far that is behind the end of the log",
    ),
    (
        "pubd_slot_read_position",
        "gauge",
        "Up to where its last stream has read the log",
    ),
    (
        "pubd_slot_sent_bytes_total",
        "counter",
        "Bytes that its streams have sent",
    ),
    (
        "pubd_slot_sent_transactions_total",
        "counter",
        "Transactions that its streams have sent",
    ),
    (
        "pubd_slot_chunks_free",
        "gauge",
        "Chunks of its last stream that are free",
    ),
    (
        "pubd_slot_status_age_seconds",
        "gauge",
        "How long ago its client's last status came",
    ),
    (
        "pubd_slot_behind_seconds",
        "gauge",
        "How long ago the log came past what its client has confirmed: 0 where it has confirmed all",
    ),
    (
        "pubd_slot_flush_lag_seconds",
        "gauge",
        "How long its client took the last time, or takes by now if that is longer, to confirm what was sent",
    ),
    (
        "pubd_slot_kept_records",
        "gauge",
        "Records of the log that are kept for the slot",
    ),
    (
        "pubd_slot_lost",
        "gauge",
        "1 where the slot held more records than it may, and was given up (lost), and 0 while what it needs is kept (reserved)",
    ),
];

fn write_slots<W: Write>(status: &HubStatus, to: &mut W) -> io::Result<()> {
    for (name, kind, help) in &SLOT_FAMILIES {
        family(to, name, kind, help)?;
        write_values(status, name, to)?;
    }
    Ok(())
}

/// The values of a family: a line for each slot that has one.
fn write_values<W: Write>(status: &HubStatus, name: &str, to: &mut W) -> io::Result<()> {
    for slot in &status.slots {
        if let Some(value) = value_of(name, slot, status.log_end) {
            let label = label_of(slot);
            writeln!(to, "{name}{{slot=\"{label}\"}} {value}")?;
        }
    }
    Ok(())
}

fn label_of(slot: &SlotStatus) -> &str {
    match &slot.name {
        Some(name) => name.as_str(),
        None => "",
    }
}

/// What a line tells of a slot.
#[derive(Clone, Copy)]
enum SlotMetric {
    Number(u64),
    /// Microseconds, which are told as seconds.
    Time(u64),
}

impl fmt::Display for SlotMetric {
    fn fmt<W: fmt::Write>(&self, f: &mut fmt::Formatter<W>) -> fmt::Result {
        match *self {
            SlotMetric::Number(number) => write!(f, "{number}"),
            SlotMetric::Time(micros) => { write!(f, "{}.{:06}", micros / MICROS, micros % MICROS) }
        }
    }
}

/// How many microseconds a second has.
const MICROS: u64 = 1_000_000;

/// The value of a family for a slot, if it has one.
fn value_of(family: &str, slot: &SlotStatus, log_end: u64) -> Option<SlotMetric> {
    match family {
        "pubd_slot_behind_seconds" => Some(SlotMetric::Time(slot.behind_for)),
        "pubd_slot_flush_lag_seconds" => slot.flush_lag.map(SlotMetric::Time),
        other => number_of(other, slot, log_end).map(SlotMetric::Number),
    }
}

fn number_of(family: &str, slot: &SlotStatus, log_end: u64) -> Option<u64> {
    match family {
        "pubd_slot_active" => Some(u64::from(slot.is_active)),
        "pubd_slot_held" => Some(u64::from(slot.is_held)),
        "pubd_slot_confirmed_position" => Some(slot.confirmed),
        "pubd_slot_behind_bytes" => Some(log_end.saturating_sub(slot.confirmed)),
        "pubd_slot_read_position" => Some(slot.read),
        "pubd_slot_sent_bytes_total" => Some(slot.sent),
        "pubd_slot_sent_transactions_total" => Some(slot.transactions),
        "pubd_slot_chunks_free" => Some(slot.free_chunks as u64),
        "pubd_slot_kept_records" => Some(slot.kept as u64),
        "pubd_slot_lost" => Some(u64::from(slot.is_lost)),
        _ => slot.silent_for.map(|time| time.as_secs()),
    }
}

fn family<W: Write>(to: &mut W, name: &str, kind: &str, help: &str) -> io::Result<()> {
    writeln!(to, "# HELP {name} {help}.")?;
    writeln!(to, "# TYPE {name} {kind}")
}
