//! The texts of faults and the codes of answers.

use anyhow::{Result, bail};
use configuration::ConfigFault;
use frames::FrameFault;
use pgoutput::PgoutputError;
use publication::PubFault;
use reorder::ReorderFault;
use rowfilter::FilterFault;
use schedule::WorldFault;
use slots::SlotFault;
use std::fmt::{Debug, Display};
use tables::BodyFault;
use txlog::SessionFault;
use walsender::SendFault;
use world::Answer;

const FRAME_FAULTS: [FrameFault; 7] = [
    FrameFault::BadLength,
    FrameFault::BadVersion,
    FrameFault::UnknownType,
    FrameFault::BadBody,
    FrameFault::NotUtf8,
    FrameFault::TooLong,
    FrameFault::Memory,
];

const OUT_FAULTS: [PgoutputError; 6] = [
    PgoutputError::Short,
    PgoutputError::UnknownKind,
    PgoutputError::BadMark,
    PgoutputError::BadText,
    PgoutputError::Trailing,
    PgoutputError::Memory,
];

const BODY_FAULTS: [BodyFault; 6] = [
    BodyFault::Short,
    BodyFault::UnknownTag,
    BodyFault::BadBool,
    BodyFault::BadText,
    BodyFault::Trailing,
    BodyFault::Memory,
];

const FILTER_FAULTS: [FilterFault; 6] = [
    FilterFault::Syntax,
    FilterFault::UnknownColumn,
    FilterFault::TypeMismatch,
    FilterFault::NumberRange,
    FilterFault::TooDeep,
    FilterFault::Memory,
];

const SESSION_FAULTS: [SessionFault; 14] = [
    SessionFault::UnknownTable,
    SessionFault::RowShape,
    SessionFault::DuplicateKey,
    SessionFault::NoSuchRow,
    SessionFault::KeyHeld,
    SessionFault::TooLarge,
    SessionFault::LogFull,
    SessionFault::NoSavepoint,
    SessionFault::TooDeep,
    SessionFault::TooManyLive,
    SessionFault::Memory,
    SessionFault::NoReader,
    SessionFault::BadPrefix,
    SessionFault::NoTransaction,
];

const PUB_FAULTS: [PubFault; 2] = [PubFault::Unknown, PubFault::Memory];

const REORDER_FAULTS: [ReorderFault; 3] = [
    ReorderFault::Full,
    ReorderFault::Memory,
    ReorderFault::Failed,
];

const SEND_FAULTS: [SendFault; 4] = [
    SendFault::ArenaFull,
    SendFault::Memory,
    SendFault::Failed,
    SendFault::Gap,
];

const WORLD_FAULTS: [WorldFault; 3] = [
    WorldFault::BadEvent,
    WorldFault::Memory,
    WorldFault::NoEntry,
];

const CONFIG_FAULTS: [ConfigFault; 1] = [ConfigFault::Memory];

const ANSWERS: [Answer; 28] = [
    Answer::Done,
    Answer::NoReader,
    Answer::Removed,
    Answer::Session(SessionFault::UnknownTable),
    Answer::Session(SessionFault::RowShape),
    Answer::Session(SessionFault::DuplicateKey),
    Answer::Session(SessionFault::NoSuchRow),
    Answer::Session(SessionFault::KeyHeld),
    Answer::Session(SessionFault::TooLarge),
    Answer::Session(SessionFault::LogFull),
    Answer::Session(SessionFault::NoSavepoint),
    Answer::Session(SessionFault::TooDeep),
    Answer::Session(SessionFault::TooManyLive),
    Answer::Session(SessionFault::Memory),
    Answer::Session(SessionFault::NoReader),
    Answer::Session(SessionFault::BadPrefix),
    Answer::Session(SessionFault::NoTransaction),
    Answer::Slot(SlotFault::Missing),
    Answer::Slot(SlotFault::InUse),
    Answer::Slot(SlotFault::Exists),
    Answer::Slot(SlotFault::NoPlace),
    Answer::Slot(SlotFault::Memory),
    Answer::Publication(PubFault::Unknown),
    Answer::Publication(PubFault::Memory),
    Answer::Sender(SendFault::ArenaFull),
    Answer::Sender(SendFault::Memory),
    Answer::Sender(SendFault::Failed),
    Answer::Sender(SendFault::Gap),
];

/// Adds each fault of a type, with its text.
pub fn answer_texts(given: &str, answer: &mut String) -> Result<()> {
    match given {
        "FrameFault" => add_texts(&FRAME_FAULTS, answer),
        "PgoutputError" => add_texts(&OUT_FAULTS, answer),
        "BodyFault" => add_texts(&BODY_FAULTS, answer),
        "FilterFault" => add_texts(&FILTER_FAULTS, answer),
        "SessionFault" => add_texts(&SESSION_FAULTS, answer),
        "PubFault" => add_texts(&PUB_FAULTS, answer),
        "ReorderFault" => add_texts(&REORDER_FAULTS, answer),
        "SendFault" => add_texts(&SEND_FAULTS, answer),
        "WorldFault" => add_texts(&WORLD_FAULTS, answer),
        "ConfigFault" => add_texts(&CONFIG_FAULTS, answer),
        _ => bail!("no such type"),
    }
}

fn add_texts<F: Debug + Display>(faults: &[F], answer: &mut String) -> Result<()> {
    answer.push('=')?;
    for fault in faults {
        write!(answer, "|{fault:?} {fault}")?;
    }
    Ok(())
}

/// Adds each answer of an event, with its code.
pub fn answer_codes(answer: &mut String) -> Result<()> {
    answer.push('=')?;
    for came in &ANSWERS {
        write!(answer, " {came:?} {:?}", came.code())?;
    }
    Ok(())
}
