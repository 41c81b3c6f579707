//! Scripts in files.

use crate::scripting::fault::ScriptFileFault;
use crate::scripting::numbered_steps::{StepFault, Steps};
use schedule::LineRefusal;
use std::alloc::{AllocError, Global};
use std::fs;

/// A script by its path.
#[derive(Drop)]
pub struct Script {
    pub path: String,
    pub steps: Steps,
}

/// Stands in the place of a script's path for the standard input.
pub const STANDARD_INPUT: &str = "-";

/// The scripts at these paths, in order, but for the standard input. `Read` where one can't be read or is no text, `BadLine` at the
/// first line that is none, or `Memory`.
pub fn scripts_at(rt: &HostRuntime, paths: &[&str]) -> Result<Vec<Script>, ScriptFileFault> {
    let mut scripts = Vec::with_capacity(rt.alloc(), paths.len())?;
    read_all(rt, paths, &mut scripts)?;
    Ok(scripts)
}

fn read_all(
    rt: &HostRuntime,
    paths: &[&str],
    scripts: &mut Vec<Script>,
) -> Result<(), ScriptFileFault> {
    for path in paths {
        if *path != STANDARD_INPUT {
            add(rt, path, scripts)?;
        }
    }
    Ok(())
}

fn add(rt: &HostRuntime, path: &str, scripts: &mut Vec<Script>) -> Result<(), ScriptFileFault> {
    let script = script_at(rt, path)?;
    Ok(scripts.push(script)?)
}

fn script_at(rt: &HostRuntime, path: &str) -> Result<Script, ScriptFileFault> {
    let name = String::from_str(rt.alloc(), path)?;
    match fs::read_to_string(rt, path) {
        Ok(text) => script_in(rt.alloc(), name, text.as_str()),
        Err(error) => Err(ScriptFileFault::Read(name, error)),
    }
}

fn script_in(alloc: Global, name: String, text: &str) -> Result<Script, ScriptFileFault> {
    match Steps::parse(alloc, text) {
        Ok(steps) => Ok(Script { path: name, steps }),
        Err(fault) => Err(refusal_of(name, &fault)),
    }
}

fn refusal_of(name: String, refused: &StepFault) -> ScriptFileFault {
    match refused.refusal {
        LineRefusal::Bad(bad) => ScriptFileFault::BadLine(name, refused.line, bad),
        LineRefusal::Memory => ScriptFileFault::Memory(AllocError),
    }
}
