//! Makes the calls that standard input asks for, and prints what came of each; or, where its words name uses of the crates, makes those:
//! `test_vectors [USE [then USE]..]`, of which `calls` is the first.
//!
//! A line is a call's name, a space and what the call is given, in which `␤` stands for a line end. Its answer is one line:
//! `= VALUE`, as the value's type is debugged, or `! FAULT`. After it stands ` ? ` and what went wrong, if anything did: a
//! value isn't written as it was read, or there is no such call.
#![tactic(auto)]

mod bodies;
mod filters;
mod framing;
mod passwords;
mod publishing;
mod segmenting;
mod talking;
mod uses;
mod wording;

use anyhow::Result;
use std::alloc::Global;
use std::io::{Input, Print};
use std::{env, io};
use talking::calls::answer_call;
use uses::use_one;

/// The word between two uses.
const THEN: &str = "then";

fn main(rt: HostRuntime) -> Result<()> {
    let alloc = rt.alloc();
    let words: Vec<String> = env::args(&rt)?.skip(1).collect(alloc)?;
    if words.is_empty() {
        return answer_calls(&rt, alloc);
    }
    for one in words.as_slice().split(|word| word.as_str() == THEN) {
        use_one(&rt, alloc, one)?;
    }
    Ok(())
}

fn answer_calls<R: Input + Print>(rt: &R, alloc: Global) -> Result<()> {
    let asked = io::read_to_string(alloc, rt.reader())?;
    let mut answers = String::new(alloc);
    for line in asked.as_str().split_terminator('\n') {
        answer_line(alloc, line, &mut answers)?;
    }
    print!(rt; "{answers}")?;
    Ok(())
}

fn answer_line(alloc: Global, line: &str, answers: &mut String) -> Result<()> {
    let line = line.replace(alloc, "␤", "\n")?;
    let (call, given) = line.as_str().split_once(' ').unwrap_or((line.as_str(), ""));
    if let Err(error) = answer_call(alloc, call, given, answers) {
        write!(answers, " ? {error}")?;
    }
    answers.push('\n')?;
    Ok(())
}
