//! The lines of the standard input, on their way from the thread that reads them to the one that does them.

use std::alloc::Global;
use std::collections::VecDeque;
use std::io::{BufRead, BufReader, Stdin};
use std::sync::{Condvar, Mutex, MutexGuard, Wait};
use std::{io, mem};

/// How many lines wait at most to be done before the next is read.
const MOST_LINES: usize = 1000;

/// Lines that were read.
#[derive(Drop)]
pub struct InputLines {
    alloc: Global,
    unread: Mutex<LineQueue>,
    changed: Condvar,
}

/// A line that has come, or that none comes any more.
#[derive(Drop)]
pub(crate) enum InputLine {
    Line(String),
    /// A line that isn't UTF-8.
    NotUtf8,
    Over,
    Failed(io::ErrorKind),
}

#[derive(Drop)]
struct LineQueue {
    /// None: a line that isn't UTF-8.
    lines: VecDeque<Option<String>>,
    /// The input has ended, by this error if it was none of its own.
    end: Option<Option<io::ErrorKind>>,
    /// Nobody does lines any more.
    is_closed: bool,
}

impl InputLines {
    pub fn new(alloc: Global) -> Self {
        InputLines {
            alloc,
            unread: Mutex::new(LineQueue {
                lines: VecDeque::new(alloc),
                end: None,
                is_closed: false,
            }),
            changed: Condvar::new(),
        }
    }

    /// No more lines are done.
    pub fn close<R: Wait>(&self, rt: &R) {
        let mut unread = self.unread.lock(rt);
        unread.is_closed = true;
        drop(unread);
        self.changed.notify_all();
    }

    /// The next line, once it has come.
    pub(crate) fn next<R: Wait>(&self, rt: &R) -> InputLine {
        let mut unread = self
            .changed
            .wait_while(rt, self.unread.lock(rt), |unread| unread.is_quiet());
        let came = unread.take();
        drop(unread);
        self.changed.notify_all();
        came.unwrap_or(InputLine::Over)
    }

    /// The next line, if it has come.
    pub(crate) fn next_if_any<R: Wait>(&self, rt: &R) -> Option<InputLine> {
        let mut unread = self.unread.lock(rt);
        let came = unread.take();
        drop(unread);
        self.changed.notify_all();
        came
    }

    /// Adds a line once there is room for it. False: nobody does it.
    fn add<R: Wait>(&self, rt: &R, line: Option<String>) -> bool {
        let mut unread = self
            .changed
            .wait_while(rt, self.unread.lock(rt), |unread| unread.is_full());
        let goes_on = unread.add(line);
        drop(unread);
        self.changed.notify_all();
        goes_on
    }

    fn end<R: Wait>(&self, rt: &R, by: Option<io::ErrorKind>) {
        let mut unread = self.unread.lock(rt);
        unread.end = Some(by);
        MutexGuard::unlock(unread);
        self.changed.notify_all();
    }
}

impl LineQueue {
    fn is_quiet(&self) -> bool {
        self.lines.is_empty() && self.end.is_none() && !self.is_closed
    }

    fn is_full(&self) -> bool {
        MOST_LINES <= self.lines.len() && !self.is_closed
    }

    fn add(&mut self, line: Option<String>) -> bool {
        if self.lines.push_back(line).is_err() {
            self.end = Some(Some(io::ErrorKind::OutOfMemory));
        }
        !self.is_closed && self.end.is_none()
    }

    fn take(&mut self) -> Option<InputLine> {
        if self.is_closed {
            return Some(InputLine::Over);
        }
        match self.lines.pop_front() {
            Some(Some(line)) => Some(InputLine::Line(line)),
            Some(None) => Some(InputLine::NotUtf8),
            None => self.ended(),
        }
    }

    fn ended(&self) -> Option<InputLine> {
        match self.end {
            Some(Some(kind)) => Some(InputLine::Failed(kind)),
            Some(None) => Some(InputLine::Over),
            None => None,
        }
    }
}

/// Reads the standard input to its end, or until nobody does its lines any more.
pub fn read_input<R: Wait>(rt: &R, from: Stdin, to: &InputLines) {
    let by = match read_lines(rt, from, to) {
        Ok(()) => None,
        Err(error) => Some(error.kind()),
    };
    to.end(rt, by);
}

fn read_lines<R: Wait>(rt: &R, from: Stdin, to: &InputLines) -> io::Result<()> {
    let mut from = BufReader::new(to.alloc, from)?;
    let mut line = Vec::new(to.alloc);
    for _ in rt.forever() {
        if from.read_until(b'\n', &mut line)? == 0 {
            break;
        }
        let read = mem::replace(&mut line, Vec::new(to.alloc));
        if !to.add(rt, text_of(read)) {
            break;
        }
    }
    Ok(())
}

/// The text of a line, without its end.
fn text_of(line: Vec<u8>) -> Option<String> {
    let mut line = line;
    if line.as_slice().ends_with(b"\n") {
        line.truncate(line.len() - 1);
    }
    String::from_utf8(line).ok()
}
