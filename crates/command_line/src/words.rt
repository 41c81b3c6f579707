//! Words of a command line.

use crate::fault::WordsFault;
use clap::{Arg, ArgAction, ArgMatches, Command};
use std::alloc::{AllocError, Global};
use std::net::SocketAddr;

/// What `--version` tells after the program's name.
const VERSION: &str = "(Vondahe) 0.1";

/// In the place of an address, this machine's own.
const THIS_MACHINE: &str = "localhost:";

/// A program's name, what it is for, what is told after its words, and its words.
#[derive(Clone, Copy)]
pub struct CommandLine<'a> {
    pub name: &'a str,
    pub about: &'a str,
    pub after_help: &'a str,
    pub words: &'a [Word<'a>],
}

/// A word, and what is said of it.
#[derive(Clone, Copy)]
pub struct Word<'a> {
    pub name: &'a str,
    pub form: WordForm<'a>,
    pub help: &'a str,
}

/// How a word stands on the command line.
#[derive(Clone, Copy)]
pub enum WordForm<'a> {
    /// In its place, and it has to be there.
    Required,
    /// In its place, as often as it is given.
    Repeated,
    /// As `--name`, with nothing after it.
    Flag,
    /// As `--name VALUE`, for this VALUE.
    Option(&'a str),
    /// The same, and then no other word may be there, nor has to.
    Alone(&'a str),
}

impl<'a> CommandLine<'a> {
    /// The words that are given, or the text for a user who asks for help or gives other words.
    pub fn read(&self, alloc: Global, given: &'a [String]) -> Result<ArgMatches<'a>, clap::Error> {
        self.command(alloc)?.try_get_matches_from(given)
    }

    /// The command with all these words.
    pub fn command(&self, alloc: Global) -> Result<Command<'a>, AllocError> {
        with_words(alloc, self.bare(alloc)?, self.words)
    }

    /// The command without its words.
    fn bare(&self, alloc: Global) -> Result<Command<'a>, AllocError> {
        Command::new(alloc, self.name)
            .about(self.about)
            .after_help(self.after_help)
            .version(VERSION)
            .bin_name(self.name)
    }
}

fn with_words<'a>(
    alloc: Global,
    command: Command<'a>,
    words: &[Word<'a>],
) -> Result<Command<'a>, AllocError> {
    let mut command = command;
    for word in words {
        command = command.arg(arg_of(alloc, word))?;
    }
    Ok(command)
}

fn arg_of<'a>(alloc: Global, word: &Word<'a>) -> Arg<'a> {
    let arg = Arg::new(alloc, word.name).help(word.help);
    match word.form {
        WordForm::Required => arg.required(true).action(ArgAction::Set),
        WordForm::Repeated => arg.num_args(0..).action(ArgAction::Append),
        WordForm::Flag => arg.long(word.name).action(ArgAction::SetTrue),
        WordForm::Option(value) => arg.long(word.name).value_name(value).action(ArgAction::Set),
        WordForm::Alone(value) => arg
            .long(word.name)
            .value_name(value)
            .exclusive(true)
            .action(ArgAction::Set),
    }
}

/// The address and the port of the word ADDR.
pub fn address_of(text: &str) -> Result<SocketAddr, WordsFault> {
    if let Some(port) = text.strip_prefix(THIS_MACHINE) {
        return match port.parse::<u16>() {
            Ok(port) if !text.contains('+') => Ok(SocketAddr::from(([127, 0, 0, 1], port))),
            _ => Err(WordsFault::Address),
        };
    }
    match text.parse::<SocketAddr>() {
        Ok(address) => Ok(address),
        Err(_) => Err(WordsFault::Address),
    }
}

/// A number without a sign.
pub fn count_of(text: &str) -> Option<u32> {
    if text.starts_with('+') {
        return None;
    }
    text.parse::<u32>().ok()
}
