//! The fields of a line, which single spaces separate.

use crate::event::Literal;
use crate::lines::bad_line::{BadLine, LineDialect, LineRefusal};
use crate::lines::literals::{row_in, text_in};
use pqformat::{Items, Text};
use replcmd::{is_slot_name, parse_position};
use std::alloc::Global;

/// The longest name of a transaction or a connection, in letters and digits.
const NAME_LIMIT: usize = 32;

/// The fields of a line that are still to be read: none after its last one.
#[derive(Drop)]
pub(crate) struct Fields<'a> {
    rest: Option<&'a str>,
    dialect: LineDialect,
}

impl<'a> Fields<'a> {
    pub(crate) fn new(line: &'a str, dialect: LineDialect) -> Self {
        Fields {
            rest: Some(line),
            dialect,
        }
    }

    /// The text up to the next space. A field is never empty.
    pub(crate) fn word(&mut self) -> Result<&'a str, LineRefusal> {
        let rest = self.remainder()?;
        let word = match rest.split_once(' ') {
            Some((word, behind)) => {
                self.rest = Some(behind);
                word
            }
            None => rest,
        };
        if word.is_empty() {
            return Err(LineRefusal::Bad(BadLine::EmptyField));
        }
        Ok(word)
    }

    /// All that is left of the line.
    fn remainder(&mut self) -> Result<&'a str, LineRefusal> {
        self.rest
            .take()
            .ok_or(LineRefusal::Bad(BadLine::MissingField))
    }

    /// The line has no more fields.
    pub(crate) fn end(&self) -> Result<(), LineRefusal> {
        match self.rest {
            None => Ok(()),
            Some(_) => Err(LineRefusal::Bad(BadLine::OneFieldMore)),
        }
    }

    /// Whether this word is all that is left of the line; moves past it if so.
    pub(crate) fn ends_with(&mut self, word: &str) -> bool {
        if let Some(rest) = self.rest
            && rest == word
        {
            self.rest = None;
            return true;
        }
        false
    }

    /// Any text without a space.
    pub(crate) fn text(&mut self, alloc: Global) -> Result<Text, LineRefusal> {
        Ok(Text::copy_of(alloc, self.word()?)?)
    }

    /// All the fields that are left, one at least: texts without a space.
    pub(crate) fn texts(&mut self, alloc: Global) -> Result<Items<Text>, LineRefusal> {
        let mut texts = Vec::new(alloc);
        for text in self.remainder()?.split(' ') {
            if text.is_empty() {
                return Err(LineRefusal::Bad(BadLine::EmptyField));
            }
            texts.push(Text::copy_of(alloc, text)?)?;
        }
        Ok(Items::new(texts))
    }

    /// Values in parentheses. Spaces may stand in their texts.
    pub(crate) fn row(&mut self, alloc: Global) -> Result<Items<Literal>, LineRefusal> {
        let (row, behind) = row_in(alloc, self.remainder()?, self.dialect)?;
        self.go_on(behind)?;
        Ok(row)
    }

    /// A text in quotes. Spaces may stand in it.
    pub(crate) fn quoted(&mut self, alloc: Global) -> Result<Text, LineRefusal> {
        let (text, behind) = text_in(alloc, self.remainder()?, self.dialect)?;
        self.go_on(behind)?;
        Ok(text)
    }

    /// Goes on with what stands after a field: nothing, or a space and the next field.
    fn go_on(&mut self, behind: &'a str) -> Result<(), LineRefusal> {
        if !behind.is_empty() {
            let next = behind.strip_prefix(' ');
            self.rest = Some(next.ok_or(LineRefusal::Bad(BadLine::OneFieldMore))?);
        }
        Ok(())
    }

    /// The name of a transaction or a connection.
    pub(crate) fn name(&mut self, alloc: Global) -> Result<Text, LineRefusal> {
        let word = self.word()?;
        if !is_name(word) {
            return Err(LineRefusal::Bad(BadLine::Name));
        }
        Ok(Text::copy_of(alloc, word)?)
    }

    /// The name of a slot that is to be created.
    pub(crate) fn slot(&mut self, alloc: Global) -> Result<Text, LineRefusal> {
        let word = self.word()?;
        if !is_slot_name(word) {
            return Err(LineRefusal::Bad(BadLine::SlotName));
        }
        Ok(Text::copy_of(alloc, word)?)
    }

    /// A number of records, of bytes or of a savepoint.
    pub(crate) fn count(&mut self) -> Result<u32, LineRefusal> {
        u32::try_from(self.integer()?).map_err(|_| LineRefusal::Bad(BadLine::Number))
    }

    /// A signed number in decimal digits, as of microseconds. Zeros before it are read, and a plus is not.
    pub(crate) fn integer(&mut self) -> Result<i64, LineRefusal> {
        let word = self.word()?;
        if word.starts_with('+') {
            return Err(LineRefusal::Bad(BadLine::Number));
        }
        word.parse::<i64>()
            .map_err(|_| LineRefusal::Bad(BadLine::Number))
    }

    /// A number of 64 bits in decimal digits, as `integer` reads it: `-0` is 0.
    pub(crate) fn number(&mut self) -> Result<u64, LineRefusal> {
        let word = self.word()?;
        if word.starts_with('+') {
            return Err(LineRefusal::Bad(BadLine::Number));
        }
        let digits = word.strip_prefix('-').unwrap_or(word);
        match digits.parse::<u64>() {
            Ok(n) if n == 0 || !word.starts_with('-') => Ok(n),
            _ => Err(LineRefusal::Bad(BadLine::Number)),
        }
    }

    /// A position in the log, as in `16/B374D848`.
    pub(crate) fn position(&mut self) -> Result<u64, LineRefusal> {
        parse_position(self.word()?).map_err(|_| LineRefusal::Bad(BadLine::Position))
    }

    /// Names of publications, which commas separate. None of them is empty.
    pub(crate) fn publications(&mut self, alloc: Global) -> Result<Items<Text>, LineRefusal> {
        let mut names = Vec::new(alloc);
        for name in self.word()?.split(',') {
            if name.is_empty() {
                return Err(LineRefusal::Bad(BadLine::Publication));
            }
            names.push(Text::copy_of(alloc, name)?)?;
        }
        Ok(Items::new(names))
    }
}

fn is_name(word: &str) -> bool {
    word.len() <= NAME_LIMIT && word.bytes().all(|b| b.is_ascii_alphanumeric())
}
