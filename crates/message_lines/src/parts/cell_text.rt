//! The names, the cells and the bytes in a line of text.

use pgoutput::{Cell, OldTuple};
use std::fmt;
use std::fmt::{Display, Formatter, Write};

/// A name, with its control characters and backslashes escaped.
#[derive(Clone, Copy)]
pub(crate) struct Name<'a>(pub(crate) &'a str);

/// A text in single quotes, each quote in it doubled, and escaped as a name is.
#[derive(Clone, Copy)]
pub(crate) struct Quoted<'a>(pub(crate) &'a str);

/// Bytes in hexadecimal, two digits each.
#[derive(Clone, Copy)]
pub(crate) struct Hex<'a>(pub(crate) &'a [u8]);

/// Cells between commas.
#[derive(Clone, Copy)]
pub(crate) struct Cells<'a>(pub(crate) &'a [Cell]);

impl<'a> Cells<'a> {
    pub(crate) fn of_old(old: &'a OldTuple) -> Self {
        match old {
            OldTuple::Key(cells) | OldTuple::Full(cells) => Cells(cells.as_slice()),
        }
    }
}

/// The letter of what is sent of an old row.
pub(crate) fn old_letter(old: &OldTuple) -> char {
    match old {
        OldTuple::Key(_) => 'K',
        OldTuple::Full(_) => 'O',
    }
}

impl Display for Name<'_> {
    fn fmt<W: Write>(&self, f: &mut Formatter<W>) -> fmt::Result {
        for c in self.0.chars() {
            write_escaped(f, c)?;
        }
        Ok(())
    }
}

impl Display for Quoted<'_> {
    fn fmt<W: Write>(&self, f: &mut Formatter<W>) -> fmt::Result {
        write!(f, "'")?;
        for c in self.0.chars() {
            match c {
                '\'' => write!(f, "''")?,
                c => write_escaped(f, c)?,
            }
        }
        write!(f, "'")
    }
}

impl Display for Hex<'_> {
    fn fmt<W: Write>(&self, f: &mut Formatter<W>) -> fmt::Result {
        for byte in self.0 {
            write!(f, "{byte:02x}")?;
        }
        Ok(())
    }
}

impl Display for Cells<'_> {
    fn fmt<W: Write>(&self, f: &mut Formatter<W>) -> fmt::Result {
        let mut comma = "";
        for cell in self.0 {
            write!(f, "{comma}")?;
            write_cell(f, cell)?;
            comma = ",";
        }
        Ok(())
    }
}

fn write_cell<W: Write>(f: &mut Formatter<W>, cell: &Cell) -> fmt::Result {
    match cell {
        Cell::Null => write!(f, "null"),
        Cell::Unchanged => write!(f, "unchanged"),
        Cell::Text(text) => Quoted(text.as_str()).fmt(f),
    }
}

fn write_escaped<W: Write>(f: &mut Formatter<W>, c: char) -> fmt::Result {
    match c {
        '\\' => write!(f, "\\\\"),
        '\0'..='\x1f' | '\x7f' => write!(f, "\\x{:02x}", c as u32),
        c => write!(f, "{c}"),
    }
}
