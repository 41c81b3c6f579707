//! Reading a client's message attribute by attribute, from its front.

ghost use Rattle.std.specs.Prelude.{◌≡◌, drop, length};
ghost use Rattle.scram.specs.Attributes.{GivesFound, GivesLent, Moves, any_at, end_at, extensions_at, front, is_letter, message_at, named_at, proof_at, value_at, value_of};

use crate::fault::{ExchangeFault, Malformed};
use crate::parts::parted;
use std::marker::Model;

/// What is left of a message. Contracts see its bytes.
#[derive(Drop)]
pub(crate) struct Attributes<'a> {
    rest: &'a [u8],
}

impl<'a> Model for Attributes<'a> {
    ghost use Rattle.std.specs.Prelude.{List, ℕ};

    ghost Value = { List ℕ };

    ghost view = { λ a. a.rest.now };
}

impl<'a> Attributes<'a> {
    /// A message whole: no empty one, and none with a zero byte.
    pub(crate) fn new(text: &'a [u8]) -> Result<Self, ExchangeFault>
        ensures { result ≡ message_at text.now }
    {
        if text.is_empty() {
            return Err(ExchangeFault::Malformed(Malformed::Empty));
        }
        if text.contains(&0) {
            return Err(ExchangeFault::Malformed(Malformed::ZeroByte));
        }
        Ok(Attributes { rest: text })
    }

    /// The byte at the front, or 0 at the end.
    pub(crate) fn front(&self) -> u8
        ensures { result ≡ front self.now }
    {
        match self.rest.first() {
            Some(b) => *b,
            None => 0,
        }
    }

    pub(crate) fn rest(&self) -> &'a [u8]
        ensures { result.now ≡ self.now }
    {
        self.rest
    }

    /// Moves past one byte.
    pub(crate) fn step(&mut self)
        ensures { self.new ≡ drop 1 self.old }
    {
        if let Some((_, rest)) = self.rest.split_first() {
            self.rest = rest;
        }
    }

    /// The value of an attribute whose letter was read, up to a comma.
    fn value(&mut self, attribute: u8) -> Result<&'a [u8], ExchangeFault>
        ensures { GivesLent result self.new (value_at attribute self.old) }
    {
        if self.front() != b'=' {
            return Err(ExchangeFault::Malformed(Malformed::Equals(attribute)));
        }
        self.step();
        let (value, rest) = value_of(self.rest);
        self.rest = rest;
        Ok(value)
    }

    /// The value of this attribute, which must stand here.
    pub(crate) fn named(&mut self, attribute: u8) -> Result<&'a [u8], ExchangeFault>
        ensures { GivesLent result self.new (named_at attribute self.old) }
    {
        let found = self.front();
        if found != attribute {
            return Err(ExchangeFault::Malformed(Malformed::Expected(attribute, found)));
        }
        self.step();
        self.value(attribute)
    }

    /// Any attribute, and its value.
    fn any(&mut self) -> Result<(u8, &'a [u8]), ExchangeFault>
        ensures { GivesFound result self.new (any_at self.old) }
    {
        let Some((letter, rest)) = self.rest.split_first() else {
            return Err(ExchangeFault::Malformed(Malformed::Attribute));
        };
        if !is_letter(*letter) {
            return Err(ExchangeFault::Malformed(Malformed::Letter(*letter)));
        }
        self.rest = rest;
        let value = self.value(*letter)?;
        Ok((*letter, value))
    }

    /// Passes over attributes up to the end.
    #[tactic(auto, using(crate::proofs::Passing::extension_passed, crate::proofs::Passing::extension_refused, crate::proofs::Passing::extensions_end, crate::proofs::Passing::no_more_extensions))]
    pub(crate) fn extensions(&mut self) -> Result<(), ExchangeFault>
        ensures { Moves result self.new (extensions_at (length self.old) self.old) }
    {
        for _count in 0..self.rest.len() {
            if self.rest.is_empty() {
                return Ok(());
            }
            self.any()?;
        }
        Ok(())
    }

    /// The proof, after other attributes that are passed over: how many bytes stand from it on, and its value.
    #[tactic(auto, using(crate::proofs::Passing::proof_passed, crate::proofs::Passing::proof_refused, crate::proofs::Passing::proof_found, crate::proofs::Passing::no_proof))]
    pub(crate) fn proof(&mut self) -> Result<(usize, &'a [u8]), ExchangeFault>
        ensures { GivesFound result self.new (proof_at (length self.old) self.old) }
    {
        for _count in 0..self.rest.len() {
            let standing = self.rest.len();
            let (attribute, value) = self.any()?;
            if attribute == b'p' {
                return Ok((standing, value));
            }
        }
        Err(ExchangeFault::Malformed(Malformed::Attribute))
    }

    /// That nothing follows the proof.
    pub(crate) fn end(&self) -> Result<(), ExchangeFault>
        ensures { result ≡ end_at self.now }
    {
        if self.rest.is_empty() {
            return Ok(());
        }
        Err(ExchangeFault::Malformed(Malformed::Garbage))
    }
}

fn is_letter(b: u8) -> bool
    ensures { result ≡ is_letter b }
{
    (b'A' <= b && b <= b'Z') || (b'a' <= b && b <= b'z')
}

/// A value up to a comma, or to the end, and what follows.
fn value_of(text: &[u8]) -> (&[u8], &[u8])
    ensures { (result.0.now, result.1.now) ≡ value_of text.now }
{
    match parted(text, b',') {
        Some(parts) => parts,
        None => (text, &[]),
    }
}
