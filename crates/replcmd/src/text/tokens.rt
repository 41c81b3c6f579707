//! Reading a command from the front of its tokens.

ghost use Rattle.std.specs.Prelude.{◌≡◌, IfOk};
ghost use Rattle.replcmd.specs.Commands.{flag_at};
ghost use Rattle.replcmd.specs.Reading.{Gives, Moves, Answers, name_of, name_at, slot_at, past_mark, past_word, past_snapshot, begins_with_name, GivesLent, verb_at, unexpected, keyword_at, end_at, position_at, value_at};

use crate::clauses::snapshot_clause::SnapshotClause;
use crate::clauses::strictness::Strictness;
use crate::fault::CmdFault;
use crate::text::position::position_of;
use crate::text::token::{SEMICOLON, Token};
use crate::text::verb::Verb;
use crate::text::words::{folded, is_bare, is_keyword, is_slot_name, truth_of};
use pqformat::Text;
use std::alloc::{AllocError, Global};
use std::marker::Model;

/// What is left of the tokens of a command. Contracts see the list of them.
#[derive(Drop)]
pub(crate) struct Tokens<'a> {
    rest: &'a [Token],
}

impl<'a> Model for Tokens<'a> {
    ghost use Rattle.std.specs.Prelude.{List};
    ghost use Rattle.replcmd.specs.declared.text.token.Token.{Token};

    ghost Value = { List Token };

    ghost view = { λ t. t.rest.now };
}

impl<'a> Tokens<'a> {
    pub(crate) fn new(tokens: &'a [Token]) -> Self
        ensures { result ≡ tokens.now }
    {
        Tokens { rest: tokens }
    }

    /// The first word of a command.
    pub(crate) fn verb(&mut self) -> Result<Verb, CmdFault>
        ensures { Gives result self.new (verb_at self.old) }
    {
        let Some((Token::Word(word), rest)) = self.rest.split_first() else {
            return Err(CmdFault::Syntax);
        };
        let verb = Verb::of(word.as_str()).ok_or(CmdFault::Syntax)?;
        self.rest = rest;
        Ok(verb)
    }

    /// Moves past this keyword.
    #[tactic(auto, unfolding(crate::specs::Reading::keyword_at))]
    pub(crate) fn keyword(&mut self, verb: Verb, keyword: &str) -> Result<(), CmdFault>
        ensures { Moves result self.new (keyword_at verb keyword.now self.old) }
    {
        if let Some((Token::Word(word), rest)) = self.rest.split_first()
            && is_keyword(keyword, word.as_str())
        {
            self.rest = rest;
            return Ok(());
        }
        Err(self.unexpected(verb))
    }

    /// The fault of the token at the front, where another one must stand.
    fn unexpected(&self, verb: Verb) -> CmdFault
        ensures { result ≡ unexpected verb self.now }
    {
        match self.rest.first() {
            Some(Token::Word(word)) if verb.is_left_out(word.as_str()) => CmdFault::Unsupported,
            _ => CmdFault::Syntax,
        }
    }

    /// A name, bare or in double quotes.
    pub(crate) fn name(&mut self, alloc: Global) -> Result<Text, CmdFault>
        ensures { Gives result self.new (name_at self.old) }
    {
        let (token, rest) = self.rest.split_first().ok_or(CmdFault::Syntax)?;
        let name = name_of(alloc, token)?.ok_or(CmdFault::Syntax)?;
        self.rest = rest;
        Ok(name)
    }

    /// The name of a slot; another name is C2.
    #[tactic(auto, unfolding(crate::specs::Reading::slot_at))]
    pub(crate) fn slot(&mut self, alloc: Global) -> Result<Text, CmdFault>
        ensures { Gives result self.new (slot_at self.old) }
    {
        let name = self.name(alloc)?;
        if is_slot_name(name.as_str()) {
            return Ok(name);
        }
        Err(CmdFault::BadName)
    }

    /// A position; a word that is none is C3.
    #[tactic(auto, unfolding(crate::specs::Reading::position_at))]
    pub(crate) fn position(&mut self) -> Result<u64, CmdFault>
        ensures { Gives result self.new (position_at self.old) }
    {
        let Some((Token::Word(word), rest)) = self.rest.split_first() else {
            return Err(CmdFault::Syntax);
        };
        let position = position_of(word.as_str()).ok_or(CmdFault::BadPosition)?;
        self.rest = rest;
        Ok(position)
    }

    /// Whether this mark stands at the front; moves past it if so.
    pub(crate) fn takes(&mut self, mark: u8) -> bool
        ensures { (result, self.new) ≡ past_mark mark self.old }
    {
        if let Some((Token::Mark(found), rest)) = self.rest.split_first()
            && *found == mark
        {
            self.rest = rest;
            return true;
        }
        false
    }

    /// Whether this keyword stands at the front; moves past it if so.
    pub(crate) fn takes_word(&mut self, keyword: &str) -> bool
        ensures { (result, self.new) ≡ past_word keyword.now self.old }
    {
        if let Some((Token::Word(word), rest)) = self.rest.split_first()
            && is_keyword(keyword, word.as_str())
        {
            self.rest = rest;
            return true;
        }
        false
    }

    /// What the keyword at the front says of a snapshot, and moves past it; else that it is exported, as where nothing is said.
    pub(crate) fn snapshot(&mut self, strictness: Strictness) -> SnapshotClause
        ensures { (result, self.new) ≡ past_snapshot strictness self.old }
    {
        if let Some((Token::Word(word), rest)) = self.rest.split_first()
            && let Some(snapshot) = SnapshotClause::said(strictness, word.as_str())
        {
            self.rest = rest;
            return snapshot;
        }
        SnapshotClause::Export
    }

    /// Moves past a truth value, where a word or a value stands at the front.
    pub(crate) fn flag(&mut self) -> Result<(), CmdFault>
        ensures { Moves result self.new (flag_at self.old) }
    {
        if let Some((Token::Word(text) | Token::Value(text), rest)) = self.rest.split_first() {
            truth_of(text.as_str()).ok_or(CmdFault::Syntax)?;
            self.rest = rest;
        }
        Ok(())
    }

    /// Whether a name stands at the front.
    pub(crate) fn begins_with_name(&self) -> bool
        ensures { result ≡ begins_with_name self.now }
    {
        match self.rest.first() {
            Some(Token::Word(word)) => is_bare(word.as_str()),
            Some(Token::Quoted(_)) => true,
            _ => false,
        }
    }

    /// A value in single quotes.
    pub(crate) fn value(&mut self) -> Result<&'a Text, CmdFault>
        ensures { GivesLent result self.new (value_at self.old) }
    {
        let Some((Token::Value(value), rest)) = self.rest.split_first() else {
            return Err(CmdFault::Syntax);
        };
        self.rest = rest;
        Ok(value)
    }

    /// That nothing follows but one semicolon.
    #[tactic(auto, unfolding(crate::specs::Reading::end_at))]
    pub(crate) fn end(&mut self, verb: Verb) -> Result<(), CmdFault>
        ensures { Answers result (end_at verb self.old) }
    {
        match self.rest {
            [] | [Token::Mark(SEMICOLON)] => Ok(()),
            [Token::Mark(_), ..] => Err(CmdFault::Syntax),
            _ => Err(self.unexpected(verb)),
        }
    }
}

/// The name that a token spells.
pub(crate) fn name_of(alloc: Global, token: &Token) -> Result<Option<Text>, AllocError>
    ensures { IfOk result (λ name. name ≡ name_of token.now) }
{
    match token {
        Token::Word(word) if is_bare(word.as_str()) => Ok(Some(folded(alloc, word.as_str())?)),
        Token::Quoted(name) => Ok(Some(name.copy(alloc)?)),
        _ => Ok(None),
    }
}
