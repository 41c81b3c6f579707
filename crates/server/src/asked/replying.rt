//! Queries where questions are answered, and where they aren't.

ghost use Rattle.std.specs.Prelude.{◌≡◌, ◌≤◌, length, IfOk};
ghost use Rattle.server.specs.Conversation.{Answered, AnswersQuestion, HasShortName, IsAskedFirst, RepliesIn, RefusesParameter, is_asked_first};

use crate::asked::database::Database;
use crate::asked::parameter::{parameter_value, unknown_text};
use crate::asked::query::reply;
use crate::asked::question::{Question, question_of};
use crate::asked::refused_query::say_refused_with;
use crate::asked::telling_table::{
    tell_attributes, tell_column_lists, tell_row_filters, tell_table,
};
use crate::backend::Backend;
use crate::connection_terms::Dialect;
use crate::refusal::Refusal;
use crate::said::say::{say_dropped, say_refused_ready};
use crate::said::say_answers::{say_found_tables, say_path_set, say_publications, say_shown};
use crate::said::say_columns_told::say_found_columns;
use bytes::BytesMut;
use pqformat::{Items, Text};
use replcmd::Strictness;
use std::alloc::{AllocError, Global};

fn tell_publications<D: Backend>(
    alloc: Global,
    names: &Items<Text>,
    backend: &mut D,
    out: &mut BytesMut,
) -> Result<(), AllocError>
    ensures { Answered D.told result (λ _. AnswersQuestion (Question.Publications names.now))
        backend.old out.old.items backend.new out.new.items }
{
    let answer = backend.publications(names);
    say_publications(alloc, out, answer)
}

fn tell_tables<D: Backend>(
    alloc: Global,
    names: &Items<Text>,
    backend: &mut D,
    out: &mut BytesMut,
) -> Result<(), AllocError>
    ensures { Answered D.told result (λ _. AnswersQuestion (Question.Tables names.now)) backend.old
        out.old.items backend.new out.new.items }
{
    let answer = backend.tables(names);
    say_found_tables(alloc, out, answer)
}

fn tell_columns<D: Backend>(
    alloc: Global,
    names: &Items<Text>,
    backend: &mut D,
    out: &mut BytesMut,
) -> Result<(), AllocError>
    ensures { Answered D.told result (λ _. AnswersQuestion (Question.Columns names.now)) backend.old
        out.old.items backend.new out.new.items }
{
    let answer = backend.columns(names);
    say_found_columns(alloc, out, answer)
}

/// Refuses a parameter that isn't known, and tells that to the backend.
fn refuse_parameter<D: Backend>(
    alloc: Global,
    query: &str,
    name: &str,
    backend: &mut D,
    out: &mut BytesMut,
) -> Result<(), AllocError>
    requires { length name.now ≤ 63 }
    ensures { Answered D.told result (λ _. RefusesParameter name.now) backend.old out.old.items
        backend.new out.new.items }
{
    backend.refused(query, Refusal::UnknownParameter);
    let text = unknown_text(alloc, name)?;
    say_refused_with(alloc, out, Refusal::UnknownParameter, text.as_str())
}

/// Shows a parameter.
fn show<D: Backend>(
    alloc: Global,
    query: &str,
    name: &Text,
    backend: &mut D,
    out: &mut BytesMut,
) -> Result<(), AllocError>
    requires { length name.now ≤ 63 }
    ensures { Answered D.told result (λ _. AnswersQuestion (Question.Show name.now)) backend.old
        out.old.items backend.new out.new.items }
{
    match parameter_value(name.as_str()) {
        Some(value) => say_shown(alloc, out, name.as_str(), value),
        None => refuse_parameter(alloc, query, name.as_str(), backend, out),
    }
}

fn drop_when_free<D: Backend>(
    alloc: Global,
    slot: &Text,
    backend: &mut D,
    out: &mut BytesMut,
) -> Result<(), AllocError>
    ensures { Answered D.told result (λ _. AnswersQuestion (Question.DropWhenFree slot.now))
        backend.old out.old.items backend.new out.new.items }
{
    let answer = backend.drop_when_free(slot.as_str());
    say_dropped(alloc, out, slot.as_str(), answer)
}

/// Refuses the initial copy of a table, and tells that to the backend.
fn refuse_copy<D: Backend>(
    alloc: Global,
    query: &str,
    backend: &mut D,
    out: &mut BytesMut,
) -> Result<(), AllocError>
    ensures { Answered D.told result (λ _. AnswersQuestion Question.InitialCopy) backend.old
        out.old.items backend.new out.new.items }
{
    backend.refused(query, Refusal::InitialCopy);
    say_refused_ready(alloc, out, Refusal::InitialCopy)
}

/// Answers a question.
fn answer_question<D: Backend>(
    alloc: Global,
    query: &str,
    question: &Question,
    backend: &mut D,
    out: &mut BytesMut,
) -> Result<(), AllocError>
    requires { HasShortName question.now }
    ensures { Answered D.told result (λ _. AnswersQuestion question.now) backend.old out.old.items
        backend.new out.new.items }
{
    match question {
        Question::SearchPath => say_path_set(alloc, out),
        Question::InitialCopy => refuse_copy(alloc, query, backend, out),
        Question::Publications(names) => tell_publications(alloc, names, backend, out),
        Question::Tables(names) => tell_tables(alloc, names, backend, out),
        Question::Columns(names) => tell_columns(alloc, names, backend, out),
        Question::Table(table) => tell_table(alloc, table, backend, out),
        Question::ColumnLists(oid, names) => tell_column_lists(alloc, *oid, names, backend, out),
        Question::Attributes(oid) => tell_attributes(alloc, *oid, backend, out),
        Question::RowFilters(oid, names) => tell_row_filters(alloc, *oid, names, backend, out),
        Question::Show(name) => show(alloc, query, name, backend, out),
        Question::DropWhenFree(slot) => drop_when_free(alloc, slot, backend, out),
    }
}

/// Answers the text of a Query where questions are answered too; whether a stream has begun.
fn reply_or_answer<D: Backend>(
    alloc: Global,
    database: &Database,
    query: &str,
    backend: &mut D,
    out: &mut BytesMut,
) -> Result<bool, AllocError>
    ensures { Answered D.told result
        (λ begun. RepliesIn Dialect.Questions database.now query.now begun) backend.old out.old.items
        backend.new out.new.items }
{
    match question_of(alloc, query)? {
        Some(question) => {
            answer_question(alloc, query, &question, backend, out)?;
            Ok(false)
        }
        None => reply(
            alloc,
            Strictness::Lenient,
            database,
            query,
            false,
            backend,
            out,
        ),
    }
}

/// Answers the text of a Query where questions are not answered; whether a stream has begun.
fn reply_or_refuse<D: Backend>(
    alloc: Global,
    database: &Database,
    query: &str,
    backend: &mut D,
    out: &mut BytesMut,
) -> Result<bool, AllocError>
    ensures { Answered D.told result
        (λ begun. RepliesIn Dialect.Commands database.now query.now begun) backend.old out.old.items
        backend.new out.new.items }
{
    let is_question = is_asked_first(alloc, query)?;
    reply(
        alloc,
        Strictness::Strict,
        database,
        query,
        is_question,
        backend,
        out,
    )
}

/// Whether the text asks what clients ask first.
fn is_asked_first(alloc: Global, query: &str) -> Result<bool, AllocError>
    ensures { IfOk result (λ found. IsAskedFirst found query.now) }
{
    match question_of(alloc, query)? {
        Some(question) => {
            let is_first = comes_first(&question);
            // Let go by one call, which keeps the proof short.
            drop(question);
            Ok(is_first)
        }
        None => Ok(false),
    }
}

fn comes_first(question: &Question) -> bool
    ensures { result ≡ is_asked_first question.now }
{
    match question {
        Question::Columns(_) => false,
        Question::Show(name) => name.as_str() == "data_directory_mode",
        Question::SearchPath
        | Question::InitialCopy
        | Question::Publications(_)
        | Question::Tables(_)
        | Question::Table(_)
        | Question::ColumnLists(_, _)
        | Question::Attributes(_)
        | Question::RowFilters(_, _)
        | Question::DropWhenFree(_) => true,
    }
}

/// Answers the text of a Query in a session on this database; whether a stream has begun, and with it no query is waited
/// for.
///
/// Where questions are answered, one makes its call of the backend, or none, and the next query is waited for. All else is answered
/// as by `reply`, which refuses one where they aren't.
pub(crate) fn reply_in<D: Backend>(
    alloc: Global,
    dialect: Dialect,
    database: &Database,
    query: &str,
    backend: &mut D,
    out: &mut BytesMut,
) -> Result<bool, AllocError>
    ensures { Answered D.told result (λ begun. RepliesIn dialect database.now query.now begun)
        backend.old out.old.items backend.new out.new.items }
{
    match dialect {
        Dialect::Commands => reply_or_refuse(alloc, database, query, backend, out),
        Dialect::Questions => reply_or_answer(alloc, database, query, backend, out),
    }
}
