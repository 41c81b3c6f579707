//! Questions of one table, answered by the backend.

ghost use Rattle.server.specs.Conversation.{Answered, AnswersQuestion};
ghost use Rattle.server.specs.declared.asked.question.Question.TheVariants as questions;

use crate::asked::table_name::TableName;
use crate::backend::Backend;
use crate::said::say_lists::{say_column_lists, say_row_filters};
use crate::said::say_table::{say_attributes, say_found_table};
use bytes::BytesMut;
use pqformat::{Items, Text};
use std::alloc::{AllocError, Global};

pub(crate) fn tell_table<D: Backend>(
    alloc: Global,
    table: &TableName,
    backend: &mut D,
    out: &mut BytesMut,
) -> Result<(), AllocError>
    ensures { Answered D.told result (λ _. AnswersQuestion (questions.Table table.now)) backend.old
        out.old.items backend.new out.new.items }
{
    let answer = backend.table(table.schema.as_str(), table.name.as_str());
    say_found_table(alloc, out, answer)
}

pub(crate) fn tell_column_lists<D: Backend>(
    alloc: Global,
    oid: u32,
    names: &Items<Text>,
    backend: &mut D,
    out: &mut BytesMut,
) -> Result<(), AllocError>
    ensures { Answered D.told result (λ _. AnswersQuestion (questions.ColumnLists oid names.now))
        backend.old out.old.items backend.new out.new.items }
{
    let answer = backend.column_lists(oid, names);
    say_column_lists(alloc, out, answer)
}

pub(crate) fn tell_attributes<D: Backend>(
    alloc: Global,
    oid: u32,
    backend: &mut D,
    out: &mut BytesMut,
) -> Result<(), AllocError>
    ensures { Answered D.told result (λ _. AnswersQuestion (questions.Attributes oid)) backend.old
        out.old.items backend.new out.new.items }
{
    let answer = backend.attributes(oid);
    say_attributes(alloc, out, answer)
}

pub(crate) fn tell_row_filters<D: Backend>(
    alloc: Global,
    oid: u32,
    names: &Items<Text>,
    backend: &mut D,
    out: &mut BytesMut,
) -> Result<(), AllocError>
    ensures { Answered D.told result (λ _. AnswersQuestion (questions.RowFilters oid names.now))
        backend.old out.old.items backend.new out.new.items }
{
    let answer = backend.row_filters(oid, names);
    say_row_filters(alloc, out, answer)
}
