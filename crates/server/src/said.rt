//! What a server says.

pub(crate) mod answer_rows;
pub(crate) mod array;
pub(crate) mod column_types;
pub(crate) mod ending;
pub(crate) mod row_text;
pub(crate) mod say;
pub(crate) mod say_answers;
pub(crate) mod say_columns_told;
pub(crate) mod say_copy;
pub(crate) mod say_lists;
pub(crate) mod say_table;
pub(crate) mod starting;
