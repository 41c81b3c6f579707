//! What subscribers ask of the publications, and why it is refused.

pub(crate) mod copied_row;
pub(crate) mod copying;
pub(crate) mod described;
pub(crate) mod members;
pub(crate) mod published;
pub(crate) mod published_columns;
pub(crate) mod refusals;
pub(crate) mod row_filters;
