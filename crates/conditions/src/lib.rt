//! Conditions over the row of a table: their words, the trees that these come to, their kinds, and what they are of a row.
//!
//! A text becomes tokens (`words/lexer.rt`, `words/token.rt`), these a tree of parts (`trees/part.rt`) that grows over `trees/pending.rt`, and that an
//! `Expression` of steps (`flat/steps.rt`), which `values/against.rt` runs over a row without memory. `values/kinds.rt` and `values/comparison.rt` say
//! what may be compared, and `truth.rt` has SQL's three values.
//!
//! Read `words/token.rt`, `trees/part.rt`, `expression.rt`, `truth.rt`. Above, `rowfilter` uses one contract: what the steps come to of a
//! row is what the tree means of it.
#![tactic(auto)]

mod expression;
mod fault;
mod flat;
mod literal;
mod trees;
mod truth;
mod values;
mod words;

pub use expression::Expression;
pub use fault::FilterFault;
pub use flat::step::Step;
pub use flat::steps::holds_by;
pub use literal::Literal;
pub use trees::joint::Joint;
pub use trees::parser_state::{ParserState, whole};
pub use trees::part::{MOST_LEVELS, Part, Tree};
pub use trees::pending::Pending;
pub use truth::Truth;
pub use values::comparison::Comparison;
pub use values::is_test::IsTest;
pub use values::sort::Sort;
pub use words::filter_word::FilterWord;
pub use words::lexer::{behind_blanks, read_tokens, token_of};
pub use words::token::Token;
