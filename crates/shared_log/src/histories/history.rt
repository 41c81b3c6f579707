//! The word that all threads of a log share.

ghost use Rattle.std.specs.Prelude.{◌≡◌};
ghost use Rattle.shared_log.specs.Book.{head_of};

use crate::histories::entry::Entry;
use crate::histories::law::Law;
use crate::histories::name::LogName;
use logbook::Word;
use std::marker::PhantomData;

/// The length of a log's history.
#[derive(Drop)]
pub struct History<L: LogName> {
    pub(crate) head: Word<Entry, u64, Law>,
    pub(crate) of: PhantomData<L>,
    ghost head_is: { head ≡ head_of L.book },
}
