//! The first words of commands.

ghost use Rattle.std.specs.Prelude.{◌≡◌};
ghost use Rattle.replcmd.specs.Reading.{verb_of, is_left_out};

use crate::text::words::is_keyword;

/// Which command it is.
#[derive(Clone, Copy, PartialEq, Eq)]
pub(crate) enum Verb {
    Identify,
    Create,
    Drop,
    Start,
}

impl Verb {
    /// The command that begins with this word.
    #[tactic(auto, unfolding(crate::specs::Reading::verb_of))]
    pub(crate) fn of(word: &str) -> Option<Verb>
        ensures { result ≡ verb_of word.now }
    {
        if is_keyword("IDENTIFY_SYSTEM", word) {
            return Some(Verb::Identify);
        }
        if is_keyword("CREATE_REPLICATION_SLOT", word) {
            return Some(Verb::Create);
        }
        if is_keyword("DROP_REPLICATION_SLOT", word) {
            return Some(Verb::Drop);
        }
        if is_keyword("START_REPLICATION", word) {
            return Some(Verb::Start);
        }
        None
    }

    /// Whether the word belongs to a part of this command that is left out here.
    #[tactic(auto, unfolding(crate::specs::Reading::is_left_out))]
    pub(crate) fn is_left_out(self, word: &str) -> bool
        ensures { result ≡ is_left_out self word.now }
    {
        match self {
            Verb::Identify => false,
            Verb::Create => {
                is_keyword("TEMPORARY", word)
                    || is_keyword("PHYSICAL", word)
                    || is_keyword("EXPORT_SNAPSHOT", word)
                    || is_keyword("USE_SNAPSHOT", word)
                    || is_keyword("TWO_PHASE", word)
            }
            Verb::Drop => is_keyword("WAIT", word),
            Verb::Start => is_keyword("PHYSICAL", word),
        }
    }
}
