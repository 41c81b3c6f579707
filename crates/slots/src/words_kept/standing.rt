//! How a slot place stands, and the word that says so.

ghost use Rattle.std.specs.Prelude.{◌≡◌, ◌<◌, ◌^◌};
ghost use Rattle.slots.specs.Standings.{standing_of, word_of};

/// How a place stands. A place is made once, and never used again after a drop.
#[derive(Clone, Copy, PartialEq, Eq)]
pub enum Standing {
    Never,
    Free,
    Dropped,
    /// By the seat of this number.
    Held(u64),
}

impl Standing {
    /// Every word says how a place stands.
    pub fn of_word(word: u64) -> Self
        ensures standing { result ≡ standing_of word }
        ensures back { word_of result ≡ word }
    {
        match word {
            0 => Standing::Never,
            1 => Standing::Free,
            2 => Standing::Dropped,
            _ => Standing::Held(word - 3),
        }
    }

    /// The word that says so.
    pub(crate) fn word(self) -> u64
        requires { word_of self < 2 ^ 64 }
        ensures word { result ≡ word_of self }
        ensures back { standing_of result ≡ self }
    {
        match self {
            Standing::Never => 0,
            Standing::Free => 1,
            Standing::Dropped => 2,
            Standing::Held(seat) => seat + 3,
        }
    }
}
