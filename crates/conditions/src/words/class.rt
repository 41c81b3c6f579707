//! The bytes that go on in words, numbers and blanks.

ghost use Rattle.std.specs.Prelude.{◌≡◌};
ghost use Rattle.conditions.specs.Lexing.{is_of};

#[derive(Clone, Copy)]
pub(crate) enum Class {
    /// Spaces, tabs and line ends.
    Blank,
    /// What goes on in a word: letters, digits, underscores and dollar signs.
    Later,
    Digit,
}

impl Class {
    pub(crate) fn holds(self, b: u8) -> bool
        ensures { result ≡ is_of self b }
    {
        match self {
            Class::Blank => b == b' ' || b == b'\t' || b == b'\n' || b == b'\r',
            Class::Later => b.is_ascii_alphanumeric() || b == b'_' || b == b'$',
            Class::Digit => b.is_ascii_digit(),
        }
    }
}
