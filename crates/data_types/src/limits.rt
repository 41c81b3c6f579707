//! What stands in parentheses after a type's name: the characters of a text, the digits of a number.

ghost use Rattle.std.specs.Prelude.{◌≡◌, ◌≤◌};
ghost use Rattle.data_types.specs.declared.limits.TheConstants.{MAX_CHARACTERS, MAX_PRECISION};

/// The most characters that a varchar(n) or a char(n) may be declared with (PostgreSQL 15, 8.3).
pub const MAX_CHARACTERS: u32 = 10_485_760;

/// The most digits that a numeric(p,s) may be declared with (PostgreSQL 15, 8.1.2).
pub const MAX_PRECISION: u16 = 1000;

/// How many characters a text may have.
#[derive(Clone, Copy, Debug, PartialEq, Eq)]
pub struct CharacterLimit {
    count: u32,
    ghost some: { 1 ≤ count },
    ghost in_range: { count ≤ MAX_CHARACTERS },
}

impl CharacterLimit {
    ghost use Rattle.data_types.specs.Limits.{limit_of};

    /// The limit of so many characters; None of 0, and of more than may be declared.
    #[tactic(auto, using(crate::proofs::Declared::no_limit))]
    pub fn new(count: u64) -> Option<Self>
        ensures { result ≡ limit_of count }
    {
        if count == 0 || count > u64::from(MAX_CHARACTERS) {
            return None;
        }
        Some(CharacterLimit {
            count: count as u32,
        })
    }

    pub fn count(self) -> u32
        ensures { result ≡ self.count }
    {
        self.count
    }
}

/// How many decimal digits a number may have, and how many of them after the point.
#[derive(Clone, Copy, Debug, PartialEq, Eq)]
pub struct DecimalPlaces {
    precision: u16,
    scale: u16,
    ghost some: { 1 ≤ precision },
    ghost precision_in_range: { precision ≤ MAX_PRECISION },
    ghost scale_in_range: { scale ≤ precision },
}

impl DecimalPlaces {
    ghost use Rattle.data_types.specs.Limits.{places_of};

    /// The limit of so many digits, and so many of them after the point. None of no digits, of more than may be declared, and
    /// of more after the point than in all, which PostgreSQL allows (PostgreSQL 15, 8.1.2) and this doesn't.
    #[tactic(auto, using(crate::proofs::Declared::no_places))]
    pub fn new(precision: u64, scale: u64) -> Option<Self>
        ensures { result ≡ places_of precision scale }
    {
        if precision == 0 || precision > u64::from(MAX_PRECISION) || scale > precision {
            return None;
        }
        Some(DecimalPlaces {
            precision: precision as u16,
            scale: scale as u16,
        })
    }

    pub fn precision(self) -> u16
        ensures { result ≡ self.precision }
    {
        self.precision
    }

    pub fn scale(self) -> u16
        ensures { result ≡ self.scale }
    {
        self.scale
    }
}
