//! The words of a place in the table, and how the place stands by its line's first word.

ghost use Rattle.std.specs.Prelude.{◌≡◌, ◌+◌, ◌*◌, ◌<◌, ◌≤◌, ◌^◌};
ghost use Rattle.slots.specs.declared.table.TheConstants.{END_OF_PLACES};
ghost use Rattle.slots.specs.Rule.{generation_of, position_word, state_at, state_word, word_at};

use crate::table::LINES;

/// 64 bytes, a line of a processor's cache: a step at one slot doesn't slow down a step at another.
const WORDS_A_LINE: usize = 8;

/// As many words as the lines of a table have.
pub const WORDS: usize = LINES * WORDS_A_LINE;

/// A word that says how a place stands has the place's generation times this before it.
const STATES: u64 = 4096;

/// How a place stands as long as its line hasn't come to it.
const NOT_YET: u64 = 4095;

/// How a place stands once its slot was dropped.
const DROPPED: u64 = 2;

/// The word that says how a place stands.
pub fn state_word(place: usize) -> usize
    ensures { result ≡ state_word place }
{
    place % LINES * WORDS_A_LINE
}

/// The word of its confirmed position, on the same line.
pub fn position_word(place: usize) -> usize
    ensures { result ≡ position_word place }
{
    place % LINES * WORDS_A_LINE + 1
}

/// What the first word of a line says that is at this place, which stands so.
pub fn word_at(place: usize, state: u64) -> u64
    requires place { place < END_OF_PLACES }
    requires state { state < 4096 }
    ensures { result ≡ word_at place state }
{
    (place / LINES) as u64 * STATES + state
}

/// What it says once the line has gone on past this place.
pub fn word_past(place: usize) -> u64
    requires { place < END_OF_PLACES }
    ensures { result ≡ (generation_of place + 1) * 4096 }
{
    ((place / LINES) as u64 + 1) * STATES
}

/// How a place stands, by the first word of its line.
pub fn state_at(place: usize, word: u64) -> u64
    ensures { result ≡ state_at place word }
{
    let generation = (place / LINES) as u64;
    if word / STATES < generation {
        return NOT_YET;
    }
    if generation < word / STATES {
        return DROPPED;
    }
    word % STATES
}
