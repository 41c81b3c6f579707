//! How long a message of a change is at most.

ghost use Rattle.std.specs.Prelude.{◌≡◌};
ghost use Rattle.row_messages.specs.Spelling.{room_for};

/// So many bytes are room for the message of any change: an update's two rows have at most 9,536 each, and 7 stand before and between
/// them.
pub const MAX_MESSAGE_LENGTH: usize = 19_200;

/// A message of a change is at most so many bytes longer than its body: each value of its two rows by 24 at most, and 2 before them.
pub const MAX_ADDED_LENGTH: usize = 3_100;

/// How many bytes are room for the message of a change whose body has so many.
pub fn room_for(size: usize) -> usize
    ensures { result ≡ room_for size }
{
    if size > MAX_MESSAGE_LENGTH - MAX_ADDED_LENGTH {
        return MAX_MESSAGE_LENGTH;
    }
    size + MAX_ADDED_LENGTH
}
