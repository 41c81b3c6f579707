//! What lines begin with, by what they tell.

ghost use Rattle.std.specs.Prelude.{◌≡◌, nat_eq};
ghost use Rattle.std.specs.List.{starts_with};
ghost use Rattle.message_lines.specs.Fronts.{begins, begins_one, is_change_line, is_note_line};

/// Whether the line is the first of a transaction, a note, or the last of all, as far as it is there.
#[tactic(auto, unfolding(crate::specs::Fronts::begins_one))]
pub fn begins_one(line: &[u8]) -> bool
    ensures { result ≡ begins_one line.now }
{
    begins(line, "{\"action\":\"B\",")
        || begins(line, "{\"action\":\"M\",\"transactional\":false,")
        || begins(line, "{\"summary\":{")
}

/// Whether the line is a note's.
#[tactic(auto, unfolding(crate::specs::Fronts::is_note_line))]
pub fn is_note_line(line: &[u8]) -> bool
    ensures { result ≡ is_note_line line.now }
{
    starts(line, "{\"action\":\"M\",\"transactional\":false,")
}

/// Whether the line is that of a change of a table.
#[tactic(auto, unfolding(crate::specs::Fronts::is_change_line))]
pub fn is_change_line(line: &[u8]) -> bool
    ensures { result ≡ is_change_line line.now }
{
    starts(line, "{\"action\":\"I\",")
        || starts(line, "{\"action\":\"U\",")
        || starts(line, "{\"action\":\"D\",")
        || starts(line, "{\"action\":\"T\",")
}

/// Whether the line begins so, as far as it is there.
fn begins(line: &[u8], front: &str) -> bool
    ensures { result ≡ begins line.now front.now }
{
    starts(line, front) || front.as_bytes().starts_with(line)
}

fn starts(line: &[u8], front: &str) -> bool
    ensures { result ≡ starts_with nat_eq line.now front.now }
{
    line.starts_with(front.as_bytes())
}
