//! Lines of text, as an output holds them.

ghost use Rattle.std.specs.Prelude.{◌≡◌, ◌<◌, ◌^◌, ◌++◌, ◌∷◌, [], ℕ, ℤ, List, None, Some, IfSome, FitsSigned, true, length, nat_eq};
ghost use Rattle.std.specs.Int.{w64};
ghost use Rattle.std.specs.Str.{IsUtf8};
ghost use Rattle.std.specs.Fmt.{signed_decimal};
ghost use Rattle.std.specs.List.{starts_with};
ghost use Rattle.replcmd.specs.Position.{SpellsPosition};
ghost use Rattle.message_lines.specs.Fronts.{begins};
ghost use Rattle.message_lines.specs.Texts.{commit_text};
ghost use Rattle.follower.specs.TextLines.{HasNoBlank, TellsCommit, TellsEnd, TellsNoteBefore, text_begins, text_is_change, text_is_note};

use crate::printing::line::Line;
use crate::printing::whole::whole;
use replcmd::parse_position;

/// What the first line of a transaction begins with.
const BEGIN: &str = "BEGIN ";

/// What the line of a note begins with, a message outside of all transactions.
const NOTE: &str = "MESSAGE 0 ";

/// What the last line of a transaction begins with.
const COMMIT: &str = "COMMIT ";

/// What lines of changes begin with.
const INSERT: &str = "INSERT ";

const UPDATE: &str = "UPDATE ";

const DELETE: &str = "DELETE ";

const TRUNCATE: &str = "TRUNCATE ";

/// What the line tells.
pub(crate) fn text_line(text: &[u8]) -> Line
    ensures length { result.length ≡ length text.now }
    ensures begins { result.begins ≡ text_begins text.now }
    ensures note { result.is_note ≡ text_is_note text.now }
    ensures change { result.is_change ≡ text_is_change text.now }
    // What ends something is whole, and tells it.
    ensures end { IfSome result.end (λ end. TellsEnd text.now end) }
    // Of what is printed of a Commit, its end.
    ensures commit { (start end : ℕ) (time : ℤ) → start < 2 ^ 64 → end < 2 ^ 64 →
        FitsSigned w64 time → IsUtf8 (commit_text start end time) →
        text.now ≡ commit_text start end time ++ 10 ∷ [] → result.end ≡ Some end }
{
    Line {
        length: text.len() as u64,
        begins: begins(text, BEGIN) || begins(text, NOTE),
        is_note: starts(text, NOTE),
        is_change: is_change(text),
        end: end_told(text),
    }
}

fn is_change(text: &[u8]) -> bool
    ensures { result ≡ text_is_change text.now }
{
    starts(text, INSERT) || starts(text, UPDATE) || starts(text, DELETE) || starts(text, TRUNCATE)
}

/// A position of the log after what the line ends, if it is whole and ends something.
fn end_told(line: &[u8]) -> Option<u64>
    ensures end { IfSome result (λ end. TellsEnd line.now end) }
    ensures commit { (start end : ℕ) (time : ℤ) → start < 2 ^ 64 → end < 2 ^ 64 →
        FitsSigned w64 time → IsUtf8 (commit_text start end time) →
        line.now ≡ commit_text start end time ++ 10 ∷ [] → result ≡ Some end }
{
    match end_of_commit(line) {
        Some(end) => Some(end),
        None => end_of_note(line),
    }
}

/// A position after the start of the note whose line this is, whole.
fn end_of_note(line: &[u8]) -> Option<u64>
    ensures { IfSome result (λ end. TellsNoteBefore line.now end) }
{
    let text = behind(whole(line)?, NOTE)?;
    let (start, _said) = halves(text)?;
    position_in(start)?.checked_add(1)
}

/// Where the transaction ends in the log whose Commit the line is, whole.
fn end_of_commit(line: &[u8]) -> Option<u64>
    ensures found { IfSome result (λ end. TellsCommit line.now end) }
    ensures only { (start end : ℕ) (time : ℤ) → start < 2 ^ 64 → end < 2 ^ 64 →
        FitsSigned w64 time → IsUtf8 (commit_text start end time) →
        line.now ≡ commit_text start end time ++ 10 ∷ [] → result ≡ Some end }
{
    let numbers = behind(whole(line)?, COMMIT)?;
    let (start, end_and_time) = halves(numbers)?;
    let (end, time) = halves(end_and_time)?;
    let _start = position_in(start)?;
    if !is_time(time) {
        return None;
    }
    position_in(end)
}

fn is_time(text: &str) -> bool
    ensures { (time : ℤ) → FitsSigned w64 time → text.now ≡ signed_decimal time → result ≡ true }
{
    text.parse::<i64>().is_ok()
}

/// What stands after this front of a line.
fn behind<'a>(line: &'a str, front: &str) -> Option<&'a str>
    ensures found { IfSome result (λ text. line.now ≡ front.now ++ text.now) }
    ensures none { result ≡ None → (text : List ℕ) → line.now ≡ front.now ++ text → ⊥ }
{
    line.strip_prefix(front)
}

/// What stands before and after the first blank.
fn halves(text: &str) -> Option<(&str, &str)>
    ensures found { IfSome result (λ both. text.now ≡ both.0.now ++ 32 ∷ both.1.now) }
    ensures first { IfSome result (λ both. HasNoBlank both.0.now) }
    ensures none { result ≡ None → (front rest : List ℕ) → text.now ≡ front ++ 32 ∷ rest → ⊥ }
{
    text.split_once(' ')
}

fn position_in(text: &str) -> Option<u64>
    ensures found { IfSome result (λ position. SpellsPosition text.now position) }
    ensures only { (position : ℕ) → SpellsPosition text.now position → result ≡ Some position }
{
    parse_position(text).ok()
}

/// Whether the line begins so, as far as it is there.
fn begins(line: &[u8], front: &str) -> bool
    ensures { result ≡ begins line.now front.now }
{
    starts(line, front) || front.as_bytes().starts_with(line)
}

fn starts(line: &[u8], front: &str) -> bool
    ensures { result ≡ starts_with nat_eq line.now front.now }
{
    line.starts_with(front.as_bytes())
}
