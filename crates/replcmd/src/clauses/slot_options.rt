//! The options of CREATE_REPLICATION_SLOT, after their opening bracket.

ghost use Rattle.std.specs.Prelude.{◌≡◌};
ghost use Rattle.replcmd.specs.Commands.{closed_at, first_snapshot_at, first_two_phase_at, last_snapshot_at, other_option, slot_bracket_at, slot_options_at, snapshot_value_at, two_phase_at};
ghost use Rattle.replcmd.specs.declared.clauses.strictness.Strictness.TheVariants.{Lenient};
ghost use Rattle.replcmd.specs.Reading.{Gives, Moves};

use crate::clauses::setting::goes_on;
use crate::clauses::snapshot_clause::SnapshotClause;
use crate::clauses::strictness::Strictness;
use crate::fault::CmdFault;
use crate::text::token::{CLOSE, COMMA};
use crate::text::tokens::Tokens;

/// The options up to the closing bracket (PostgreSQL 15, 55.4), each once at most; what they say of the snapshot.
///
/// ```text
/// SNAPSHOT { 'export' | 'nothing' | 'use' }
/// TWO_PHASE [ Boolean ]
/// ```
///
/// Read strictly, `SNAPSHOT 'nothing'` alone may stand there. Another option, or another value of SNAPSHOT, is C4.
#[tactic(auto, unfolding(crate::specs::Commands::slot_options_at))]
pub(crate) fn slot_options_of(
    strictness: Strictness,
    tokens: &mut Tokens<'_>,
) -> Result<SnapshotClause, CmdFault>
    ensures { Gives result tokens.new (slot_options_at strictness tokens.old) }
{
    if tokens.takes_word("SNAPSHOT") {
        return first_snapshot(strictness, tokens);
    }
    match strictness {
        Strictness::Strict => Err(other_option(tokens)),
        Strictness::Lenient => first_two_phase(tokens),
    }
}

/// What follows the word SNAPSHOT where it stands first.
#[tactic(auto, unfolding(crate::specs::Commands::first_snapshot_at))]
fn first_snapshot(
    strictness: Strictness,
    tokens: &mut Tokens<'_>,
) -> Result<SnapshotClause, CmdFault>
    ensures { Gives result tokens.new (first_snapshot_at strictness tokens.old) }
{
    let snapshot = snapshot_value(strictness, tokens)?;
    close_of(strictness, tokens)?;
    Ok(snapshot)
}

fn snapshot_value(
    strictness: Strictness,
    tokens: &mut Tokens<'_>,
) -> Result<SnapshotClause, CmdFault>
    ensures { Gives result tokens.new (snapshot_value_at strictness tokens.old) }
{
    let value = tokens.value()?;
    let snapshot = SnapshotClause::named(strictness, value.as_str()).ok_or(CmdFault::Unsupported)?;
    Ok(snapshot)
}

/// The closing bracket after SNAPSHOT, or TWO_PHASE before it.
#[tactic(auto, unfolding(crate::specs::Commands::closed_at))]
fn close_of(strictness: Strictness, tokens: &mut Tokens<'_>) -> Result<(), CmdFault>
    ensures { Moves result tokens.new (closed_at strictness tokens.old) }
{
    match strictness {
        Strictness::Strict => bracket_of(tokens),
        Strictness::Lenient => late_two_phase(tokens),
    }
}

#[tactic(auto, unfolding(crate::specs::Commands::closed_at))]
fn late_two_phase(tokens: &mut Tokens<'_>) -> Result<(), CmdFault>
    ensures { Moves result tokens.new (closed_at Lenient tokens.old) }
{
    if goes_on(tokens)? {
        two_phase_of(tokens)?;
        return bracket_of(tokens);
    }
    Ok(())
}

/// TWO_PHASE, and SNAPSHOT after it where it stands there.
#[tactic(auto, unfolding(crate::specs::Commands::first_two_phase_at))]
fn first_two_phase(tokens: &mut Tokens<'_>) -> Result<SnapshotClause, CmdFault>
    ensures { Gives result tokens.new (first_two_phase_at tokens.old) }
{
    two_phase_of(tokens)?;
    if goes_on(tokens)? {
        return last_snapshot(tokens);
    }
    Ok(SnapshotClause::Export)
}

#[tactic(auto, unfolding(crate::specs::Commands::last_snapshot_at))]
fn last_snapshot(tokens: &mut Tokens<'_>) -> Result<SnapshotClause, CmdFault>
    ensures { Gives result tokens.new (last_snapshot_at tokens.old) }
{
    if !tokens.takes_word("SNAPSHOT") {
        return Err(other_option(tokens));
    }
    let snapshot = snapshot_value(Strictness::Lenient, tokens)?;
    bracket_of(tokens)?;
    Ok(snapshot)
}

/// TWO_PHASE, and a truth value where one stands there; prepared transactions are sent once they are committed, whatever it says.
#[tactic(auto, unfolding(crate::specs::Commands::two_phase_at))]
fn two_phase_of(tokens: &mut Tokens<'_>) -> Result<(), CmdFault>
    ensures { Moves result tokens.new (two_phase_at tokens.old) }
{
    if !tokens.takes_word("TWO_PHASE") {
        return Err(other_option(tokens));
    }
    tokens.flag()
}

/// The closing bracket.
fn bracket_of(tokens: &mut Tokens<'_>) -> Result<(), CmdFault>
    ensures { Moves result tokens.new (slot_bracket_at tokens.old) }
{
    if tokens.takes(COMMA) {
        return Err(other_option(tokens));
    }
    if tokens.takes(CLOSE) {
        return Ok(());
    }
    Err(CmdFault::Syntax)
}

/// The fault of what stands where an option stands: C4 if it is another option's name.
fn other_option(tokens: &Tokens<'_>) -> CmdFault
    ensures { result ≡ other_option tokens.now }
{
    if tokens.begins_with_name() {
        CmdFault::Unsupported
    } else {
        CmdFault::Syntax
    }
}
