//! How a transaction of who builds a service ends in the log.

ghost use Rattle.std.specs.Prelude.{◌≡◌, Err, IfErr, IfNone, IfSome, None, OnErr, OnOk, Some};
ghost use Rattle.server_state.specs.Ending.{Ends, FromRefused, IsUndone};
ghost use Rattle.server_state.specs.Notices.{news_of_commit};
ghost use Rattle.txlog.specs.Publishing.{after_commit, receipt_of};

use crate::fault::EndFault;
use crate::streams::spreading::Unheard;
use shared_log::LogName;
use std::sync::Wait;
use txlog::{Publisher, SessionFault, Tx};

/// Ends a transaction with what came of its work, by what it is spoilt if it is, and answers what its caller is told, and what streams
/// are. The work's own error stays; else `Aborted` where the commit is refused, and `Unended` where memory is refused for an abort.
pub(crate) fn ended<L: LogName, R: Wait, T, E>(
    rt: &R,
    publisher: &mut Publisher<L>,
    tx: Tx,
    time: i64,
    spoilt: Option<SessionFault>,
    done: Result<T, E>,
) -> (Result<T, E>, Option<Unheard<L>>)
where
    T: Drop,
    E: From<EndFault> + Drop,
    ensures ok { OnOk result.0
        ((result.0 ≡ done) × (spoilt ≡ None)
        × (publisher.new ≡ after_commit tx time publisher.old)
        × (result.1 ≡ Some (news_of_commit (receipt_of tx time publisher.old)))) }
    ensures undone { OnErr result.0 (IsUndone tx publisher.old publisher.new result.1) }
    ensures own { IfErr done (λ e. IfSome result.1 (λ news. result.0 ≡ Err e)) }
    ensures refused { OnOk done
        (IfErr result.0 (λ e. IfSome result.1 (λ news. FromRefused E.from_gives e))) }
    ensures unended { IfNone result.1 (IfErr result.0 (λ e. E.from_gives EndFault.Unended e)) }
{
    let done = judged(spoilt, done);
    let commits = if done.is_ok() { Some(time) } else { None };
    let (end, unheard) = settled(rt, publisher, tx, commits);
    match end {
        Ok(()) => (done, unheard),
        Err(fault) => {
            drop(done);
            (Err(E::from(fault)), unheard)
        }
    }
}

/// The work's answer, unless it went well and the transaction can't commit.
fn judged<T, E>(spoilt: Option<SessionFault>, done: Result<T, E>) -> Result<T, E>
where
    T: Drop,
    E: From<EndFault> + Drop,
    ensures ok { OnOk result ((result ≡ done) × (spoilt ≡ None)) }
    ensures own { IfErr done (λ e. result ≡ Err e) }
    ensures refused { OnOk done (IfErr result (λ e. FromRefused E.from_gives e)) }
{
    match (spoilt, done) {
        (Some(fault), Ok(done)) => {
            drop(done);
            Err(E::from(EndFault::Aborted(fault)))
        }
        (_, done) => done,
    }
}

/// Commits a transaction at a time, or aborts it, as is asked or where commit is refused. Where that is refused too it stays in
/// progress.
fn settled<L: LogName, R: Wait>(
    rt: &R,
    publisher: &mut Publisher<L>,
    tx: Tx,
    commits: Option<i64>,
) -> (Result<(), EndFault>, Option<Unheard<L>>)
    ensures { Ends tx commits publisher.old publisher.new result.0 result.1 }
{
    let Some(time) = commits else {
        return aborted(rt, publisher, tx, Ok(()));
    };
    match publisher.commit(rt, tx, time) {
        Ok(receipt) => (Ok(()), Some(Unheard::of_commit(receipt))),
        Err((tx, fault)) => aborted(rt, publisher, tx, Err(EndFault::Aborted(fault))),
    }
}

/// Aborts a transaction, with this answer where that is done.
fn aborted<L: LogName, R: Wait>(
    rt: &R,
    publisher: &mut Publisher<L>,
    tx: Tx,
    answer: Result<(), EndFault>,
) -> (Result<(), EndFault>, Option<Unheard<L>>)
    ensures undone { IsUndone tx publisher.old publisher.new result.1 }
    ensures done { IfSome result.1 (λ news. result.0 ≡ answer) }
    ensures unended { IfNone result.1 (result.0 ≡ Err EndFault.Unended) }
{
    match publisher.abort(rt, tx) {
        Ok(()) => (answer, Some(Unheard::of_end(publisher.end()))),
        Err((tx, _)) => {
            publisher.leave(tx);
            (Err(EndFault::Unended), None)
        }
    }
}
