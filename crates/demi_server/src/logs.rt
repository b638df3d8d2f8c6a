//! How the log of a session is opened as a store.
ghost use Rattle.std.specs.Prelude.{◌≡◌, ◌≢◌, ◌≤◌, [], IfErr, IfOk};
ghost use Rattle.demi_logq.specs.Items.{tells};
ghost use Rattle.demi_server.specs.Logs.{HadRecords, Unmade, contents, contents_of, log_at, opened_log, refused_as};

use crate::outcome::Outcome;
use demi_core::Disk;
use demi_logq::{Log, LogRefusal};
use demi_store::StoreEngine;
use std::alloc::Global;

// The outcome of a log that is refused at its opening.
fn refused(refusal: LogRefusal) -> Outcome
    requires { (refusal ≢ LogRefusal.Full) × (refusal ≢ LogRefusal.Broken) }
    ensures { result ≡ refused_as refusal }
{
    match refusal {
        LogRefusal::Failed => Outcome::LogFault,
        LogRefusal::NoMemory => Outcome::NoMemory,
        LogRefusal::BadLog(at) => Outcome::BadLog(at),
        // No opening is refused so.
        LogRefusal::Full | LogRefusal::Broken => unreachable!(),
    }
}

/// A store on the records of a log, which may have so many: an empty log gets its header. Where it is refused the log comes back, with
/// the cause.
pub(crate) fn open_store<D: Disk>(
    alloc: Global,
    disk: D,
    limit: u32,
) -> Result<StoreEngine<D>, (D, Outcome)>
    requires { (1 ≤ limit) × (limit ≤ 1000000) }
    ensures base { IfOk result (λ e. e.base ≡ record { records = e.core.records; limit = limit; told = tells (D.bytes disk) }) }
    ensures new { IfOk result (λ e. (e.served ≡ []) × (e.finished ≡ [])) }
    ensures had { IfOk result (λ e. HadRecords (log_at D.bytes D.held D.faults disk) e.core.records) }
    ensures stands { IfOk result (λ e. contents (D.bytes e.core.log.disk) (D.held e.core.log.disk) ≡ contents_of (opened_log (log_at D.bytes D.held D.faults disk))) }
    ensures later { IfOk result (λ e. D.faults disk ≤ D.faults e.core.log.disk) }
    ensures refused { IfErr result (λ e. Unmade e.1 (log_at D.bytes D.held D.faults disk) (log_at D.bytes D.held D.faults e.0)) }
    ensures refused_later { IfErr result (λ e. D.faults disk ≤ D.faults e.0) }
{
    let log = match Log::make(alloc, disk, limit) {
        Ok(log) => log,
        Err((disk, refusal)) => return Err((disk, refused(refusal))),
    };
    match StoreEngine::make(alloc, log, limit) {
        Ok(store) => Ok(store),
        Err((log, refusal)) => Err((log.disk(), refused(refusal))),
    }
}
