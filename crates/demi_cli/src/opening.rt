// How a log is tried before a link is taken.
ghost use Rattle.std.specs.Prelude.{◌≡◌, ◌≤◌, List, IfErr, IfOk, IfSome, Ok};
ghost use Rattle.demi_cli.specs.Ended.{Unopened};
ghost use Rattle.demi_server.specs.Logs.{HadRecords, contents, contents_of, log_at, opened_log};
ghost use Rattle.demi_spec.specs.Record.{Record, records as records_of_text};

use crate::outcome::{Outcome, refused};
use demi_core::Disk;
use demi_logq::Log;
use demi_store::StoreCore;
use std::alloc::Global;

// How many records a log may have.
const MAX_RECORDS: u32 = 1_000_000;

/// Opens a log as a store on its records and gives the disk back: an empty one has its header then. Where it is refused the disk comes
/// back too.
pub fn try_log<D: Disk>(alloc: Global, disk: D) -> Result<D, (D, Outcome)>
    ensures had { IfOk result (λ d. (old : List Record) × HadRecords (log_at D.bytes D.held D.faults disk) old × IfSome (D.bytes d) (λ b. records_of_text b ≡ Ok old)) }
    ensures stands { IfOk result (λ d. contents (D.bytes d) (D.held d) ≡ contents_of (opened_log (log_at D.bytes D.held D.faults disk))) }
    ensures refused { IfErr result (λ e. Unopened e.1 (log_at D.bytes D.held D.faults disk) (log_at D.bytes D.held D.faults e.0)) }
    ensures later { IfOk result (λ d. D.faults disk ≤ D.faults d) }
{
    let log = match Log::make(alloc, disk, MAX_RECORDS) {
        Ok(log) => log,
        Err((disk, refusal)) => return Err((disk, refused(refusal))),
    };
    match StoreCore::make(alloc, log, MAX_RECORDS) {
        Ok(store) => Ok(store.into_log().disk()),
        Err((log, refusal)) => Err((log.disk(), refused(refusal))),
    }
}
