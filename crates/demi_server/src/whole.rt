//! A session.
ghost use Rattle.std.specs.Prelude.{◌≡◌, ◌≤◌, ◌∷◌, [], IfNone, IfSome, None, length};
ghost use Rattle.demi_link.specs.Ends.{IsKnown};
ghost use Rattle.demi_pdpix.specs.Seen.{AreNewCallers};
ghost use Rattle.demi_server.specs.Ending.{OneCame};
ghost use Rattle.demi_server.specs.Gathering.{AreFor};
ghost use Rattle.demi_server.specs.Logs.{Unmade, log_at};
ghost use Rattle.demi_server.specs.Outcomes.{told_of};
ghost use Rattle.demi_server.specs.Session.{RanOne, ReadWhatWasDue};
ghost use Rattle.demi_worker.specs.declared.ended.Ended.{Ended as EndedLink};

use crate::ending::a_session_of_one_link_ends;
use crate::logs::open_store;
use crate::opening::{Opened, open};
use crate::outcome::{Outcome, outcome_of};
use crate::over::{HasRun, NotRun, over_ports};
use crate::parts::Parts;
use crate::plan::Plan;
use crate::shutting::shut;
use arrayvec::ArrayVec;
use demi_core::{Disk, Sink, Source};
use demi_pdpix::DemiEnd;
use demi_store::{StoreEngine, StoreLaw};
use demi_worker::Ended;
use std::alloc::Global;
use std::sync::Wait;
use std::thread::Threads;

/// What a session hands back: the links in their order, the log, how it ended, and the ends of all ports and of the heap.
pub struct SessionEnd<I, O, D> {
    pub links: Vec<(I, O)>,
    pub log: D,
    pub outcome: Outcome,
    /// `None` only where the outcome is `BadLog`, or where `NoMemory` or `LogFault` came while the session was being made. No link was
    /// read then.
    pub ends: Option<DemiEnd<StoreLaw>>,
}

// Where memory was refused while it was being made.
fn not_made<I, O, D: Disk>(links: Vec<(I, O)>, store: StoreEngine<D>) -> SessionEnd<I, O, D>
    ensures links { result.links ≡ links }
    ensures log { result.log ≡ store.core.log.disk }
    ensures outcome { result.outcome ≡ Outcome.NoMemory }
    ensures none { IfNone result.ends (Unit {0}) × IfSome result.ends (λ _. ⊥) }
{
    SessionEnd {
        links,
        log: store.parts().disk(),
        outcome: Outcome::NoMemory,
        ends: None,
    }
}

// The outcome by the end of the one link.
fn only_outcome(ended: &ArrayVec<Ended, 64>) -> Outcome
    requires { (e : EndedLink) × (ended.now.items ≡ e ∷ []) × IsKnown e.cause }
    ensures { (e : EndedLink) → ended.now.items ≡ e ∷ [] → result ≡ told_of 0 e.cause }
{
    outcome_of(&[ended[0].cause])
}

// Serves the one link of a whole, and closes all its ports.
fn serve_opened<R: Threads + Wait + Sync, I: Source + Send, O: Sink + Send, D: Disk + Send>(
    rt: &R,
    alloc: Global,
    opened: Opened<I, O, D>,
) -> SessionEnd<I, O, D>
    requires parts { AreFor opened.demi opened.parts }
    requires callers { (opened.demi.callers ≡ 1) × (length opened.callers.items ≡ 1) × AreNewCallers opened.demi 0 opened.callers.items }
    requires journal { (opened.demi.journal ≡ []) × (opened.parts.seats.journal ≡ None) }
    requires one { length opened.parts.links.items ≡ 1 }
    ensures links { length result.links.items ≡ 1 }
    ensures later { D.faults opened.parts.store.core.log.disk ≤ D.faults result.log }
    ensures unmade { IfNone result.ends ((result.links.items ≡ opened.parts.links.items) × (result.outcome ≡ Outcome.NoMemory) × (result.log ≡ opened.parts.store.core.log.disk)) }
    ensures made { IfSome result.ends (λ e. OneCame I.taken I.left I.faults I.reads O.written O.faults D.bytes D.faults opened.parts.store.base opened.parts.links.items result.links.items opened.parts.store.core.log.disk result.log result.outcome e.service e.rx.items e.tx.items) }
{
    a_session_of_one_link_ends::<I, O, D>();
    let Opened {
        demi,
        callers,
        parts,
    } = opened;
    match over_ports(rt, alloc, &demi, callers, parts) {
        Err(NotRun { callers, parts }) => {
            let Parts {
                links,
                store,
                seats,
            } = parts;
            let _ends = shut(demi, callers, seats);
            not_made(links, store)
        }
        Ok(
            HasRun {
                callers,
                ended,
                parts,
            },
        ) => {
            let Parts {
                links,
                store,
                seats,
            } = parts;
            let ends = shut(demi, callers, seats);
            SessionEnd {
                links,
                log: store.parts().disk(),
                outcome: only_outcome(&ended),
                ends: Some(ends),
            }
        }
    }
}

/// Serves one link over a log by one worker: the link's requests, one after another, until it has ended. The log is read as records
/// first; an empty one gets its header. It may have `plan.limit` records.
///
/// Each device of a port, and the worker, has a thread of its own. The call returns once the worker has ended and all devices were
/// stopped. It may wait for ever: for a link that stays silent, and where a thread could not be started or a link was lost.
pub fn session<R: Threads + Wait + Sync, I: Source + Send, O: Sink + Send, D: Disk + Send>(
    rt: &R,
    alloc: Global,
    plan: Plan,
    links: Vec<(I, O)>,
    log: D,
) -> SessionEnd<I, O, D>
    requires one { (plan.workers ≡ 1) × (length links.items ≡ 1) }
    requires limit { (1 ≤ plan.limit) × (plan.limit ≤ 1000000) }
    ensures links { length result.links.items ≡ length links.items }
    ensures later { D.faults log ≤ D.faults result.log }
    ensures unmade { IfNone result.ends ((result.links.items ≡ links.items) × Unmade result.outcome (log_at D.bytes D.held D.faults log) (log_at D.bytes D.held D.faults result.log)) }
    ensures reads { IfSome result.ends (λ _. ReadWhatWasDue I.taken I.left I.faults I.reads O.written O.faults D.bytes D.held D.faults plan.limit links.items result.links.items log) }
    ensures made { IfSome result.ends (λ e. RanOne I.taken I.left I.faults O.written O.faults D.bytes D.held D.faults plan.limit links.items result.links.items log result.log result.outcome e.service e.rx.items e.tx.items) }
{
    let store = match open_store(alloc, log, plan.limit) {
        Ok(store) => store,
        Err((log, outcome)) => {
            return SessionEnd {
                links,
                log,
                outcome,
                ends: None,
            };
        }
    };
    match open(alloc, plan, links, store) {
        Ok(opened) => serve_opened(rt, alloc, opened),
        Err((links, store)) => not_made(links, store),
    }
}
