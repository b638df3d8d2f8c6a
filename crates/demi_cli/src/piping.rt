// A run of `pipe`: a session over one link and one log of the world.
ghost use Rattle.std.specs.Prelude.{◌≡◌, ◌≤◌, [], ◌∷◌, length, slice_get, IfErr, IfNone, IfOk, IfSome, IsErrOf, MatchOption, None, OnErr};
ghost use Rattle.demi_core.specs.Outside.{Rose};
ghost use Rattle.demi_core.specs.World.{after_links};
ghost use Rattle.demi_cli.specs.Ended.{LinkNone, LinkRan, RanWith, RanWithout};
ghost use Rattle.demi_cli.specs.Reading.{DueInRun, DueOver, NothingRead};
ghost use Rattle.demi_cli.specs.Sessions.{as_outcome, link_at};
ghost use Rattle.demi_server.specs.Logs.{log_at};

use crate::opening::try_log;
use crate::outcome::Outcome;
use demi_core::{Halt, Site, World};
use demi_pdpix::DemiEnd;
use demi_server::{Outcome as SessionOutcome, Plan, SessionEnd, session};
use demi_store::StoreLaw;
use std::alloc::Global;
use std::sync::Wait;
use std::thread::Threads;

// What came of a link: the log, the outcome, and the ends of the session, where one ran.
struct LinkEnd<D> {
    log: D,
    outcome: Outcome,
    ends: Option<DemiEnd<StoreLaw>>,
}

// Where no link was given.
fn unlinked<D>(log: D, outcome: Outcome) -> LinkEnd<D>
    ensures { result ≡ record { log = log; outcome = outcome; ends = None } }
{
    LinkEnd {
        log,
        outcome,
        ends: None,
    }
}

// The one link of standard input and output.
fn one_link<W: World>(alloc: Global, world: &mut W) -> Result<Vec<(W::In, W::Out)>, Halt>
    ensures given { IfOk result (λ v. (p : _) × (v.items ≡ p ∷ []) × (W.state world.new ≡ after_links (W.state world.old) (link_at W.In.taken W.In.left W.In.faults W.Out.written W.Out.faults p ∷ []))) }
    ensures next_source { IfOk result (λ v. IfSome (slice_get v.items 0) (λ p. W.next_source world.old 0 p.0)) }
    ensures same { OnErr result (W.state world.new ≡ W.state world.old) }
    ensures later { W.faults world.old ≤ W.faults world.new }
    ensures failed { IsErrOf result Halt.Failed → Rose (W.faults world.old) (W.faults world.new) }
    ensures print_faults { W.print_faults world.new ≡ W.print_faults world.old }
{
    world.links(alloc, &Site::Standard, 1)
}

// The one element.
fn only<T>(items: Vec<T>) -> T
    requires { length items.items ≡ 1 }
    ensures { items.items ≡ result ∷ [] }
{
    let mut items = items;
    let Some(first) = items.pop() else {
        // There is one.
        unreachable!();
    };
    items.destroy_empty();
    first
}

// The outcome of a run whose session came to this one.
fn outcome_of(outcome: SessionOutcome) -> Outcome
    ensures { result ≡ as_outcome outcome }
{
    match outcome {
        SessionOutcome::Served => Outcome::Done,
        SessionOutcome::BadLog(at) => Outcome::BadLog(at),
        SessionOutcome::NoMemory => Outcome::NoMemory,
        SessionOutcome::LogFault => Outcome::LogFault,
        SessionOutcome::ReadFault(_) => Outcome::ReadFault,
        SessionOutcome::WriteFault(_) => Outcome::WriteFault,
        SessionOutcome::Refused(_, code) => Outcome::Refused(code),
    }
}

// Takes a link, serves it in a session over the log and keeps it.
fn over_link<R: Threads + Wait + Sync, W: World>(
    rt: &R,
    alloc: Global,
    limit: u32,
    log: W::Log,
    world: &mut W,
) -> LinkEnd<W::Log>
    requires { (1 ≤ limit) × (limit ≤ 1000000) }
    ensures without { IfNone result.ends (LinkNone result.outcome (W.state world.old) (W.state world.new) (log_at W.Log.bytes W.Log.held W.Log.faults log) (log_at W.Log.bytes W.Log.held W.Log.faults result.log) (W.faults world.old) (W.faults world.new)) }
    ensures ran { IfSome result.ends (λ e. LinkRan limit result.outcome (W.state world.old) (W.state world.new) (log_at W.Log.bytes W.Log.held W.Log.faults log) (log_at W.Log.bytes W.Log.held W.Log.faults result.log) (record { service = e.service; rx = e.rx.items; tx = e.tx.items })) }
    ensures reads { MatchOption result.ends (NothingRead W.In.taken W.In.left W.In.faults (W.next_source world.old) (W.kept_source world.new) (W.state world.old) (W.state world.new))
        (λ _. DueOver limit W.In.reads W.In.taken W.In.left W.In.faults (W.next_source world.old) (W.kept_source world.new) (W.state world.old) (W.state world.new) (log_at W.Log.bytes W.Log.held W.Log.faults log)) }
    ensures later { W.Log.faults log ≤ W.Log.faults result.log }
    ensures faults { W.faults world.old ≤ W.faults world.new }
    ensures print_faults { W.print_faults world.new ≡ W.print_faults world.old }
{
    let links = match one_link(alloc, world) {
        Ok(links) => links,
        Err(Halt::Failed) => return unlinked(log, Outcome::CannotOpen),
        Err(Halt::NoMemory) => return unlinked(log, Outcome::NoMemory),
    };
    let plan = Plan { workers: 1, limit };
    let SessionEnd {
        links,
        log,
        outcome,
        ends,
    } = session(rt, alloc, plan, links, log);
    let (source, sink) = only(links);
    world.keep_link(0, source, sink);
    LinkEnd {
        log,
        outcome: outcome_of(outcome),
        ends,
    }
}

/// Runs `pipe` over the log of a name. It gives the outcome, and the ends of the session, where one ran.
///
/// The log has at most `limit` records after it, or as many as it had. It is opened once before the link is taken, so that a bad one takes
/// no link.
pub fn pipe<R: Threads + Wait + Sync, W: World>(
    rt: &R,
    alloc: Global,
    limit: u32,
    name: &str,
    world: &mut W,
) -> (Outcome, Option<DemiEnd<StoreLaw>>)
    requires { (1 ≤ limit) × (limit ≤ 1000000) }
    ensures without { IfNone result.1 (RanWithout (W.state world.old) (W.state world.new) (W.faults world.old) (W.faults world.new) name.now result.0) }
    ensures ran { IfSome result.1 (λ e. RanWith limit (W.state world.old) (W.state world.new) name.now result.0 (record { service = e.service; rx = e.rx.items; tx = e.tx.items })) }
    ensures reads { MatchOption result.1 (NothingRead W.In.taken W.In.left W.In.faults (W.next_source world.old) (W.kept_source world.new) (W.state world.old) (W.state world.new))
        (λ _. DueInRun limit W.In.reads W.In.taken W.In.left W.In.faults (W.next_source world.old) (W.kept_source world.new) (W.state world.old) (W.state world.new) name.now) }
    ensures print_faults { W.print_faults world.new ≡ W.print_faults world.old }
{
    let log = match world.log(alloc, name) {
        Ok(log) => log,
        Err(Halt::Failed) => return (Outcome::CannotOpen, None),
        Err(Halt::NoMemory) => return (Outcome::NoMemory, None),
    };
    let log = match try_log(alloc, log) {
        Ok(log) => log,
        Err((log, outcome)) => {
            world.keep_log(name, log);
            return (outcome, None);
        }
    };
    let LinkEnd { log, outcome, ends } = over_link(rt, alloc, limit, log, world);
    world.keep_log(name, log);
    (outcome, ends)
}
