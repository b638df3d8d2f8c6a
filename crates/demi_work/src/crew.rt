//! How all of a session runs beside each other. Only the functions here start threads: what works is a type parameter there, so no
//! closure sees what it borrows.
ghost use Rattle.std.specs.Prelude.{◌<◌, All, length};
ghost use Rattle.std.specs.Thread.{IsSend, IsSync};
ghost use Rattle.demi_work.specs.Working.{BothDone, BothReady, EachBecame, IsCrewDone};

use crate::both::Both;
use crate::job::{Crew, Job};
use std::sync::Wait;
use std::thread;
use std::thread::Threads;

// Both of a pair, beside each other.
fn work_both<R: Threads + Wait + Sync, A: Job + Send, B: Job + Send>(
    rt: &R,
    first: &mut A,
    second: &mut B,
)
    requires { A.ready first.old × B.ready second.old }
    ensures first { A.done first.old first.new }
    ensures second { B.done second.old second.new }
{
    let mut left = ||
        requires { IsSync R.row × IsSend A.row × A.ready first.now }
        ensures { A.done first.entry.now first.exit.now }
    { first.work(rt) };
    let mut right = ||
        requires { IsSync R.row × IsSend B.row × B.ready second.now }
        ensures { B.done second.entry.now second.exit.now }
    { second.work(rt) };
    thread::join_mut(rt, &mut left, &mut right);
}

// Both of each pair, and all pairs beside each other.
fn work_links<R: Threads + Wait + Sync, A: Job + Send, B: Job + Send>(
    rt: &R,
    links: &mut [Both<A, B>],
)
    requires { All (BothReady A.ready B.ready) links.old }
    ensures { EachBecame (BothDone A.done B.done) links.old links.new }
{
    let threads = links.len().max(1);
    thread::for_each_mut(
        rt,
        links,
        threads,
        &|_place: usize, link: &mut Both<A, B>|
            requires { IsSync R.row × IsSend A.row × IsSend B.row × BothReady A.ready B.ready link.now }
            ensures { BothDone A.done B.done link.entry.now link.exit.now }
        { work_both(rt, &mut link.first, &mut link.second) },
    );
}

// All workers, beside each other.
fn work_each<R: Threads + Wait + Sync, W: Job + Send>(rt: &R, workers: &mut [W])
    requires { All W.ready workers.old }
    ensures { EachBecame W.done workers.old workers.new }
{
    let threads = workers.len().max(1);
    thread::for_each_mut(
        rt,
        workers,
        threads,
        &|_place: usize, one: &mut W|
            requires { IsSync R.row × IsSend W.row × W.ready one.now }
            ensures { W.done one.entry.now one.exit.now }
        { one.work(rt) },
    );
}

// All workers beside each other, and once all have ended the last of the work, by the first.
fn work_crew<R: Threads + Wait + Sync, W: Crew + Send>(rt: &R, workers: &mut [W])
    requires some { 0 < length workers.old }
    requires ready { All W.ready workers.old }
    ensures { IsCrewDone W.done W.finished workers.old workers.new }
{
    work_each(rt, workers);
    workers[0].finish(rt);
}

// The workers beside the links.
fn beside_links<R: Threads + Wait + Sync, A: Job + Send, B: Job + Send, W: Crew + Send>(
    rt: &R,
    links: &mut [Both<A, B>],
    workers: &mut [W],
)
    requires some { 0 < length workers.old }
    requires ready { All (BothReady A.ready B.ready) links.old × All W.ready workers.old }
    ensures links { EachBecame (BothDone A.done B.done) links.old links.new }
    ensures workers { IsCrewDone W.done W.finished workers.old workers.new }
{
    let mut left = ||
        requires { IsSync R.row × IsSend A.row × IsSend B.row × All (BothReady A.ready B.ready) links.now }
        ensures { EachBecame (BothDone A.done B.done) links.entry.now links.exit.now }
    { work_links(rt, links) };
    let mut right = ||
        requires { IsSync R.row × IsSend W.row × (0 < length workers.now) × All W.ready workers.now }
        ensures { IsCrewDone W.done W.finished workers.entry.now workers.exit.now }
    { work_crew(rt, workers) };
    thread::join_mut(rt, &mut left, &mut right);
}

// The same beside the store.
fn beside_store<
    R: Threads + Wait + Sync,
    S: Job + Send,
    A: Job + Send,
    B: Job + Send,
    W: Crew + Send,
>(rt: &R, store: &mut S, links: &mut [Both<A, B>], workers: &mut [W])
    requires some { 0 < length workers.old }
    requires ready { S.ready store.old × All (BothReady A.ready B.ready) links.old × All W.ready workers.old }
    ensures store { S.done store.old store.new }
    ensures links { EachBecame (BothDone A.done B.done) links.old links.new }
    ensures workers { IsCrewDone W.done W.finished workers.old workers.new }
{
    let mut left = ||
        requires { IsSync R.row × IsSend S.row × S.ready store.now }
        ensures { S.done store.entry.now store.exit.now }
    { store.work(rt) };
    let mut right = ||
        requires { IsSync R.row × IsSend A.row × IsSend B.row × IsSend W.row × (0 < length workers.now) × All (BothReady A.ready B.ready) links.now × All W.ready workers.now }
        ensures { EachBecame (BothDone A.done B.done) links.entry.now links.exit.now × IsCrewDone W.done W.finished workers.entry.now workers.exit.now }
    { beside_links(rt, links, workers) };
    thread::join_mut(rt, &mut left, &mut right);
}

/// All of a session beside each other: the memory queues, the store, both sides of each link, and the workers; and once all workers
/// have ended, the last of the work by the first of them. It returns once all have ended.
///
/// Where a thread cannot be started, what it would have done is done before or after the rest: then who waits for it waits for ever.
pub fn work_all<
    R: Threads + Wait + Sync,
    M: Job + Send,
    S: Job + Send,
    A: Job + Send,
    B: Job + Send,
    W: Crew + Send,
>(rt: &R, memory: &mut M, store: &mut S, links: &mut [Both<A, B>], workers: &mut [W])
    requires some { 0 < length workers.old }
    requires ready { M.ready memory.old × S.ready store.old × All (BothReady A.ready B.ready) links.old × All W.ready workers.old }
    ensures memory { M.done memory.old memory.new }
    ensures store { S.done store.old store.new }
    ensures links { EachBecame (BothDone A.done B.done) links.old links.new }
    ensures workers { IsCrewDone W.done W.finished workers.old workers.new }
{
    let mut left = ||
        requires { IsSync R.row × IsSend M.row × M.ready memory.now }
        ensures { M.done memory.entry.now memory.exit.now }
    { memory.work(rt) };
    let mut right = ||
        requires { IsSync R.row × IsSend S.row × IsSend A.row × IsSend B.row × IsSend W.row × (0 < length workers.now) × S.ready store.now × All (BothReady A.ready B.ready) links.now × All W.ready workers.now }
        ensures { S.done store.entry.now store.exit.now × EachBecame (BothDone A.done B.done) links.entry.now links.exit.now × IsCrewDone W.done W.finished workers.entry.now workers.exit.now }
    { beside_store(rt, store, links, workers) };
    thread::join_mut(rt, &mut left, &mut right);
}
