//! Work that is done in threads. Free functions start them, and see the work as a type parameter.
ghost use Rattle.std.specs.Thread.{IsSend, IsSync};
ghost use Rattle.demi_pdpix.specs.InTests.{IsSet, HasServed};

use demi_device::{Device, Engine};
use demi_port::Port;
use std::process::Abort;
use std::sync::Wait;
use std::thread::{Threads, join_mut};

/// Work that is done once. It may wait for other work that runs beside it.
pub(super) trait Job {
    // What has to hold before it.
    ghost ready: { Self → Type 0 };

    // What it was, and what it is afterwards.
    ghost done: { Self → Self → Type 0 };

    fn work<R: Wait + Abort>(&mut self, rt: &R)
        requires { ready self.old }
        ensures { done self.old self.new };
}

/// A device at its port. Its work is to serve until it is stopped.
pub(super) struct Station<'p, E: Engine> {
    pub(super) device: Device<E>,
    pub(super) port: &'p Port<E::L>,
}

impl<'p, E: Engine> Job for Station<'p, E> {
    ghost ready = { λ s. IsSend E.L.Op.row × IsSend E.L.Out.row × IsSet E.base s.port.now s.device };

    ghost done = { λ s t. HasServed E.base E.L.stops E.served s.port.now t.device };

    fn work<R: Wait + Abort>(&mut self, rt: &R) {
        let port = self.port;
        self.device.run(rt, port);
    }
}

fn two<R: Threads + Wait + Abort + Sync, A: Job + Send, B: Job + Send>(rt: &R, a: &mut A, b: &mut B)
    requires { A.ready a.old × B.ready b.old }
    ensures { A.done a.old a.new × B.done b.old b.new }
{
    let mut left = ||
        requires { IsSync R.row × IsSend A.row × A.ready a.now }
        ensures { A.done a.entry.now a.exit.now }
    { a.work(rt) };
    let mut right = ||
        requires { IsSync R.row × IsSend B.row × B.ready b.now }
        ensures { B.done b.entry.now b.exit.now }
    { b.work(rt) };
    join_mut(rt, &mut left, &mut right);
}

fn three<R: Threads + Wait + Abort + Sync, A: Job + Send, B: Job + Send, C: Job + Send>(
    rt: &R,
    a: &mut A,
    b: &mut B,
    c: &mut C,
)
    requires { A.ready a.old × B.ready b.old × C.ready c.old }
    ensures { A.done a.old a.new × B.done b.old b.new × C.done c.old c.new }
{
    let mut left = ||
        requires { IsSync R.row × IsSend A.row × A.ready a.now }
        ensures { A.done a.entry.now a.exit.now }
    { a.work(rt) };
    let mut right = ||
        requires { IsSync R.row × IsSend B.row × IsSend C.row × B.ready b.now × C.ready c.now }
        ensures { B.done b.entry.now b.exit.now × C.done c.entry.now c.exit.now }
    { two(rt, b, c) };
    join_mut(rt, &mut left, &mut right);
}

fn four<
    R: Threads + Wait + Abort + Sync,
    A: Job + Send,
    B: Job + Send,
    C: Job + Send,
    D: Job + Send,
>(rt: &R, a: &mut A, b: &mut B, c: &mut C, d: &mut D)
    requires { A.ready a.old × B.ready b.old × C.ready c.old × D.ready d.old }
    ensures { A.done a.old a.new × B.done b.old b.new × C.done c.old c.new × D.done d.old d.new }
{
    let mut left = ||
        requires { IsSync R.row × IsSend A.row × IsSend B.row × A.ready a.now × B.ready b.now }
        ensures { A.done a.entry.now a.exit.now × B.done b.entry.now b.exit.now }
    { two(rt, a, b) };
    let mut right = ||
        requires { IsSync R.row × IsSend C.row × IsSend D.row × C.ready c.now × D.ready d.now }
        ensures { C.done c.entry.now c.exit.now × D.done d.entry.now d.exit.now }
    { two(rt, c, d) };
    join_mut(rt, &mut left, &mut right);
}

/// Seven of them, each in a thread of its own.
pub(super) fn seven<
    R: Threads + Wait + Abort + Sync,
    A: Job + Send,
    B: Job + Send,
    C: Job + Send,
    D: Job + Send,
    E: Job + Send,
    F: Job + Send,
    G: Job + Send,
>(rt: &R, a: &mut A, b: &mut B, c: &mut C, d: &mut D, e: &mut E, f: &mut F, g: &mut G)
    requires front { A.ready a.old × B.ready b.old × C.ready c.old × D.ready d.old }
    requires back { E.ready e.old × F.ready f.old × G.ready g.old }
    ensures front { A.done a.old a.new × B.done b.old b.new × C.done c.old c.new × D.done d.old d.new }
    ensures back { E.done e.old e.new × F.done f.old f.new × G.done g.old g.new }
{
    let mut front = ||
        requires { IsSync R.row × IsSend A.row × IsSend B.row × IsSend C.row × IsSend D.row × A.ready a.now × B.ready b.now × C.ready c.now × D.ready d.now }
        ensures { A.done a.entry.now a.exit.now × B.done b.entry.now b.exit.now × C.done c.entry.now c.exit.now × D.done d.entry.now d.exit.now }
    { four(rt, a, b, c, d) };
    let mut back = ||
        requires { IsSync R.row × IsSend E.row × IsSend F.row × IsSend G.row × E.ready e.now × F.ready f.now × G.ready g.now }
        ensures { E.done e.entry.now e.exit.now × F.done f.entry.now f.exit.now × G.done g.entry.now g.exit.now }
    { three(rt, e, f, g) };
    join_mut(rt, &mut front, &mut back);
}
