//! What the two callers do, each in a thread of its own.
ghost use Rattle.std.specs.Prelude.{◌≡◌, [], ◌∷◌};
ghost use Rattle.demi_sga.specs.Arrays.{AreOf};
ghost use Rattle.demi_pdpix.specs.Owing.{Owes};

use super::crew::Job;
use super::doubler::UntilZero;
use super::refusing::byte;
use super::talking::{Came, all_came, asked, came, one_came, popped, stopped};
use crate::{Caller, Demi, QResult, Qd};
use demi_logq::LogOut;
use demi_memq::MemOut;
use demi_port_core::QToken;
use demi_sga::AppSga;
use demi_streamq::{RxOut, TxOut};
use std::alloc::Global;
use std::process::Abort;
use std::sync::Wait;

/// The memory queue that both use.
const QUEUE: Qd = Qd { port: 0, queue: 0 };

/// The log's queue.
const LOG: Qd = Qd { port: 2, queue: 0 };

/// Where link 0 is received.
const LINK_IN: Qd = Qd { port: 3, queue: 0 };

/// Where it is sent to.
const LINK_OUT: Qd = Qd { port: 4, queue: 0 };

// What an operation came to that gives no bytes.
#[derive(Clone, Copy, Debug, PartialEq, Eq, Drop)]
enum Told {
    Opened(u32),
    Double(u64),
    Pushed,
    Appended(u64),
    Halted,
}

fn outcome(rt: &impl Abort, came: QResult<UntilZero>) -> Told {
    match came {
        QResult::Mem(MemOut::Opened(queue)) => Told::Opened(queue),
        QResult::Service(double) => Told::Double(double),
        QResult::Mem(MemOut::Pushed) => Told::Pushed,
        QResult::Tx(TxOut::Pushed) => Told::Pushed,
        QResult::Log(LogOut::Appended(index)) => Told::Appended(index),
        QResult::Mem(MemOut::Halted) => Told::Halted,
        QResult::Log(LogOut::Halted) => Told::Halted,
        QResult::Rx(RxOut::Halted) => Told::Halted,
        QResult::Tx(TxOut::Halted) => Told::Halted,
        _ => panic!(rt; "it is none of these"),
    }
}

// The outcomes are just these.
fn all_told(rt: &impl Abort, mut results: Came, want: &[Told]) {
    assert_eq!(rt; results.len(), want.len());
    while let Some((_, came)) = results.pop() {
        let i = results.len();
        assert_eq!(rt; Some(&outcome(rt, came)), want.get(i));
    }
    results.destroy_empty();
}

// Waits for the one of two that comes first, and then for the other.
fn both_told<R: Wait + Abort>(
    rt: &R,
    demi: &Demi<UntilZero>,
    caller: &mut Caller<UntilZero>,
    one: QToken,
    other: QToken,
) -> (Told, Told)
    requires { Owes demi.now 0 (one ∷ other ∷ []) caller.old }
    ensures { Owes demi.now 0 [] caller.new }
{
    let tokens = [one, other];
    let (i, first) = one_came(rt, demi, caller, &tokens);
    match i {
        0 => {
            let last = came(rt, demi, caller, other);
            (outcome(rt, first), outcome(rt, last))
        }
        1 => {
            let last = came(rt, demi, caller, one);
            (outcome(rt, last), outcome(rt, first))
        }
        _ => panic!(rt; "there are two"),
    }
}

// Pushes an array, gives its other half up at once, and waits.
fn pushed<R: Wait + Abort>(
    rt: &R,
    demi: &Demi<UntilZero>,
    caller: &mut Caller<UntilZero>,
    qd: Qd,
    sga: AppSga,
) -> Told
    requires caller { Owes demi.now 0 [] caller.old }
    requires array { AreOf demi.now.heap sga }
    ensures { Owes demi.now 0 [] caller.new }
{
    match demi.push(caller, qd, sga) {
        Ok((token, half)) => {
            demi.sgafree_lent(caller, half);
            outcome(rt, came(rt, demi, caller, token))
        }
        Err(_refused) => panic!(rt; "it is not pushed"),
    }
}

// Pushes one byte.
fn byte_pushed<R: Wait + Abort>(
    rt: &R,
    demi: &Demi<UntilZero>,
    caller: &mut Caller<UntilZero>,
    qd: Qd,
    value: u8,
) -> Told
    requires { Owes demi.now 0 [] caller.old }
    ensures { Owes demi.now 0 [] caller.new }
{
    let sga = byte(rt, demi, caller, value);
    pushed(rt, demi, caller, qd, sga)
}

// Pops a piece from the link, and pushes it back as it is.
fn echoed<R: Wait + Abort>(rt: &R, demi: &Demi<UntilZero>, caller: &mut Caller<UntilZero>) -> Told
    requires { Owes demi.now 0 [] caller.old }
    ensures { Owes demi.now 0 [] caller.new }
{
    let token = popped(rt, demi, caller, LINK_IN);
    match came(rt, demi, caller, token) {
        QResult::Rx(RxOut::Piece(piece)) => pushed(rt, demi, caller, LINK_OUT, AppSga::of(piece)),
        _ => panic!(rt; "it is no piece"),
    }
}

// Stops the ports that no other caller uses.
fn own_stopped<R: Wait + Abort>(
    rt: &R,
    alloc: Global,
    demi: &Demi<UntilZero>,
    caller: &mut Caller<UntilZero>,
)
    requires { Owes demi.now 0 [] caller.old }
    ensures { Owes demi.now 0 [] caller.new }
{
    let log = stopped(rt, demi, caller, LOG.port);
    let link_in = stopped(rt, demi, caller, LINK_IN.port);
    let link_out = stopped(rt, demi, caller, LINK_OUT.port);
    let tokens = [link_out, link_in, log];
    let results = all_came(rt, alloc, demi, caller, &tokens);
    all_told(rt, results, &[Told::Halted, Told::Halted, Told::Halted]);
}

/// The first caller, which has asked for a queue and for the double of 7.
pub(super) struct First<'d> {
    pub(super) alloc: Global,
    pub(super) demi: &'d Demi<UntilZero>,
    pub(super) caller: Caller<UntilZero>,
    pub(super) opened: QToken,
    pub(super) asked: QToken,
}

impl<'d> First<'d> {
    pub(super) fn caller(self) -> Caller<UntilZero>
        ensures { result ≡ self.entry.caller }
    {
        let First {
            alloc: _,
            demi: _,
            caller,
            opened: _,
            asked: _,
        } = self;
        caller
    }
}

impl<'d> Job for First<'d> {
    ghost ready = { λ f. Owes f.demi.now 0 (f.asked ∷ f.opened ∷ []) f.caller };

    ghost done = { λ f g. Owes f.demi.now 0 [] g.caller };

    fn work<R: Wait + Abort>(&mut self, rt: &R) {
        let demi = self.demi;
        let caller = &mut self.caller;
        let begun = both_told(rt, demi, caller, self.asked, self.opened);
        assert_eq!(rt; begun, (Told::Double(14), Told::Opened(0)));
        assert_eq!(rt; byte_pushed(rt, demi, caller, QUEUE, 5), Told::Pushed);
        assert_eq!(rt; echoed(rt, demi, caller), Told::Pushed);
        assert_eq!(rt; byte_pushed(rt, demi, caller, LOG, 6), Told::Appended(0));
        own_stopped(rt, self.alloc, demi, caller);
    }
}

// Pops from the memory queue. The byte of what comes.
fn byte_popped<R: Wait + Abort>(
    rt: &R,
    demi: &Demi<UntilZero>,
    caller: &mut Caller<UntilZero>,
) -> Option<u8>
    requires { Owes demi.now 1 [] caller.old }
    ensures { Owes demi.now 1 [] caller.new }
{
    let token = popped(rt, demi, caller, QUEUE);
    match came(rt, demi, caller, token) {
        QResult::Mem(MemOut::Item(sga)) => {
            if sga.len() != 1 {
                panic!(rt; "it is not one byte");
            }
            let value = sga.part(0, 1).first().copied();
            demi.sgafree_dev(caller, sga);
            value
        }
        _ => panic!(rt; "it is no array"),
    }
}

// Stops the memory queues and the service.
fn shared_stopped<R: Wait + Abort>(
    rt: &R,
    alloc: Global,
    demi: &Demi<UntilZero>,
    caller: &mut Caller<UntilZero>,
)
    requires { Owes demi.now 1 [] caller.old }
    ensures { Owes demi.now 1 [] caller.new }
{
    let queues = stopped(rt, demi, caller, QUEUE.port);
    let service = asked(rt, demi, caller, 0);
    let tokens = [service, queues];
    let results = all_came(rt, alloc, demi, caller, &tokens);
    all_told(rt, results, &[Told::Double(0), Told::Halted]);
}

/// The second caller, which has learnt what the first had asked. So what it asks stands behind that: its pop finds the queue, and its
/// stop of the service refuses nothing of the first.
pub(super) struct Second<'d> {
    pub(super) alloc: Global,
    pub(super) demi: &'d Demi<UntilZero>,
    pub(super) caller: Caller<UntilZero>,
}

impl<'d> Second<'d> {
    pub(super) fn caller(self) -> Caller<UntilZero>
        ensures { result ≡ self.entry.caller }
    {
        let Second {
            alloc: _,
            demi: _,
            caller,
        } = self;
        caller
    }
}

impl<'d> Job for Second<'d> {
    ghost ready = { λ s. Owes s.demi.now 1 [] s.caller };

    ghost done = { λ s t. Owes s.demi.now 1 [] t.caller };

    fn work<R: Wait + Abort>(&mut self, rt: &R) {
        let demi = self.demi;
        let caller = &mut self.caller;
        assert_eq!(rt; byte_popped(rt, demi, caller), Some(5));
        let token = asked(rt, demi, caller, 21);
        let double = came(rt, demi, caller, token);
        assert_eq!(rt; outcome(rt, double), Told::Double(42));
        shared_stopped(rt, self.alloc, demi, caller);
    }
}
