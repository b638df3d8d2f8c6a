//! What descriptors refuse, over a whole with one link and without a log.
ghost use Rattle.std.specs.Prelude.{◌≡◌, [], length};
ghost use Rattle.demi_sga.specs.Arrays.{AreOf};
ghost use Rattle.demi_pdpix.specs.Asks.{IfBad};
ghost use Rattle.demi_pdpix.specs.Calls.{OnHeap};
ghost use Rattle.demi_pdpix.specs.Kinds.{kind_of};
ghost use Rattle.demi_pdpix.specs.Owing.{Owes};
ghost use Rattle.demi_pdpix.specs.Seen.{IsOf};
ghost use Rattle.demi_pdpix.specs.declared.kind.PortKind.TheVariants.{Nowhere};

use super::doubler::UntilZero;
use crate::{Answer, Caller, Demi, PopRefused, PushRefused, Qd};
use demi_buf::Class;
use demi_port_core::{QToken, Token};
use demi_sga::AppSga;
use std::process::Abort;

// A call that may be refused.
#[derive(Clone, Copy)]
enum Asks {
    Pop(u16, u32, u32),
    Seek(u64),
    Stop(u16),
}

fn asked(
    demi: &Demi<UntilZero>,
    caller: &mut Caller<UntilZero>,
    call: Asks,
) -> Result<QToken, PopRefused>
    requires { IsOf demi.now caller.old }
    ensures { IfBad result (caller.new ≡ caller.old) }
{
    match call {
        Asks::Pop(port, queue, max) => demi.pop(caller, Qd { port, queue }, max),
        Asks::Seek(index) => demi.seek(caller, index),
        Asks::Stop(port) => demi.stop(caller, port),
    }
}

fn refusal(
    rt: &impl Abort,
    demi: &Demi<UntilZero>,
    caller: &mut Caller<UntilZero>,
    call: Asks,
) -> PopRefused
    requires { IsOf demi.now caller.old }
    ensures { caller.new ≡ caller.old }
{
    match asked(demi, caller, call) {
        Err(PopRefused::BadQd) => PopRefused::BadQd,
        Err(PopRefused::BadSize) => PopRefused::BadSize,
        Ok(_) | Err(PopRefused::TokensFull) => panic!(rt; "it is not refused"),
    }
}

// Each call with the refusal that it has.
fn refusals(rt: &impl Abort, demi: &Demi<UntilZero>, caller: &mut Caller<UntilZero>)
    requires { IsOf demi.now caller.old }
    ensures { caller.new ≡ caller.old }
{
    let rows = [
        (Asks::Pop(2, 0, 1), PopRefused::BadQd),
        (Asks::Pop(4, 0, 1), PopRefused::BadQd),
        (Asks::Pop(9, 0, 1), PopRefused::BadQd),
        (Asks::Pop(1, 0, 1), PopRefused::BadQd),
        (Asks::Pop(3, 0, 0), PopRefused::BadSize),
        (Asks::Pop(3, 0, 4097), PopRefused::BadSize),
        (Asks::Pop(3, 1, 1), PopRefused::BadQd),
        (Asks::Seek(0), PopRefused::BadQd),
        (Asks::Stop(1), PopRefused::BadQd),
    ];
    for (call, why) in rows {
        assert_eq!(rt; refusal(rt, demi, caller, call), why);
    }
}

/// An array of one byte.
pub(super) fn byte(
    rt: &impl Abort,
    demi: &Demi<UntilZero>,
    caller: &mut Caller<UntilZero>,
    value: u8,
) -> AppSga
    requires { IsOf demi.now caller.old }
    ensures of { IsOf demi.now caller.new }
    ensures only { OnHeap caller.old caller.new }
    ensures array { AreOf demi.now.heap result }
{
    let Ok(mut buf) = demi.claim(caller, Class::Small) else {
        panic!(rt; "no slot");
    };
    buf.set_len(1);
    for b in buf.bytes_mut().iter_mut() {
        *b = value;
    }
    AppSga::of(buf)
}

// An array that is pushed to a port that receives comes back.
fn array_comes_back(rt: &impl Abort, demi: &Demi<UntilZero>, caller: &mut Caller<UntilZero>)
    requires { IsOf demi.now caller.old }
    ensures of { IsOf demi.now caller.new }
    ensures only { OnHeap caller.old caller.new }
{
    let sga = byte(rt, demi, caller, 7);
    match demi.push(caller, Qd { port: 3, queue: 0 }, sga) {
        Err(PushRefused::BadQd(back)) => {
            assert_eq!(rt; back.segment(0).first(), Some(&7));
            demi.sgafree(caller, back);
        }
        _ => panic!(rt; "it is not refused"),
    }
}

// A token of a port that is not there.
fn unknown(rt: &impl Abort, demi: &Demi<UntilZero>, caller: &mut Caller<UntilZero>, port: u16)
    requires of { IsOf demi.now caller.old }
    requires port { kind_of demi.now port ≡ Nowhere }
    ensures { caller.new ≡ caller.old }
{
    let token = QToken {
        port,
        token: Token(0),
    };
    match demi.try_wait(caller, token) {
        Answer::Unknown => {}
        _ => panic!(rt; "there is such a port"),
    }
}

/// All that is refused.
pub(super) fn what_is_refused(
    rt: &impl Abort,
    demi: &Demi<UntilZero>,
    caller: &mut Caller<UntilZero>,
)
    requires of { Owes demi.now 0 [] caller.old }
    requires plan { (length demi.now.journal ≡ 0) × (length demi.now.rx ≡ 1) }
    ensures { Owes demi.now 0 [] caller.new }
{
    refusals(rt, demi, caller);
    unknown(rt, demi, caller, 2);
    unknown(rt, demi, caller, 9);
    array_comes_back(rt, demi, caller);
}
