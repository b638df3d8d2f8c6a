//! What may come by the contracts of calls, and never comes: it is held, and its holder parks without end.
ghost use Rattle.std.specs.Prelude.{◌≡◌};

use demi_memq::MemOut;
use demi_pdpix::{Caller, Demi, QResult};
use demi_store::{Back, StoreLaw, StoreOut};
use demi_streamq::{RxOut, TxOut};
use std::sync::Wait;

/// Holds this, which may be something that cannot be dropped, and parks without end: for what may come by the contracts of calls, and
/// never comes. It does not return.
pub fn hold<R: Wait, T>(
    rt: &R,
    demi: &Demi<StoreLaw>,
    caller: &mut Caller<StoreLaw>,
    _held: T,
) -> u8
    ensures { ⊥ }
{
    for _ in rt.forever() {
        demi.park(rt, caller);
    }
    unreachable!()
}

fn let_go_of_memory<R: Wait>(
    rt: &R,
    demi: &Demi<StoreLaw>,
    caller: &mut Caller<StoreLaw>,
    out: MemOut,
)
    ensures { caller.new ≡ caller.old }
{
    match out {
        MemOut::Item(sga) => {
            let _never = hold(rt, demi, caller, sga);
        }
        MemOut::Opened(_)
        | MemOut::TooMany
        | MemOut::Pushed
        | MemOut::BadQueue
        | MemOut::Shut
        | MemOut::Closed
        | MemOut::QueueFull
        | MemOut::Stopped(_)
        | MemOut::Halted => {}
    }
}

fn let_go_of_store<R: Wait>(
    rt: &R,
    demi: &Demi<StoreLaw>,
    caller: &mut Caller<StoreLaw>,
    out: StoreOut,
)
    ensures { caller.new ≡ caller.old }
{
    let StoreOut { answer: _, back } = out;
    match back {
        Back::Nothing => {}
        Back::Value(sga) => {
            let _never = hold(rt, demi, caller, sga);
        }
        Back::Room(room) => {
            let _never = hold(rt, demi, caller, room);
        }
    }
}

fn let_go_of_rx<R: Wait>(rt: &R, demi: &Demi<StoreLaw>, caller: &mut Caller<StoreLaw>, out: RxOut)
    ensures { caller.new ≡ caller.old }
{
    match out {
        RxOut::Piece(piece) => {
            let _never = hold(rt, demi, caller, piece);
        }
        RxOut::End
        | RxOut::Fault(_)
        | RxOut::Broken(_)
        | RxOut::NoSlot
        | RxOut::Stopped(_)
        | RxOut::Halted => {}
    }
}

fn let_go_of_tx(out: TxOut) {
    match out {
        TxOut::Pushed
        | TxOut::Fault(_)
        | TxOut::Broken(_)
        | TxOut::Shut
        | TxOut::Closed
        | TxOut::Stopped(_)
        | TxOut::Halted => {}
    }
}

// Lets go of the outcome of a stop. One that has an array or a buffer is none, and is held.
pub(crate) fn let_go<R: Wait>(
    rt: &R,
    demi: &Demi<StoreLaw>,
    caller: &mut Caller<StoreLaw>,
    out: QResult<StoreLaw>,
)
    ensures { caller.new ≡ caller.old }
{
    match out {
        QResult::Mem(out) => let_go_of_memory(rt, demi, caller, out),
        QResult::Service(out) => let_go_of_store(rt, demi, caller, out),
        QResult::Rx(out) => let_go_of_rx(rt, demi, caller, out),
        QResult::Tx(out) => let_go_of_tx(out),
        QResult::Log(out) => {
            let _never = hold(rt, demi, caller, out);
        }
    }
}
