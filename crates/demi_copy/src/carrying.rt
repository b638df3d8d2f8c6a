//! What the main thread does: pieces from the one port to the other.
ghost use Rattle.std.specs.Prelude.{◌≡◌};
ghost use Rattle.demi_copy.specs.Calm.{IsCalm, IsHeld};

use crate::carrier::{Carrier, push, stop_pops, stop_pushes};
use crate::outcome::Outcome;
use crate::waiting::call;
use demi_heap::{AppBuf, Heap};
use demi_port::Port;
use demi_streamq::{RxLaw, RxOp, RxOut, TxLaw, TxOut};
use std::sync::Wait;

// How many bytes a pop asks for: a page.
const PIECE_BYTES: u32 = 4096;

// Pushes the piece that is left over. How the copy ended, where it did.
fn carry_piece<R: Wait>(
    rt: &R,
    heap: &Heap,
    sending: &Port<TxLaw>,
    carrier: &mut Carrier,
    piece: AppBuf,
) -> Option<Outcome>
    requires heap { (carrier.old.app.heap ≡ heap.now) × (piece.heap ≡ heap.now) × (sending.now.key.base ≡ heap.now) }
    requires calm { IsCalm sending.now carrier.old.pushes }
    ensures heap { carrier.new.app.heap ≡ heap.now }
    ensures calm { IsCalm sending.now carrier.new.pushes }
    ensures same { carrier.new.pops ≡ carrier.old.pops }
{
    match push(
        rt,
        heap,
        sending,
        &mut carrier.app,
        &mut carrier.pushes,
        piece,
    ) {
        TxOut::Pushed => None,
        TxOut::Fault(_) => Some(Outcome::WriteFault),
        TxOut::Broken(_) => Some(Outcome::Refused),
        TxOut::Shut => Some(Outcome::Refused),
        TxOut::Closed => Some(Outcome::Refused),
        TxOut::Stopped(_) => Some(Outcome::Refused),
        TxOut::Halted => Some(Outcome::Refused),
    }
}

// One piece from the one port to the other. How the copy ended, where it did. Where no page was free, the next pop tries again.
fn carry_one<R: Wait>(
    rt: &R,
    heap: &Heap,
    receiving: &Port<RxLaw>,
    sending: &Port<TxLaw>,
    carrier: &mut Carrier,
) -> Option<Outcome>
    requires { IsHeld heap.now receiving.now sending.now carrier.old }
    ensures { IsHeld heap.now receiving.now sending.now carrier.new }
{
    match call(
        rt,
        receiving,
        &mut carrier.pops,
        RxOp::Pop { max: PIECE_BYTES },
    ) {
        RxOut::Piece(piece) => carry_piece(rt, heap, sending, carrier, piece),
        RxOut::NoSlot => None,
        RxOut::End => Some(Outcome::Whole),
        RxOut::Fault(_) => Some(Outcome::ReadFault),
        RxOut::Broken(_) => Some(Outcome::Refused),
        RxOut::Stopped(_) => Some(Outcome::Refused),
        RxOut::Halted => Some(Outcome::Refused),
    }
}

// Pieces until the copy ended.
fn carry_all<R: Wait>(
    rt: &R,
    heap: &Heap,
    receiving: &Port<RxLaw>,
    sending: &Port<TxLaw>,
    carrier: &mut Carrier,
) -> Outcome
    requires { IsHeld heap.now receiving.now sending.now carrier.old }
    ensures { IsHeld heap.now receiving.now sending.now carrier.new }
{
    'carrying: for _ in rt.forever() {
        if let Some(outcome) = carry_one(rt, heap, receiving, sending, carrier) {
            return outcome;
        }
    }
    unreachable!()
}

// Pieces until the copy ended, and then a stop of each port.
pub(crate) fn carry<R: Wait>(
    rt: &R,
    heap: &Heap,
    receiving: &Port<RxLaw>,
    sending: &Port<TxLaw>,
    carrier: &mut Carrier,
)
    requires { IsHeld heap.now receiving.now sending.now carrier.old }
    ensures { IsHeld heap.now receiving.now sending.now carrier.new }
{
    carrier.outcome = carry_all(rt, heap, receiving, sending, carrier);
    stop_pops(rt, heap, receiving, &mut carrier.app, &mut carrier.pops);
    stop_pushes(rt, sending, &mut carrier.pushes);
}
