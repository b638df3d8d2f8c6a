//! What the main thread has: a pass of the heap and one of each port.
ghost use Rattle.std.specs.Prelude.{◌≡◌};
ghost use Rattle.demi_copy.specs.Calm.{IsCalm};

use crate::outcome::Outcome;
use crate::waiting::call;
use demi_heap::{AppBuf, Heap, HeapPass};
use demi_port::{Port, PortPass};
use demi_sga::{AppSga, free_lent, lend};
use demi_streamq::{RxLaw, RxOp, RxOut, TxLaw, TxOp, TxOut};
use std::sync::Wait;

// The passes of the thread that pops and pushes, and how the copy stands.
pub(crate) struct Carrier {
    pub(crate) app: HeapPass,
    pub(crate) pops: PortPass<RxLaw>,
    pub(crate) pushes: PortPass<TxLaw>,
    pub(crate) outcome: Outcome,
}

// Pushes a piece. The half that stays here ends at once, before the push is under way.
pub(crate) fn push<R: Wait>(
    rt: &R,
    heap: &Heap,
    sending: &Port<TxLaw>,
    app: &mut HeapPass,
    pushes: &mut PortPass<TxLaw>,
    piece: AppBuf,
) -> TxOut
    requires heap { (app.old.heap ≡ heap.now) × (piece.heap ≡ heap.now) × (sending.now.key.base ≡ heap.now) }
    requires calm { IsCalm sending.now pushes.old }
    ensures heap { app.new.heap ≡ heap.now }
    ensures calm { IsCalm sending.now pushes.new }
{
    let (half, dev) = lend(heap, app, AppSga::of(piece));
    free_lent(heap, app, half);
    call(rt, sending, pushes, TxOp::Push { sga: dev })
}

// Stops the receiving port.
pub(crate) fn stop_pops<R: Wait>(
    rt: &R,
    heap: &Heap,
    receiving: &Port<RxLaw>,
    app: &mut HeapPass,
    pops: &mut PortPass<RxLaw>,
)
    requires heap { (app.old.heap ≡ heap.now) × (receiving.now.key.base ≡ heap.now) }
    requires calm { IsCalm receiving.now pops.old }
    ensures heap { app.new.heap ≡ heap.now }
    ensures calm { IsCalm receiving.now pops.new }
{
    match call(rt, receiving, pops, RxOp::Stop) {
        RxOut::Piece(piece) => heap.free_app(app, piece),
        RxOut::End
        | RxOut::Fault(_)
        | RxOut::Broken(_)
        | RxOut::NoSlot
        | RxOut::Stopped(_)
        | RxOut::Halted => {}
    }
}

fn let_go(out: TxOut) {
    match out {
        TxOut::Pushed
        | TxOut::Fault(_)
        | TxOut::Broken(_)
        | TxOut::Shut
        | TxOut::Closed
        | TxOut::Stopped(_)
        | TxOut::Halted => {}
    }
}

// Stops the sending port.
pub(crate) fn stop_pushes<R: Wait>(rt: &R, sending: &Port<TxLaw>, pushes: &mut PortPass<TxLaw>)
    requires { IsCalm sending.now pushes.old }
    ensures { IsCalm sending.now pushes.new }
{
    let out = call(rt, sending, pushes, TxOp::Stop);
    let_go(out);
}
