//! A copy over its ports.
ghost use Rattle.std.specs.Prelude.{◌≡◌, IfErr, IfOk, []};
ghost use Rattle.demi_port.specs.Seen.{IsNewSeat};
ghost use Rattle.demi_copy.specs.Calm.{IsHeld};
ghost use Rattle.demi_copy.specs.Geared.{IsHome, IsReady, IsSide};
ghost use Rattle.demi_streamq.specs.Receiving.{is_stop as stops_reading};
ghost use Rattle.demi_streamq.specs.Sending.{is_stop as stops_writing};

use crate::carrier::Carrier;
use crate::crew::run_all;
use crate::gear::Gear;
use crate::ports::TOKENS;
use demi_core::{Sink, Source};
use demi_device::Device;
use demi_heap::Heap;
use demi_port::{DeviceSeat, Port};
use demi_streamq::{RxEngine, RxLaw, TxEngine, TxLaw};
use std::alloc::Global;
use std::sync::Wait;
use std::thread::Threads;

type Receiver<'h, S> = (RxEngine<'h, S>, DeviceSeat<RxLaw>);

type Sender<'h, T> = (TxEngine<'h, T>, DeviceSeat<TxLaw>);

// Runs both devices where there are both, and takes them apart. Where memory was refused for one of them, nothing is run.
fn run_made<'h, R: Threads + Wait + Sync, S: Source + Send, T: Sink + Send>(
    rt: &R,
    heap: &'h Heap,
    receiving: &Port<RxLaw>,
    sending: &Port<TxLaw>,
    rx: Result<Device<RxEngine<'h, S>>, Receiver<'h, S>>,
    tx: Result<Device<TxEngine<'h, T>>, Sender<'h, T>>,
    carrier: &mut Carrier,
) -> (Receiver<'h, S>, Sender<'h, T>)
    requires held { IsHeld heap.now receiving.now sending.now carrier.old }
    requires rx { IfOk rx (λ d. (d.engine.pass.heap ≡ heap.now) × (d.engine.served ≡ []) × IsNewSeat receiving.now 1 d.seat) }
    requires tx { IfOk tx (λ d. (d.engine.pass.heap ≡ heap.now) × (d.engine.served ≡ []) × IsNewSeat sending.now 1 d.seat) }
    requires no_rx { IfErr rx (λ r. (r.0.pass.heap ≡ heap.now) × (r.0.served ≡ []) × IsNewSeat receiving.now 1 r.1) }
    requires no_tx { IfErr tx (λ r. (r.0.pass.heap ≡ heap.now) × (r.0.served ≡ []) × IsNewSeat sending.now 1 r.1) }
    ensures held { IsHeld heap.now receiving.now sending.now carrier.new }
    ensures rx { IsSide heap.now receiving.now stops_reading result.0.0.served result.0.0.pass.heap result.0.1 }
    ensures tx { IsSide heap.now sending.now stops_writing result.1.0.served result.1.0.pass.heap result.1.1 }
{
    match (rx, tx) {
        (Ok(mut rx), Ok(mut tx)) => {
            run_all(rt, heap, receiving, &mut rx, sending, &mut tx, carrier);
            (rx.parts(), tx.parts())
        }
        (Ok(rx), Err(tx)) => (rx.parts(), tx),
        (Err(rx), Ok(tx)) => (rx, tx.parts()),
        (Err(rx), Err(tx)) => (rx, tx),
    }
}

// Makes both devices, runs them, and takes them apart.
pub(crate) fn over_ports<R: Threads + Wait + Sync, S: Source + Send, T: Sink + Send>(
    rt: &R,
    alloc: Global,
    heap: &Heap,
    receiving: &Port<RxLaw>,
    sending: &Port<TxLaw>,
    gear: Gear<S, T>,
) -> Gear<S, T>
    requires { IsReady heap.now receiving.now sending.now gear }
    ensures { IsHome heap.now receiving.now sending.now result }
{
    let Gear {
        source,
        reads,
        seat_in,
        sink,
        writes,
        seat_out,
        mut carrier,
    } = gear;
    let rx = Device::make(alloc, RxEngine::make(source, heap, reads), seat_in, TOKENS);
    let tx = Device::make(alloc, TxEngine::make(sink, heap, writes), seat_out, TOKENS);
    let ((rx, seat_in), (tx, seat_out)) = run_made(
        rt,
        heap,
        receiving,
        sending,
        rx,
        tx,
        &mut carrier,
    );
    let (source, reads) = rx.parts();
    let (sink, writes) = tx.parts();
    Gear {
        source,
        reads,
        seat_in,
        sink,
        writes,
        seat_out,
        carrier,
    }
}
