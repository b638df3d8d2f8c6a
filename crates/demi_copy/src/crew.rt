//! The threads: a device each for the receiving and the sending port, beside the thread that carries.
ghost use Rattle.std.specs.Prelude.{◌≡◌};
ghost use Rattle.std.specs.Thread.{IsSend, IsSync};
ghost use Rattle.demi_copy.specs.Calm.{IsHeld};
ghost use Rattle.demi_copy.specs.Runs.{HasRun};
ghost use Rattle.demi_streamq.specs.Receiving.{is_stop as stops_reading};
ghost use Rattle.demi_streamq.specs.Sending.{is_stop as stops_writing};

use crate::carrier::Carrier;
use crate::carrying::carry;
use demi_device::{Device, Engine};
use demi_heap::Heap;
use demi_port::Port;
use demi_streamq::{RxLaw, TxLaw};
use std::sync::Wait;
use std::thread::{Threads, join_mut};

// The sending device, beside the thread that carries.
fn run_sending<R: Threads + Wait + Sync, O: Engine<L = TxLaw> + Send>(
    rt: &R,
    heap: &Heap,
    receiving: &Port<RxLaw>,
    sending: &Port<TxLaw>,
    tx: &mut Device<O>,
    carrier: &mut Carrier,
)
    requires port { tx.old.seat.port ≡ sending.now }
    requires held { IsHeld heap.now receiving.now sending.now carrier.old }
    ensures device { HasRun O.base stops_writing O.served tx.old tx.new }
    ensures held { IsHeld heap.now receiving.now sending.now carrier.new }
{
    let mut serves = ||
        requires { IsSync R.row × IsSend O.row × (tx.now.seat.port ≡ sending.now) }
        ensures { HasRun O.base stops_writing O.served tx.entry.now tx.exit.now }
    { tx.run(rt, sending) };
    let mut carries = ||
        requires { IsHeld heap.now receiving.now sending.now carrier.now }
        ensures { IsHeld heap.entry.now receiving.entry.now sending.entry.now carrier.exit.now }
    { carry(rt, heap, receiving, sending, carrier) };
    join_mut(rt, &mut serves, &mut carries);
}

// Both devices, beside the thread that carries.
pub(crate) fn run_all<
    R: Threads + Wait + Sync,
    I: Engine<L = RxLaw> + Send,
    O: Engine<L = TxLaw> + Send,
>(
    rt: &R,
    heap: &Heap,
    receiving: &Port<RxLaw>,
    rx: &mut Device<I>,
    sending: &Port<TxLaw>,
    tx: &mut Device<O>,
    carrier: &mut Carrier,
)
    requires port { (rx.old.seat.port ≡ receiving.now) × (tx.old.seat.port ≡ sending.now) }
    requires held { IsHeld heap.now receiving.now sending.now carrier.old }
    ensures rx { HasRun I.base stops_reading I.served rx.old rx.new }
    ensures tx { HasRun O.base stops_writing O.served tx.old tx.new }
    ensures held { IsHeld heap.now receiving.now sending.now carrier.new }
{
    let mut serves = ||
        requires { IsSync R.row × IsSend I.row × (rx.now.seat.port ≡ receiving.now) }
        ensures { HasRun I.base stops_reading I.served rx.entry.now rx.exit.now }
    { rx.run(rt, receiving) };
    let mut others = ||
        requires { IsSync R.row × IsSend O.row × (tx.now.seat.port ≡ sending.now) × IsHeld heap.now receiving.now sending.now carrier.now }
        ensures { HasRun O.base stops_writing O.served tx.entry.now tx.exit.now × IsHeld heap.entry.now receiving.entry.now sending.entry.now carrier.exit.now }
    { run_sending(rt, heap, receiving, sending, tx, carrier) };
    join_mut(rt, &mut serves, &mut others);
}
