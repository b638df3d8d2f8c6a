//! The devices of a whole with a log and one link, whose outside is in memory.
ghost use Rattle.std.specs.Prelude.{◌≡◌, ◌==◌, ◌≤◌, [], IfErr, IfOk};
ghost use Rattle.demi_port.specs.Seen.{IsNewSeat};
ghost use Rattle.demi_logq.specs.Answers.{is_stop as stops_log};
ghost use Rattle.demi_logq.specs.Engine.{basis_of};
ghost use Rattle.demi_logq.specs.Logged.{IsSound};
ghost use Rattle.demi_memq.specs.Said.{is_stop as stops_memory};
ghost use Rattle.demi_streamq.specs.Receiving.{is_stop as stops_reading};
ghost use Rattle.demi_streamq.specs.Sending.{is_stop as stops_writing};
ghost use Rattle.demi_pdpix.specs.Home.{IsBack};
ghost use Rattle.demi_pdpix.specs.InTests.{HasServed, IsFit, IsSet};

use super::crew::Station;
use super::doubler::{Doubler, UntilZero};
use demi_core::{Disk, MemDisk, MemSink, MemSource};
use demi_device::{Device, Engine};
use demi_heap::{Heap, HeapPass};
use demi_logq::{Log, LogEngine, LogLaw};
use demi_memq::{MemEngine, MemLaw};
use demi_port::{DeviceSeat, Port};
use demi_streamq::{RxEngine, RxLaw, TxEngine, TxLaw};
use std::alloc::Global;
use std::process::Abort;

/// A seat, with a pass of the heap.
pub(super) type Pair<L> = (DeviceSeat<L>, HeapPass);

// An engine at a port with four tokens. It comes back where memory was refused.
fn station<'p, E: Engine>(
    alloc: Global,
    engine: E,
    seat: DeviceSeat<E::L>,
    port: &'p Port<E::L>,
) -> Result<Station<'p, E>, E>
    requires port { (port.now.tokens.slots ≡ 4) × IsNewSeat port.now 2 seat }
    requires engine { (E.base engine ≡ port.now.key.base) × (E.served engine ≡ []) × (E.finished engine ≡ []) × (4 ≤ E.room engine) }
    ensures set { IfOk result (λ s. IsSet E.base port.now s.device × (s.port.now ≡ port.now)) }
    ensures back { IfErr result (λ e. e ≡ engine) }
{
    match Device::make(alloc, engine, seat, 4) {
        Ok(device) => Ok(Station { device, port }),
        Err((engine, _seat)) => Err(engine),
    }
}

/// The device of the memory queues.
pub(super) fn memory_station<'d>(
    rt: &impl Abort,
    alloc: Global,
    heap: &'d Heap,
    port: &'d Port<MemLaw>,
    pair: Pair<MemLaw>,
) -> Station<'d, MemEngine<'d>>
    requires { IsFit heap.now heap.now port.now pair }
    ensures { IsSet (λ e. e.pass.heap) port.now result.device × (result.port.now ≡ port.now) }
{
    let (seat, pass) = pair;
    let Ok(engine) = MemEngine::make(alloc, heap, pass, 4) else {
        panic!(rt; "no memory");
    };
    match station(alloc, engine, seat, port) {
        Ok(station) => station,
        Err(_engine) => panic!(rt; "no memory"),
    }
}

/// The device of the service.
pub(super) fn service_station<'d>(
    rt: &impl Abort,
    alloc: Global,
    port: &'d Port<UntilZero>,
    seat: DeviceSeat<UntilZero>,
) -> Station<'d, Doubler>
    requires { (port.now.tokens.slots ≡ 4) × IsNewSeat port.now 2 seat }
    ensures { IsSet (λ _. tt) port.now result.device × (result.port.now ≡ port.now) }
{
    match station(alloc, Doubler::new(), seat, port) {
        Ok(station) => station,
        Err(_) => panic!(rt; "no memory"),
    }
}

/// The device of the log's queue.
pub(super) fn journal_station<'d>(
    rt: &impl Abort,
    alloc: Global,
    heap: &'d Heap,
    port: &'d Port<LogLaw>,
    pair: Pair<LogLaw>,
    log: Log<MemDisk>,
) -> Station<'d, LogEngine<'d, MemDisk>>
    requires port { IsFit heap.now (basis_of ⟦<MemDisk as Disk>⟧.bytes log heap.now) port.now pair }
    requires log { IsSound log × (log.staged ≡ []) }
    ensures { IsSet (λ e. e.base) port.now result.device × (result.port.now ≡ port.now) }
{
    let (seat, pass) = pair;
    match LogEngine::make(alloc, log, heap, pass) {
        Ok(engine) => match station(alloc, engine, seat, port) {
            Ok(station) => station,
            Err(_engine) => panic!(rt; "no memory"),
        },
        Err((_log, _pass)) => panic!(rt; "no memory"),
    }
}

/// The device that receives.
pub(super) fn rx_station<'d>(
    rt: &impl Abort,
    alloc: Global,
    heap: &'d Heap,
    port: &'d Port<RxLaw>,
    pair: Pair<RxLaw>,
    source: MemSource,
) -> Station<'d, RxEngine<'d, MemSource>>
    requires { IsFit heap.now heap.now port.now pair }
    ensures { IsSet (λ e. e.pass.heap) port.now result.device × (result.port.now ≡ port.now) }
{
    let (seat, pass) = pair;
    match station(alloc, RxEngine::make(source, heap, pass), seat, port) {
        Ok(station) => station,
        Err(_engine) => panic!(rt; "no memory"),
    }
}

/// The device that sends.
pub(super) fn tx_station<'d>(
    rt: &impl Abort,
    alloc: Global,
    heap: &'d Heap,
    port: &'d Port<TxLaw>,
    pair: Pair<TxLaw>,
    sink: MemSink,
) -> Station<'d, TxEngine<'d, MemSink>>
    requires { IsFit heap.now heap.now port.now pair }
    ensures { IsSet (λ e. e.pass.heap) port.now result.device × (result.port.now ≡ port.now) }
{
    let (seat, pass) = pair;
    match station(alloc, TxEngine::make(sink, heap, pass), seat, port) {
        Ok(station) => station,
        Err(_engine) => panic!(rt; "no memory"),
    }
}

/// What the device of the memory queues had.
pub(super) fn memory_home<'d>(
    heap: &'d Heap,
    port: &'d Port<MemLaw>,
    station: Station<'d, MemEngine<'d>>,
) -> Pair<MemLaw>
    requires port { port.now.key.base ≡ heap.now }
    requires served { HasServed (λ e. e.pass.heap) stops_memory (λ e. e.served) port.now station.device }
    ensures { IsBack heap.now 2 port.now result }
{
    let _ = heap;
    let _ = port;
    let Station { device, port: _ } = station;
    let (engine, seat) = device.parts();
    (seat, engine.parts())
}

/// What the device of the service had.
pub(super) fn service_home<'d>(
    port: &'d Port<UntilZero>,
    station: Station<'d, Doubler>,
) -> DeviceSeat<UntilZero>
    requires { HasServed (λ _. tt) (λ n. n == 0) (λ e. e.history.value) port.now station.device }
    ensures { (result.port ≡ port.now) × (result.passes ≡ 2) }
{
    let _ = port;
    let Station { device, port: _ } = station;
    let (_doubler, seat) = device.parts();
    seat
}

/// What the device of the log's queue had.
pub(super) fn journal_home<'d>(
    heap: &'d Heap,
    port: &'d Port<LogLaw>,
    station: Station<'d, LogEngine<'d, MemDisk>>,
) -> (Pair<LogLaw>, Log<MemDisk>)
    requires port { port.now.key.base.heap ≡ heap.now }
    requires served { HasServed (λ e. e.base) stops_log (λ e. e.served) port.now station.device }
    ensures { IsBack heap.now 2 port.now result.0 }
{
    let _ = heap;
    let _ = port;
    let Station { device, port: _ } = station;
    let (engine, seat) = device.parts();
    let (log, pass) = engine.parts();
    ((seat, pass), log)
}

/// What the device that receives had.
pub(super) fn rx_home<'d>(
    heap: &'d Heap,
    port: &'d Port<RxLaw>,
    station: Station<'d, RxEngine<'d, MemSource>>,
) -> (Pair<RxLaw>, MemSource)
    requires port { port.now.key.base ≡ heap.now }
    requires served { HasServed (λ e. e.pass.heap) stops_reading (λ e. e.served) port.now station.device }
    ensures { IsBack heap.now 2 port.now result.0 }
{
    let _ = heap;
    let _ = port;
    let Station { device, port: _ } = station;
    let (engine, seat) = device.parts();
    let (source, pass) = engine.parts();
    ((seat, pass), source)
}

/// What the device that sends had.
pub(super) fn tx_home<'d>(
    heap: &'d Heap,
    port: &'d Port<TxLaw>,
    station: Station<'d, TxEngine<'d, MemSink>>,
) -> (Pair<TxLaw>, MemSink)
    requires port { port.now.key.base ≡ heap.now }
    requires served { HasServed (λ e. e.pass.heap) stops_writing (λ e. e.served) port.now station.device }
    ensures { IsBack heap.now 2 port.now result.0 }
{
    let _ = heap;
    let _ = port;
    let Station { device, port: _ } = station;
    let (engine, seat) = device.parts();
    let (sink, pass) = engine.parts();
    ((seat, pass), sink)
}
