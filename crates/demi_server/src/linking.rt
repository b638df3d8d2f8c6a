//! The two devices of one link, from their parts and back.
ghost use Rattle.std.specs.Prelude.{◌≡◌, IfErr, IfOk};
ghost use Rattle.demi_streamq.specs.Receiving.{is_stop as stops_reading};
ghost use Rattle.demi_streamq.specs.Sending.{is_stop as stops_writing};
ghost use Rattle.demi_server.specs.Building.{IsLinkSpent, IsSeated, IsSpent, link_parts_of, new_rx, new_tx};

use crate::parts::{LinkParts, RxSeat, TOKENS, TxSeat};
use crate::station::Station;
use demi_core::{Sink, Source};
use demi_heap::Heap;
use demi_port::Port;
use demi_streamq::{RxEngine, RxLaw, TxEngine, TxLaw};
use demi_work::Both;
use std::alloc::Global;

pub(crate) type Receiving<'h, I> = Station<'h, RxEngine<'h, I>>;

pub(crate) type Sending<'h, O> = Station<'h, TxEngine<'h, O>>;

/// The two devices of one link at their ports.
pub(crate) type LinkStations<'h, I, O> = Both<Receiving<'h, I>, Sending<'h, O>>;

// The receiving side, or its parts.
fn receiving<'h, I: Source>(
    alloc: Global,
    heap: &'h Heap,
    port: &'h Port<RxLaw>,
    input: I,
    seat: RxSeat,
) -> Result<Receiving<'h, I>, (I, RxSeat)>
    requires { IsSeated heap.now port.now TOKENS seat }
    ensures made { IfOk result (λ d. d ≡ new_rx input seat) }
    ensures back { IfErr result (λ r. (r.0 ≡ input) × (r.1 ≡ seat)) }
{
    let (seat, pass) = seat;
    match Station::make(alloc, RxEngine::make(input, heap, pass), seat, port, TOKENS) {
        Ok(station) => Ok(station),
        Err((engine, seat)) => {
            let (input, pass) = engine.parts();
            Err((input, (seat, pass)))
        }
    }
}

// The sending side, or its parts.
fn sending<'h, O: Sink>(
    alloc: Global,
    heap: &'h Heap,
    port: &'h Port<TxLaw>,
    output: O,
    seat: TxSeat,
) -> Result<Sending<'h, O>, (O, TxSeat)>
    requires { IsSeated heap.now port.now TOKENS seat }
    ensures made { IfOk result (λ d. d ≡ new_tx output seat) }
    ensures back { IfErr result (λ r. (r.0 ≡ output) × (r.1 ≡ seat)) }
{
    let (seat, pass) = seat;
    match Station::make(
        alloc,
        TxEngine::make(output, heap, pass),
        seat,
        port,
        TOKENS,
    ) {
        Ok(station) => Ok(station),
        Err((engine, seat)) => {
            let (output, pass) = engine.parts();
            Err((output, (seat, pass)))
        }
    }
}

// The parts of a receiving side.
fn receiving_parts<I: Source>(station: Receiving<I>) -> (I, RxSeat)
    requires { IsSpent stops_reading (λ e. e.served) station }
    ensures { (result.0 ≡ station.entry.engine.source) × (result.1 ≡ (station.entry.seat, station.entry.engine.pass)) }
{
    let (engine, seat) = station.parts();
    let (input, pass) = engine.parts();
    (input, (seat, pass))
}

// The parts of a sending side.
fn sending_parts<O: Sink>(station: Sending<O>) -> (O, TxSeat)
    requires { IsSpent stops_writing (λ e. e.served) station }
    ensures { (result.0 ≡ station.entry.engine.sink) × (result.1 ≡ (station.entry.seat, station.entry.engine.pass)) }
{
    let (engine, seat) = station.parts();
    let (output, pass) = engine.parts();
    (output, (seat, pass))
}

/// The two devices of a link at their ports, or their parts where memory was refused.
pub(crate) fn link_stations<'h, I: Source, O: Sink>(
    alloc: Global,
    heap: &'h Heap,
    receives: &'h Port<RxLaw>,
    sends: &'h Port<TxLaw>,
    parts: LinkParts<I, O>,
) -> Result<LinkStations<'h, I, O>, LinkParts<I, O>>
    requires rx { IsSeated heap.now receives.now TOKENS parts.rx }
    requires tx { IsSeated heap.now sends.now TOKENS parts.tx }
    ensures made { IfOk result (λ d. (d.first ≡ new_rx parts.input parts.rx) × (d.second ≡ new_tx parts.output parts.tx)) }
    ensures back { IfErr result (λ r. r ≡ parts) }
{
    let LinkParts {
        input,
        output,
        rx,
        tx,
    } = parts;
    match receiving(alloc, heap, receives, input, rx) {
        Err((input, rx)) => Err(LinkParts {
            input,
            output,
            rx,
            tx,
        }),
        Ok(first) => match sending(alloc, heap, sends, output, tx) {
            Ok(second) => Ok(Both { first, second }),
            Err((output, tx)) => {
                let (input, rx) = receiving_parts(first);
                Err(LinkParts {
                    input,
                    output,
                    rx,
                    tx,
                })
            }
        },
    }
}

/// The parts of a link's two devices.
pub(crate) fn link_parts<I: Source, O: Sink>(stations: LinkStations<I, O>) -> LinkParts<I, O>
    requires { IsLinkSpent stations }
    ensures { result ≡ link_parts_of stations.entry }
{
    let Both { first, second } = stations;
    let (input, rx) = receiving_parts(first);
    let (output, tx) = sending_parts(second);
    LinkParts {
        input,
        output,
        rx,
        tx,
    }
}
