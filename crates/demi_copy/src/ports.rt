//! The ports of a copy, each on the heap.
ghost use Rattle.std.specs.Prelude.{◌≡◌, IfOk, length};
ghost use Rattle.demi_port.specs.Seen.{IsNewSeat, NewFrom};

use demi_core::NoMemory;
use demi_heap::Heap;
use demi_port::{DeviceSeat, Port, PortPass};
use demi_port_core::Basis;
use demi_streamq::{RxLaw, StreamBase, TxLaw};
use std::alloc::Global;
use std::marker::Brand;

// How many tokens a port has. No more than one is ever in flight.
pub(crate) const TOKENS: u32 = 4;

// A port with its one pass and its device's seat.
type Made<L> = (Port<L>, Vec<PortPass<L>>, DeviceSeat<L>);

fn receiving_at<N: Basis<StreamBase>>(alloc: Global, heap: &Heap) -> Result<Made<RxLaw>, NoMemory>
    requires { N.base ≡ heap.now }
    ensures port { IfOk result (λ m. (m.0.key.base ≡ heap.now) × (m.0.tokens.slots ≡ TOKENS)) }
    ensures passes { IfOk result (λ m. (length m.1.items ≡ 1) × NewFrom m.0 0 m.1.items) }
    ensures seat { IfOk result (λ m. IsNewSeat m.0 1 m.2) }
{
    let _ = heap;
    Port::<RxLaw>::make::<N>(alloc, TOKENS, 1)
}

fn sending_at<N: Basis<StreamBase>>(alloc: Global, heap: &Heap) -> Result<Made<TxLaw>, NoMemory>
    requires { N.base ≡ heap.now }
    ensures port { IfOk result (λ m. (m.0.key.base ≡ heap.now) × (m.0.tokens.slots ≡ TOKENS)) }
    ensures passes { IfOk result (λ m. (length m.1.items ≡ 1) × NewFrom m.0 0 m.1.items) }
    ensures seat { IfOk result (λ m. IsNewSeat m.0 1 m.2) }
{
    let _ = heap;
    Port::<TxLaw>::make::<N>(alloc, TOKENS, 1)
}

// A receiving port on the heap.
pub(crate) fn receiving_port(alloc: Global, heap: &Heap) -> Result<Made<RxLaw>, NoMemory>
    ensures port { IfOk result (λ m. (m.0.key.base ≡ heap.now) × (m.0.tokens.slots ≡ TOKENS)) }
    ensures passes { IfOk result (λ m. (length m.1.items ≡ 1) × NewFrom m.0 0 m.1.items) }
    ensures seat { IfOk result (λ m. IsNewSeat m.0 1 m.2) }
{
    receiving_at::<Brand>(alloc, heap)
}

// A sending port on the heap.
pub(crate) fn sending_port(alloc: Global, heap: &Heap) -> Result<Made<TxLaw>, NoMemory>
    ensures port { IfOk result (λ m. (m.0.key.base ≡ heap.now) × (m.0.tokens.slots ≡ TOKENS)) }
    ensures passes { IfOk result (λ m. (length m.1.items ≡ 1) × NewFrom m.0 0 m.1.items) }
    ensures seat { IfOk result (λ m. IsNewSeat m.0 1 m.2) }
{
    sending_at::<Brand>(alloc, heap)
}
