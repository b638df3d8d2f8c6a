//! The calls of a library OS for I/O: what a program sees of queues, arrays and tokens.
//!
//! A `Demi` has one heap and all ports of a program: memory queues, a service of the law `X`, a log's queue where the plan
//! has one, and two ports for each link. Threads share it by `&`, each with a `Caller` of its own, and each port's device has
//! its seat of `Seats`. A call submits an operation to the port that a descriptor names, and answers a token; a call of the
//! wait family redeems it, and gives the operation's place and the outcome that the port's law admits there.
//! The layer above may rely on this: each call says which operation stands where in whose history, what of the caller it
//! changed, and by which cause it was refused; a refused array comes back with its bytes; and `Demi::close` gives the one history
//! of each port, with the operations of each caller at their places, and counts the slots that are still out.
//! Not promised: that an operation is ever served, an order between callers that told each other nothing, and that a token or a
//! slot is free. `make` and `wait_all` alone take memory.
//!
//! A run goes as follows; `tests/whole.rt` is one with two callers, five devices, a log and a link, each in a thread of its own.
//!
//! ```text
//! // Make: the ports stand on the log that is opened before. A caller for each thread, a seat for each device.
//! let (demi, callers, seats) = Demi::<UntilZero>::make::<Brand, Brand>(alloc, plan)?;
//!
//! // What the second caller asks from now on stands behind what the first has asked.
//! let opened = demi.queue(&mut first)?;
//! let (asked, _place) = demi.ask(&mut first, 7)?;
//! demi.learn(&mut second, &mut first);
//!
//! // In threads of their own: the devices, until they are stopped,
//! let engine = MemEngine::make(alloc, demi.heap(), heap_pass, plan.tokens)?;
//! let mut device = Device::make(alloc, engine, seat, plan.tokens)?;
//! device.run(rt, demi.memory());
//!
//! // the first caller,
//! demi.wait_any(rt, &mut first, &[asked, opened]);      // Ready(0, place, Service(14)), or first the queue, Mem(Opened(0))
//! let (token, half) = demi.push(&mut first, Qd { port: 0, queue: 0 }, array)?;
//! demi.sgafree_lent(&mut first, half);                  // the slot is free once the device has ended its half as well
//! demi.wait(rt, &mut first, token);                     // Ready(place, Mem(Pushed))
//! let stop = demi.stop(&mut first, 3)?;                 // and so each port that it alone uses
//! demi.wait_all(rt, alloc, &mut first, &[stop]);        // Halted: what comes behind is refused, and the device ends
//!
//! // and the second.
//! let token = demi.pop(&mut second, Qd { port: 0, queue: 0 }, 4096)?;
//! demi.wait(rt, &mut second, token);                    // Ready(place, Mem(Item(array))): what the first pushed
//! demi.sgafree_dev(&mut second, array);
//!
//! // Once all threads are joined: devices and engines apart, and all is closed. Each operation was redeemed.
//! let (engine, seat) = device.parts();
//! let heap_pass = engine.parts();
//! let end = demi.close(callers, seats);                 // one history for each port; end.heap.free: all slots
//! ```
#![tactic(auto)]

mod all;
mod any;
mod arrays;
mod ask;
mod at;
mod caller;
mod close_queue;
mod closing;
mod dealing;
mod demi;
mod kind;
mod lane;
mod learn;
mod making;
mod opening;
mod outcomes;
mod pairing;
mod plan;
mod pop;
mod ports;
mod push;
mod qd;
mod queue;
mod refusals;
mod returning;
mod scan;
mod seats;
mod seeking;
mod stop;
mod submitting;
#[cfg(test)]
mod tests;
mod trying;
mod waiting;

pub use all::{AllEnd, Halted};
pub use caller::Caller;
pub use demi::Demi;
pub use kind::PortKind;
pub use outcomes::{Answer, Any, QResult};
pub use plan::DemiPlan;
pub use qd::Qd;
pub use refusals::{PopRefused, PushRefused, TokensFullNow};
pub use seats::{DemiEnd, Seats};
