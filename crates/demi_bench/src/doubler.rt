//! An engine that doubles numbers, and how long its device runs.
ghost use Rattle.std.specs.Prelude.{◌≡◌, ◌+◌, ◌≤◌, ◌++◌, [], ◌∷◌, length, true};
ghost use Rattle.demi_device.specs.Doubling.{doubled};

use crate::idling::Idling;
use demi_core::NoMemory;
use demi_device::{Device, Done, Engine, Mark, Turn};
use demi_port::Port;
use demi_port_core::{Doubles, Place};
use std::collections::LinkedList;
use std::sync::Wait;

/// How many tokens the port has.
pub const TOKENS: u32 = 64;

/// It answers each operation at once.
#[derive(Drop)]
pub struct Doubler {
    history: Mark<LinkedList<u32>>,
}

fn no_history() -> Mark<LinkedList<u32>>
    ensures { result.value ≡ [] }
{
    Mark::from(&(), &())
}

fn longer(history: &Mark<LinkedList<u32>>, op: u32) -> Mark<LinkedList<u32>>
    ensures { result.value ≡ history.now.value ++ op ∷ [] }
{
    Mark::from(history, &op)
}

impl Doubler {
    /// It was served nothing.
    pub fn new() -> Doubler
        ensures { result.history.value ≡ [] }
    {
        Doubler {
            history: no_history(),
        }
    }
}

impl Engine for Doubler {
    type L = Doubles;

    ghost base = { λ _. tt };

    ghost room = { λ _. 64 };

    ghost served = { λ e. e.history.value };

    ghost finished = { λ e. doubled 0 e.history.value };

    ghost goes = { λ _ _. Unit {0} };

    ghost tends = { λ a there b. (there ≡ true) × (b ≡ a) };

    fn serve(&mut self, place: Place, op: u32, done: &mut Done<Doubles>) {
        done.add(place, op as u64 * 2);
        self.history = longer(&self.history, op);
    }

    fn stopped(&self) -> Option<Place> {
        None
    }

    fn tend<R: Wait>(&mut self, _rt: &R) -> Result<(), NoMemory> {
        Ok(())
    }

    ghost goes_self = { λ _. tt };

    ghost goes_on = { λ _ _ _ _ _. tt };
}

/// Turns until so many operations are served, and none that was fetched is left.
pub fn run<R: Wait>(
    rt: &R,
    port: &Port<Doubles>,
    device: &mut Device<Doubler>,
    idling: Idling,
    operations: u64,
)
    requires port { device.old.seat.port ≡ port.now }
    ensures same { (device.new.seat.port ≡ device.old.seat.port) × (device.new.seat.passes ≡ device.old.seat.passes) }
    ensures all { operations + length device.old.engine.history.value ≤ length device.new.engine.history.value }
    ensures none { length device.new.seat.fetched ≡ length device.new.engine.history.value }
{
    let mut served: u64 = 0;
    for _ in rt.forever() {
        if served >= operations && device.waiting() == 0 {
            return;
        }
        match device.turn(port) {
            Turn::Served(more) => served = served.saturating_add(more as u64),
            Turn::Idle | Turn::Ended => idling.rest(rt, port, device),
        }
    }
    unreachable!()
}
