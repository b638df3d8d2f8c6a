//! The engine of the tests' device.
ghost use Rattle.std.specs.Prelude.{◌≡◌, ◌++◌, [], ◌∷◌, true};
ghost use Rattle.demi_device.specs.Doubling.{doubled};

use demi_core::NoMemory;
use demi_device::{Done, Engine, Mark};
use demi_port_core::{Doubles, Place};
use std::collections::LinkedList;
use std::sync::Wait;

/// It answers each number by its double, at once.
#[derive(Drop)]
pub(crate) struct Doubler {
    history: Mark<LinkedList<u32>>,
}

fn no_history() -> Mark<LinkedList<u32>>
    ensures { result.value ≡ [] }
{
    Mark::from(&(), &())
}

fn longer(history: &Mark<LinkedList<u32>>, op: u32) -> Mark<LinkedList<u32>>
    ensures { result.value ≡ history.now.value ++ op ∷ [] }
{
    Mark::from(history, &op)
}

impl Doubler {
    /// It was served nothing.
    pub(crate) fn new() -> Doubler
        ensures { result.history.value ≡ [] }
    {
        Doubler {
            history: no_history(),
        }
    }
}

impl Engine for Doubler {
    type L = Doubles;

    ghost base = { λ _. tt };

    ghost room = { λ _. 64 };

    ghost served = { λ e. e.history.value };

    ghost finished = { λ e. doubled 0 e.history.value };

    ghost goes = { λ _ _. Unit {0} };

    ghost tends = { λ a there b. (there ≡ true) × (b ≡ a) };

    fn serve(&mut self, place: Place, op: u32, done: &mut Done<Doubles>) {
        done.add(place, op as u64 * 2);
        self.history = longer(&self.history, op);
    }

    fn stopped(&self) -> Option<Place> {
        None
    }

    fn tend<R: Wait>(&mut self, _rt: &R) -> Result<(), NoMemory> {
        Ok(())
    }

    ghost goes_self = { λ _. tt };

    ghost goes_on = { λ _ _ _ _ _. tt };
}
