//! A service of the tests: it doubles numbers until a zero comes.
ghost use Rattle.std.specs.Prelude.{◌≡◌, ◌++◌, ◌==◌, [], ◌∷◌, IfNone, IfSome, None, cond, option_map, true};
ghost use Rattle.demi_device.specs.Doubling.{doubled, first_zero};

use demi_core::NoMemory;
use demi_device::{Done, Engine, Mark};
use demi_port_core::{Law, Place};
use std::collections::LinkedList;
use std::sync::Wait;

/// The law by which an operation is a number, whose outcome is twice that number. A zero ends the service.
pub struct UntilZero;

impl Law for UntilZero {
    type Op = u32;

    type Out = u64;

    type Said = u32;

    type Told = ();

    type Base = ();

    ghost said = { λ n. n };

    ghost proper = { λ _ _. Unit {0} };

    ghost told = { λ _. None };

    ghost use Rattle.demi_port_core.specs.Twice.{IsTwice, twice_steady};

    ghost admits = { λ _ h _ p o. IsTwice h p o };

    ghost may_pend = { λ _ _. ⊥ };

    ghost stops = { λ n. n == 0 };

    ghost steady = { λ b h more t later p o x is above. twice_steady h more p o x is };
}

/// It answers at once.
#[derive(Drop)]
pub struct Doubler {
    history: Mark<LinkedList<u32>>,
    stop: Option<Place>,
    ghost stopped: { option_map (λ p. p.0) stop ≡ first_zero history.value },
}

fn no_history() -> Mark<LinkedList<u32>>
    ensures { result.value ≡ [] }
{
    Mark::from(&(), &())
}

fn longer(history: &Mark<LinkedList<u32>>, op: u32) -> Mark<LinkedList<u32>>
    ensures { result.value ≡ history.now.value ++ op ∷ [] }
{
    Mark::from(history, &op)
}

// The first stop, once the operation at the place was served.
fn stop_after(stop: Option<Place>, place: Place, op: u32) -> Option<Place>
    ensures some { IfSome stop (λ p. result ≡ Some p) }
    ensures none { IfNone stop (result ≡ cond (op == 0) (Some place) None) }
{
    match stop {
        Some(at) => Some(at),
        None => { if op == 0 { Some(place) } else { None } }
    }
}

impl Doubler {
    pub fn new() -> Doubler
        ensures { result.history.value ≡ [] }
    {
        Doubler {
            history: no_history(),
            stop: None,
        }
    }
}

impl Engine for Doubler {
    type L = UntilZero;

    ghost base = { λ _. tt };

    ghost room = { λ _. 64 };

    ghost served = { λ e. e.history.value };

    ghost finished = { λ e. doubled 0 e.history.value };

    ghost goes = { λ _ _. Unit {0} };

    ghost tends = { λ a there b. (there ≡ true) × (b ≡ a) };

    fn serve(&mut self, place: Place, op: u32, done: &mut Done<UntilZero>) {
        done.add(place, op as u64 * 2);
        *self = Doubler {
            history: longer(&self.history, op),
            stop: stop_after(self.stop, place, op),
        };
    }

    fn stopped(&self) -> Option<Place> {
        self.stop
    }

    fn tend<R: Wait>(&mut self, _rt: &R) -> Result<(), NoMemory> {
        Ok(())
    }

    ghost goes_self = { λ _. tt };

    ghost goes_on = { λ _ _ _ _ _. tt };
}
