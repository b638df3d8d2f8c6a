//! What serves operations.
ghost use Rattle.std.specs.Prelude.{◌≡◌, ℕ, ◌+◌, ◌<◌, Bool, List, [], ◌∷◌, ◌++◌, is_ok, length, option_map};
ghost use Rattle.demi_device.specs.Serving.{AllCome, EachMayPend, HasStop, NonePends, first_stop, places, trail};

use crate::done::Done;
use demi_core::NoMemory;
use demi_port_core::{Law, Place};
use std::sync::Wait;

/// What serves the operations of a law, one after another by their places, and adds outcomes when they are there.
///
/// An outcome may be added long after its operation was served, as long as the law says that the operation may pend.
pub trait Engine {
    type L: Law;

    // By what its outcomes are admitted.
    ghost base: { Self → Self.L.Base };

    // How many operations it can hold that are not finished.
    ghost room: { Self → ℕ };

    // What the operations that it served say, by place.
    ghost served: { Self → List Self.L.Said };

    // The outcomes that it added with their places, in their order.
    ghost finished: { Self → List (ℕ × Self.L.Out) };

    // What one engine may become by calls.
    ghost goes: { Self → Self → Type 0 };

    // What a tend does: the engine before it, whether there was memory, and the engine after it.
    ghost tends: { Self → Bool → Self → Type 0 };

    /// Serves the operation of the next place. Each outcome that is now there is added, be it of this operation or of an earlier one.
    fn serve(&mut self, place: Place, op: <Self::L as Law>::Op, done: &mut Done<Self::L>)
        requires next { place.0 ≡ length (served self.old) }
        requires few { length (served self.old) < length (finished self.old) + room self.old }
        requires proper { Self.L.proper (base self.old) (Self.L.said op) }
        requires empty { done.old.added ≡ [] }
        requires holds { length (served self.old) < length (finished self.old) + done.old.room }
        ensures base { base self.new ≡ base self.old }
        ensures room { room self.new ≡ room self.old }
        ensures served { served self.new ≡ served self.old ++ Self.L.said op ∷ [] }
        ensures finished { finished self.new ≡ finished self.old ++ done.new.added }
        ensures comes { AllCome (length (served self.new)) Self.L.told (Self.L.admits (base self.new) (served self.new)) (trail Self.L.told (finished self.old)) (places (finished self.old)) done.new.added }
        ensures pends { EachMayPend (Self.L.may_pend (served self.new)) (length (served self.new)) (places (finished self.new)) }
        ensures ends { HasStop Self.L.stops (served self.new) → NonePends (length (served self.new)) (places (finished self.new)) }
        ensures goes { goes self.old self.new }
        ensures done { done.new.room ≡ done.old.room };

    /// The place of the first stop that was served.
    fn stopped(&self) -> Option<Place>
        ensures { option_map (λ p. p.0) result ≡ first_stop Self.L.stops 0 (served self.now) };

    /// Gives what it has to give to others. Of operations and outcomes nothing changes. It may wait.
    fn tend<R: Wait>(&mut self, rt: &R) -> Result<(), NoMemory>
        ensures tends { tends self.old (is_ok result) self.new }
        ensures base { base self.new ≡ base self.old }
        ensures room { room self.new ≡ room self.old }
        ensures served { served self.new ≡ served self.old }
        ensures finished { finished self.new ≡ finished self.old }
        ensures goes { goes self.old self.new };

    ghost goes_self: { (e : Self) → goes e e };

    ghost goes_on: { (a b c : Self) → goes a b → goes b c → goes a c };
}
