// Laws of what rounds do to a context: functions that do nothing.
ghost use Rattle.std.specs.Prelude.{◌≢◌, ℕ, List};
ghost use Rattle.demi_port_core.specs.History.{Each};
ghost use Rattle.demi_sched.specs.Going.{GoesBy, GoesWithin, names_of, polled_names};
ghost use Rattle.demi_sched.specs.declared.held.Held.{Held};
ghost use Rattle.demi_sched.specs.declared.seen.Seen.{Seen};

use crate::coroutine::Coroutine;
use crate::scanner::Scanner;

/// A coroutine fits each context that the one it fits became by others, however many of their polls and scans that were.
pub fn what_fits_stays_beside_others<C: Scanner, K: Coroutine<C>>()
    ensures { (k : K) (others : List ℕ) (a b : C) → Each (λ n. n ≢ K.name k) others → GoesWithin C.goes others a b → K.fits k a → K.fits k b }
{}

/// A round goes by steps of those that are held, and so do any rounds after each other: a context goes to itself, and where
/// it goes to a second and that one to a third, it goes to the third.
pub fn rounds_go_by_held_names<C: Scanner, K: Coroutine<C>>()
    ensures round { (seen : List Seen) (held : List (Held K)) (a b : C) → GoesBy C.goes (polled_names K.name seen held) a b → GoesWithin C.goes (names_of K.name held) a b }
    ensures none { (names : List ℕ) (a : C) → GoesWithin C.goes names a a }
    ensures on { (names : List ℕ) (a b c : C) → GoesWithin C.goes names a b → GoesWithin C.goes names b c → GoesWithin C.goes names a c }
{}
