ghost use Rattle.std.specs.Prelude.{◌≡◌, ◌+◌, ◌<◌};
ghost use Rattle.demi_bell.specs.Looks.{after_one};

use crate::bells::Bells;
use std::hint::spin_loop;
use std::marker::Model;
use std::sync::Wait;
use std::thread::yield_now;

/// How many looks in a row are made at full speed.
pub const SPINS: u32 = 10;

/// How many looks after these let other threads run in between. With fewer, threads that answer each other within some
/// microseconds fall asleep at each turn.
pub const YIELDS: u32 = 100;

/// How long one of the sleepers has looked in vain: first it spins, then it yields, then it sleeps.
///
/// The look is the caller's own. After each that found nothing it calls `idle`, and after one that found something
/// `busy`. A contract sees whose it is and how many looks in a row were in vain, and not whether its sleeper listens.
/// A patience that is given up while it listens costs a ring a little more, and nothing else.
#[derive(Drop)]
pub struct Patience {
    who: u32,
    looks: u32,
}

impl Model for Patience {
    ghost use Rattle.std.specs.Prelude.{◌<◌, ◌≤◌};
    ghost use Rattle.demi_bell.specs.Looks.{Looks};

    ghost Value = { Looks };

    ghost view = { λ p. record { who = p.who; vain = p.looks } };

    // 111 is one look more than those that spin and yield.
    ghost invariant = { λ p. (p.who < 64) × (p.looks ≤ 111) };
}

impl Patience {
    /// That of the sleeper with this number, who has not looked yet.
    pub fn of(who: u32) -> Patience
        requires { who < 64 }
        ensures { result ≡ record { who = who; vain = 0 } }
    {
        Patience { who, looks: 0 }
    }

    /// After a look that found nothing: it spins, yields, listens, or sleeps until a ring. The caller then looks again.
    pub fn idle<R: Wait>(&mut self, rt: &R, bells: &Bells)
        ensures { self.new ≡ after_one (SPINS + YIELDS) self.old }
    {
        if self.looks < SPINS {
            self.looks += 1;
            spin_loop();
        } else if self.looks < SPINS + YIELDS {
            self.looks += 1;
            yield_now();
        } else if self.looks == SPINS + YIELDS {
            self.looks += 1;
            bells.listen(self.who);
        } else {
            self.looks = 0;
            bells.sleep(rt, self.who);
        }
    }

    /// After a look that found something.
    pub fn busy(&mut self, bells: &Bells)
        ensures { self.new ≡ record { who = self.old.who; vain = 0 } }
    {
        if self.looks > SPINS + YIELDS {
            bells.leave(self.who);
        }
        self.looks = 0;
    }
}
