ghost use Rattle.std.specs.Prelude.{◌<◌, ◌≤◌};

use crate::bell::Bell;
use crossbeam_utils::CachePadded;
use demi_core::NoMemory;
use std::alloc::Global;
use std::sync::Wait;
use std::sync::atomic::{AtomicU64, Ordering};

/// How many sleepers may share some bells.
pub const MAX_SLEEPERS: u32 = 64;

/// A bell for each of some sleepers, of which a ring wakes all that sleep: whoever rings does not know for whom there is
/// something to do. One word says who listens, so a ring costs one load where nobody does.
#[derive(Drop)]
pub struct Bells {
    listening: CachePadded<AtomicU64>,
    bells: Vec<Bell>,
}

impl Bells {
    /// Bells for this many sleepers, numbered from 0. Refused for want of memory alone.
    pub fn make(alloc: Global, sleepers: u32) -> Result<Bells, NoMemory>
        requires { sleepers ≤ 64 }
    {
        let mut bells = Vec::with_capacity(alloc, sleepers as usize)?;
        for _ in 0..sleepers {
            bells.push(Bell::new())?;
        }
        Ok(Bells {
            listening: CachePadded::new(AtomicU64::new(0)),
            bells,
        })
    }

    /// Wakes each that sleeps. It is called after something to do was made.
    pub fn ring(&self) {
        if self.listening.load(Ordering::SeqCst) != 0 {
            self.wake();
        }
    }

    // Whoever takes the bit of a listener rings its bell.
    fn wake(&self) {
        let listening = self.listening.swap(0, Ordering::SeqCst);
        for who in 0..MAX_SLEEPERS {
            if listening >> who == 0 {
                return;
            }
            if listening >> who & 1 == 1 {
                self.ring_one(who);
            }
        }
    }

    fn ring_one(&self, who: u32) {
        if let Some(bell) = self.bells.get(who as usize) {
            bell.ring();
        }
    }

    /// As `Bell::listen`, for one of the sleepers. The bell listens before its bit is set, so whoever takes the bit finds
    /// the listener.
    pub fn listen(&self, who: u32)
        requires { who < 64 }
    {
        if let Some(bell) = self.bells.get(who as usize) {
            bell.listen();
        }
        self.listening.fetch_or(1 << who, Ordering::SeqCst);
    }

    /// As `Bell::leave`.
    pub fn leave(&self, who: u32)
        requires { who < 64 }
    {
        self.listening.fetch_and(!(1 << who), Ordering::SeqCst);
        if let Some(bell) = self.bells.get(who as usize) {
            bell.leave();
        }
    }

    /// As `Bell::sleep`. A number that has no bell does not sleep.
    pub fn sleep<R: Wait>(&self, rt: &R, who: u32) {
        if let Some(bell) = self.bells.get(who as usize) {
            bell.sleep(rt);
        }
    }
}
