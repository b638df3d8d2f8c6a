// Two threads that hand a turn over and over to each other.
ghost use Rattle.std.specs.Prelude.{◌<◌, ◌≤◌, ◌+◌, ◌*◌, ◌^◌};
ghost use Rattle.std.specs.Thread.{IsSync};

use crate::{Bell, Bells, Patience};
use std::hint::spin_loop;
use std::sync::Wait;
use std::sync::atomic::{AtomicU64, Ordering};
use std::test::Fail;
use std::thread::{Threads, join, yield_now};

// How often each of the two has its turn.
const TURNS: u64 = 500_000;

// A pause of some spins, seldom of many and more seldom of some yields, so that the other one sleeps now and then.
fn pause(seed: u64) -> u64 {
    let next = seed
        .wrapping_mul(6_364_136_223_846_793_005)
        .wrapping_add(1_442_695_040_888_963_407);
    let dice = next >> 48;
    if dice < 64 {
        for _ in 0..200 {
            yield_now();
        }
    } else if dice < 2048 {
        for _ in 0..dice {
            spin_loop();
        }
    } else {
        for _ in 0..dice % 16 {
            spin_loop();
        }
    }
    next
}

fn wait_for<R: Wait>(rt: &R, bells: &Bells, patience: &mut Patience, turn: &AtomicU64, mine: u64) {
    for _ in rt.forever() {
        if turn.load(Ordering::SeqCst) == mine {
            patience.busy(bells);
            return;
        }
        patience.idle(rt, bells);
    }
}

fn take_turns<R: Wait>(rt: &R, bells: &Bells, turn: &AtomicU64, who: u32)
    requires { who < 2 }
{
    let mut patience = Patience::of(who);
    let mut seed = u64::from(who);
    for round in 0..TURNS {
        let mine = round * 2 + u64::from(who);
        wait_for(rt, bells, &mut patience, turn, mine);
        seed = pause(seed);
        turn.store(mine + 1, Ordering::SeqCst);
        bells.ring();
    }
}

fn take_turns_apart<R: Threads + Wait + Sync>(rt: &R, bells: &Bells, turn: &AtomicU64) {
    join(
        rt,
        || take_turns(rt, bells, turn, 0),
        || take_turns(rt, bells, turn, 1),
    );
}

#[test]
fn no_wake_of_two_sleepers_is_lost(rt: HostRuntime) -> Result<(), Fail> {
    let Ok(bells) = Bells::make(rt.alloc(), 2) else {
        return Err(Fail::from("no memory"));
    };
    let turn = AtomicU64::new(0);
    take_turns_apart(&rt, &bells, &turn);
    assert_eq!(rt; turn.load(Ordering::SeqCst), TURNS * 2);
    Ok(())
}

// A look, a few more, and then a sleep at the one bell.
fn sleep_until<R: Wait>(rt: &R, bell: &Bell, turn: &AtomicU64, mine: u64) {
    for _ in rt.forever() {
        for _ in 0..4 {
            if turn.load(Ordering::SeqCst) == mine {
                return;
            }
            spin_loop();
        }
        bell.listen();
        if turn.load(Ordering::SeqCst) == mine {
            bell.leave();
            return;
        }
        bell.sleep(rt);
    }
}

// How often the one at the bell has its turn.
const SLEEPS: u64 = 100_000;

fn sleep_between<R: Wait>(rt: &R, bell: &Bell, turn: &AtomicU64) {
    for round in 0..SLEEPS {
        sleep_until(rt, bell, turn, round * 2 + 1);
        turn.store(round * 2 + 2, Ordering::SeqCst);
    }
}

fn ring_between<R: Wait>(rt: &R, bell: &Bell, turn: &AtomicU64) {
    let mut seed = 7;
    for round in 0..SLEEPS {
        for _ in rt.forever() {
            if turn.load(Ordering::SeqCst) == round * 2 {
                break;
            }
            yield_now();
        }
        seed = pause(seed);
        turn.store(round * 2 + 1, Ordering::SeqCst);
        bell.ring();
    }
}

fn ring_apart<R: Threads + Wait + Sync>(rt: &R, bell: &Bell, turn: &AtomicU64) {
    join(
        rt,
        || sleep_between(rt, bell, turn),
        || ring_between(rt, bell, turn),
    );
}

#[test]
fn no_wake_of_one_sleeper_is_lost(rt: HostRuntime) -> Result<(), Fail> {
    let bell = Bell::new();
    let turn = AtomicU64::new(0);
    ring_apart(&rt, &bell, &turn);
    assert_eq!(rt; turn.load(Ordering::SeqCst), SLEEPS * 2);
    Ok(())
}
