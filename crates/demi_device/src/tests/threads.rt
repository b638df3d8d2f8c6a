//! A device in a thread of its own.
ghost use Rattle.std.specs.Prelude.{◌≡◌, ◌+◌, length};
ghost use Rattle.std.specs.Thread.{IsSend, IsSync};
ghost use Rattle.demi_device.specs.Doubling.{IsAnswered};

use super::doubler::{Doubler, UntilZero};
use super::{ask, end};
use crate::{Device, Engine};
use demi_port::{Port, PortPass, Redeem};
use demi_port_core::Token;
use std::marker::Brand;
use std::process::Abort;
use std::sync::Wait;
use std::test::Fail;
use std::thread::{Threads, join_mut};

// Tries until the outcome is there.
fn wait<R: Wait>(
    rt: &R,
    port: &Port<UntilZero>,
    pass: &mut PortPass<UntilZero>,
    token: Token,
) -> u64
    requires { pass.old.port ≡ port.now }
    ensures same { (pass.new.port ≡ pass.old.port) × (pass.new.number ≡ pass.old.number) }
    ensures one { (pass.new.submitted ≡ pass.old.submitted) × (length pass.new.redeemed ≡ length pass.old.redeemed + 1) }
{
    for _ in rt.forever() {
        match port.try_wait(pass, token) {
            Redeem::Ready(_, out) => return out,
            Redeem::NotYet | Redeem::Spent | Redeem::Unknown => port.park(rt, pass),
        }
    }
    unreachable!()
}

// Asks for the double of 7, and for the end once it is there.
fn call<R: Wait + Abort>(rt: &R, port: &Port<UntilZero>, pass: &mut PortPass<UntilZero>)
    requires { pass.old.port ≡ port.now }
    ensures { IsAnswered 2 pass.old pass.new }
{
    let seven = ask(rt, port, pass, 7);
    if wait(rt, port, pass, seven) != 14 {
        panic!(rt; "it is not the double");
    }
    let stop = ask(rt, port, pass, 0);
    let _zero = wait(rt, port, pass, stop);
}

// A device of any engine that may go to another thread runs in one, beside its caller.
fn run_beside<R: Threads + Wait + Abort + Sync, E: Engine<L = UntilZero> + Send>(
    rt: &R,
    port: &Port<UntilZero>,
    device: &mut Device<E>,
    pass: &mut PortPass<UntilZero>,
)
    requires { (device.old.seat.port ≡ port.now) × (pass.old.port ≡ port.now) }
    ensures device { (device.new.seat.port ≡ device.old.seat.port) × (device.new.seat.passes ≡ device.old.seat.passes) }
    ensures pass { IsAnswered 2 pass.old pass.new }
{
    let mut serves = ||
        requires { IsSync R.row × IsSend E.row × (device.now.seat.port ≡ port.now) }
        ensures { (device.exit.now.seat.port ≡ device.entry.now.seat.port) × (device.exit.now.seat.passes ≡ device.entry.now.seat.passes) }
    { device.run(rt, port) };
    let mut calls = ||
        requires { pass.now.port ≡ port.now }
        ensures { IsAnswered 2 pass.entry.now pass.exit.now }
    { call(rt, port, pass) };
    join_mut(rt, &mut serves, &mut calls);
}

#[test]
fn a_device_runs_in_a_thread_of_its_own(rt: HostRuntime) -> Result<(), Fail> {
    let Ok((port, mut passes, seat)) = Port::<UntilZero>::make::<Brand>(rt.alloc(), 2, 1) else {
        return Err(Fail::from("no memory"));
    };
    let Ok(mut device) = Device::make(rt.alloc(), Doubler::new(), seat, 2) else {
        panic!(rt; "no memory");
    };
    run_beside(&rt, &port, &mut device, &mut passes[0]);
    let tickets = end(&rt, port, device, passes);
    assert_eq!(rt; tickets, 2);
    Ok(())
}
