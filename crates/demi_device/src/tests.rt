mod doubler;
mod threads;

ghost use Rattle.std.specs.Prelude.{◌≡◌, ℕ, ◌+◌, ◌<◌, length};
ghost use Rattle.demi_port_core.specs.History.{AnyOf, Each, total};

use crate::{Device, Turn};
use demi_port::{Port, PortPass, Redeem};
use demi_port_core::Token;
use doubler::{Doubler, UntilZero};
use std::marker::Brand;
use std::process::Abort;
use std::test::Fail;

// Submits a number.
fn ask(rt: &impl Abort, port: &Port<UntilZero>, pass: &mut PortPass<UntilZero>, n: u32) -> Token
    requires { pass.old.port ≡ port.now }
    ensures same { (pass.new.port ≡ pass.old.port) × (pass.new.number ≡ pass.old.number) }
    ensures one { (length pass.new.submitted ≡ length pass.old.submitted + 1) × (pass.new.redeemed ≡ pass.old.redeemed) }
{
    match port.submit(pass, n) {
        Ok((token, _)) => token,
        Err(_) => panic!(rt; "no token is free"),
    }
}

// Redeems a token that is done.
fn answer(
    rt: &impl Abort,
    port: &Port<UntilZero>,
    pass: &mut PortPass<UntilZero>,
    token: Token,
) -> u64
    requires { pass.old.port ≡ port.now }
    ensures same { (pass.new.port ≡ pass.old.port) × (pass.new.number ≡ pass.old.number) }
    ensures one { (pass.new.submitted ≡ pass.old.submitted) × (length pass.new.redeemed ≡ length pass.old.redeemed + 1) }
{
    match port.try_wait(pass, token) {
        Redeem::Ready(_, out) => out,
        Redeem::NotYet | Redeem::Spent | Redeem::Unknown => panic!(rt; "it is not done"),
    }
}

// One turn, of which the tests need to know no more than that the port stays.
fn turn(device: &mut Device<Doubler>, port: &Port<UntilZero>) -> Turn
    requires { device.old.seat.port ≡ port.now }
    ensures { (device.new.seat.port ≡ device.old.seat.port) × (device.new.seat.passes ≡ device.old.seat.passes) }
{
    device.turn(port)
}

// The last turn, and the close. It tells how many places were drawn.
fn end(
    rt: &impl Abort,
    port: Port<UntilZero>,
    mut device: Device<Doubler>,
    passes: Vec<PortPass<UntilZero>>,
) -> u64
    requires port { (device.seat.port ≡ port) × Each (λ p. p.port ≡ port) passes.items }
    requires all { (n : ℕ) → n < device.seat.passes → AnyOf (λ p. p.number ≡ n) passes.items }
    requires even { total (λ p. length p.submitted) passes.items ≡ total (λ p. length p.redeemed) passes.items }
{
    let last = device.turn(&port);
    if last != Turn::Ended {
        panic!(rt; "it did not end");
    }
    let (_engine, seat) = device.parts();
    port.close(seat, passes).tickets()
}

#[test]
fn operations_are_served_in_order_until_a_stop(rt: HostRuntime) -> Result<(), Fail> {
    let Ok((port, mut passes, seat)) = Port::<UntilZero>::make::<Brand>(rt.alloc(), 4, 1) else {
        return Err(Fail::from("no memory"));
    };
    let Ok(mut device) = Device::make(rt.alloc(), Doubler::new(), seat, 4) else {
        panic!(rt; "no memory");
    };
    let pass = &mut passes[0];
    let none = turn(&mut device, &port);
    let first = ask(&rt, &port, pass, 7);
    let second = ask(&rt, &port, pass, 8);
    let two = turn(&mut device, &port);
    let tended = device.tend(&rt);
    let stop = ask(&rt, &port, pass, 0);
    let one = turn(&mut device, &port);
    let outs = [
        answer(&rt, &port, pass, first),
        answer(&rt, &port, pass, second),
        answer(&rt, &port, pass, stop),
    ];
    let tickets = end(&rt, port, device, passes);
    assert_eq!(rt; none, Turn::Idle);
    assert_eq!(rt; two, Turn::Served(2));
    assert!(rt; tended.is_ok());
    assert_eq!(rt; one, Turn::Served(1));
    assert_eq!(rt; outs, [14, 16, 0]);
    assert_eq!(rt; tickets, 3);
    Ok(())
}

// The third operation has the second token and the fourth has the first, so the fourth is fetched before the third.
#[test]
fn an_operation_that_came_early_is_kept(rt: HostRuntime) -> Result<(), Fail> {
    let Ok((port, mut passes, seat)) = Port::<UntilZero>::make::<Brand>(rt.alloc(), 3, 1) else {
        return Err(Fail::from("no memory"));
    };
    let Ok(mut device) = Device::make(rt.alloc(), Doubler::new(), seat, 3) else {
        panic!(rt; "no memory");
    };
    let pass = &mut passes[0];
    let first = ask(&rt, &port, pass, 1);
    let second = ask(&rt, &port, pass, 2);
    let _two = turn(&mut device, &port);
    let two = answer(&rt, &port, pass, second);
    let third = ask(&rt, &port, pass, 3);
    let one = answer(&rt, &port, pass, first);
    let fourth = ask(&rt, &port, pass, 4);
    let both = turn(&mut device, &port);
    let three = answer(&rt, &port, pass, third);
    let four = answer(&rt, &port, pass, fourth);
    let stop = ask(&rt, &port, pass, 0);
    let _one = turn(&mut device, &port);
    let zero = answer(&rt, &port, pass, stop);
    let tickets = end(&rt, port, device, passes);
    assert_eq!(rt; both, Turn::Served(2));
    assert_eq!(rt; (third.index(), fourth.index()), (1, 0));
    assert_eq!(rt; [one, two, three, four, zero], [2, 4, 6, 8, 0]);
    assert_eq!(rt; tickets, 5);
    Ok(())
}

#[test]
fn a_device_runs_until_a_stop(rt: HostRuntime) -> Result<(), Fail> {
    let Ok((port, mut passes, seat)) = Port::<UntilZero>::make::<Brand>(rt.alloc(), 2, 1) else {
        return Err(Fail::from("no memory"));
    };
    let Ok(mut device) = Device::make(rt.alloc(), Doubler::new(), seat, 2) else {
        panic!(rt; "no memory");
    };
    let pass = &mut passes[0];
    let first = ask(&rt, &port, pass, 7);
    let stop = ask(&rt, &port, pass, 0);
    device.run(&rt, &port);
    let outs = [
        answer(&rt, &port, pass, first),
        answer(&rt, &port, pass, stop),
    ];
    let tickets = end(&rt, port, device, passes);
    assert_eq!(rt; outs, [14, 0]);
    assert_eq!(rt; tickets, 2);
    Ok(())
}
