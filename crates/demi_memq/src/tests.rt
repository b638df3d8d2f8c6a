mod bench;

ghost use Rattle.std.specs.Prelude.{◌≡◌};

use crate::MemOp;
use bench::{
    Got, answer, answer_four, ask, ask_three, device_on, end, free_at_end, port_on, push,
    push_many, turn, two_passes,
};
use std::test::Fail;

#[test]
fn pops_before_their_pushes(rt: HostRuntime) -> Result<(), Fail> {
    let (heap, mine, mut app) = two_passes(&rt, rt.alloc(), 2);
    let (port, mut passes, seat) = port_on(&rt, rt.alloc(), &heap);
    let mut device = device_on(&rt, rt.alloc(), &heap, mine, seat);
    let pass = &mut passes[0];
    let pop = MemOp::Pop { q: 0 };
    let [queue, first, second] = ask_three(
        &rt,
        &port,
        pass,
        MemOp::Queue,
        pop,
        MemOp::Pop { q: 0 },
    );
    let push_x = push(&rt, &heap, &mut app, &port, pass, 0, 0x78);
    let push_y = push(&rt, &heap, &mut app, &port, pass, 0, 0x79);
    let close = MemOp::Close { q: 0 };
    let [close, third, stop] = ask_three(&rt, &port, pass, close, MemOp::Pop { q: 0 }, MemOp::Stop);
    let _eight = turn(&mut device, &port);
    let pops = [queue, first, second, third];
    let pops = answer_four(&rt, &heap, &mut app, &port, pass, pops);
    let others = [push_x, push_y, close, stop];
    let others = answer_four(&rt, &heap, &mut app, &port, pass, others);
    let mine = end(&rt, &heap, port, device, passes);
    let free = free_at_end(&rt, rt.alloc(), heap, mine, app);
    assert_eq!(rt;
        pops,
        [
            Got::Opened(0),
            Got::Item(0x78),
            Got::Item(0x79),
            Got::Closed
        ]
    );
    assert_eq!(rt; others, [Got::Pushed, Got::Pushed, Got::Shut, Got::Halted]);
    assert_eq!(rt; free, 2);
    Ok(())
}

#[test]
fn a_stop_ends_a_pop_that_waits(rt: HostRuntime) -> Result<(), Fail> {
    let (heap, mine, mut app) = two_passes(&rt, rt.alloc(), 2);
    let (port, mut passes, seat) = port_on(&rt, rt.alloc(), &heap);
    let mut device = device_on(&rt, rt.alloc(), &heap, mine, seat);
    let pass = &mut passes[0];
    let queue = ask(&rt, &port, pass, MemOp::Queue);
    let pop = ask(&rt, &port, pass, MemOp::Pop { q: 0 });
    let stop = ask(&rt, &port, pass, MemOp::Stop);
    let late = push(&rt, &heap, &mut app, &port, pass, 0, 0x78);
    let _four = turn(&mut device, &port);
    let outs = [
        answer(&rt, &heap, &mut app, &port, pass, queue),
        answer(&rt, &heap, &mut app, &port, pass, pop),
        answer(&rt, &heap, &mut app, &port, pass, stop),
        answer(&rt, &heap, &mut app, &port, pass, late),
    ];
    let mine = end(&rt, &heap, port, device, passes);
    let free = free_at_end(&rt, rt.alloc(), heap, mine, app);
    assert_eq!(rt;
        outs,
        [
            Got::Opened(0),
            Got::Stopped(2),
            Got::Halted,
            Got::Stopped(2)
        ]
    );
    assert_eq!(rt; free, 2);
    Ok(())
}

#[test]
fn a_full_queue_takes_a_push_again_after_a_pop(rt: HostRuntime) -> Result<(), Fail> {
    let (heap, mine, mut app) = two_passes(&rt, rt.alloc(), 1026);
    let (port, mut passes, seat) = port_on(&rt, rt.alloc(), &heap);
    let mut device = device_on(&rt, rt.alloc(), &heap, mine, seat);
    let pass = &mut passes[0];
    let queue = ask(&rt, &port, pass, MemOp::Queue);
    let _one = turn(&mut device, &port);
    let opened = answer(&rt, &heap, &mut app, &port, pass, queue);
    let taken = push_many(&rt, &heap, &mut app, &port, pass, &mut device, 1024);
    let beyond = push(&rt, &heap, &mut app, &port, pass, 0, 0x79);
    let pop = ask(&rt, &port, pass, MemOp::Pop { q: 0 });
    let again = push(&rt, &heap, &mut app, &port, pass, 0, 0x7a);
    let stop = ask(&rt, &port, pass, MemOp::Stop);
    let _four = turn(&mut device, &port);
    let outs = [beyond, pop, again, stop];
    let outs = answer_four(&rt, &heap, &mut app, &port, pass, outs);
    let mine = end(&rt, &heap, port, device, passes);
    let free = free_at_end(&rt, rt.alloc(), heap, mine, app);
    assert_eq!(rt; (opened, taken), (Got::Opened(0), 1024));
    assert_eq!(rt;
        outs,
        [Got::QueueFull, Got::Item(0x78), Got::Pushed, Got::Halted]
    );
    assert_eq!(rt; free, 1026);
    Ok(())
}
