//! A context scans the ports of its whole.
use super::Context;
use super::notes::{answered, asked_for, nothing_seen, one_seen};
use super::ports::scan_at;
use demi_port_core::{Bits, Mask};
use demi_sched::Scanner;

impl<'h> Scanner for Context<'h> {
    ghost use Rattle.demi_context.specs.ContextLaws.{goes_on, goes_ports, goes_self};
    ghost use Rattle.demi_context.specs.ContextSights.{Goes, ports_of};

    ghost seen = { λ c. c.seen };

    ghost begun = { λ c. c.begun };

    ghost ports = { ports_of };

    ghost goes = { Goes };

    fn begin(&mut self) {
        self.seen = nothing_seen();
        self.begun = self.begun.saturating_add(1);
    }

    /// At port 2, where a whole has no log, nothing is ever found.
    fn scan(&mut self, port: u16, mask: &Mask) -> Bits {
        let demi = self.demi;
        let bits = scan_at(demi, &mut self.caller, port, mask);
        let scan = answered(&asked_for(port, mask), &bits);
        self.seen = one_seen(&self.seen, &scan);
        bits
    }

    ghost goes_self = { goes_self };

    ghost goes_on = { goes_on };

    ghost goes_ports = { goes_ports };
}
