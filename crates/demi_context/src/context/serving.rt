//! A context parks, and stops the ports of its links.

use super::Context;
use crate::stopping::stop_link;
use demi_sched::Round;
use demi_worker::Serves;
use std::sync::Wait;

impl<'h> Serves for Context<'h> {
    fn park<R: Wait>(&mut self, rt: &R, _round: &Round) {
        let demi = self.demi;
        demi.park(rt, &mut self.caller);
    }

    fn busy(&mut self) {
        let demi = self.demi;
        demi.busy(&mut self.caller);
    }

    /// A link that is not there is never stopped: the call parks without end.
    fn stop<R: Wait>(&mut self, rt: &R, link: u16) {
        let demi = self.demi;
        stop_link(rt, demi, &mut self.caller, self.links, link);
    }
}
