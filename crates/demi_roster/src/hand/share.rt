//! How a worker serves its share of the links.
ghost use Rattle.std.specs.Prelude.{List, ℕ, is_some};
ghost use Rattle.demi_roster.specs.Hands.{ServedShare};
ghost use Rattle.demi_roster.specs.Staging.{IsAtBench};

use crate::bench::Bench;
use arrayvec::ArrayVec;
use demi_crew::serve_links;
use demi_pdpix::{Caller, Demi};
use demi_port_core::QToken;
use demi_sharing::take_up;
use demi_store::StoreLaw;
use demi_worker::Ended;
use std::alloc::Global;
use std::sync::Wait;

/// Takes up the numbers of a share of the links, and serves these until each has ended.
pub(crate) fn serve_share<'h, R: Wait>(
    rt: &R,
    alloc: Global,
    demi: &'h Demi<StoreLaw>,
    number: u8,
    links: u16,
    mut caller: Caller<StoreLaw>,
    opening: Option<QToken>,
    bench: Bench<'h>,
) -> (Caller<StoreLaw>, ArrayVec<Ended, 64>)
    requires { IsAtBench demi.now number links caller opening bench }
    ensures { (numbers : List ℕ) × ServedShare demi.now number (is_some opening) result.0 numbers result.1.items }
{
    let numbers = take_up(rt, demi, &mut caller, number, opening, links);
    serve_links(
        rt,
        alloc,
        demi,
        bench,
        caller,
        number,
        links,
        numbers.as_slice(),
    )
}
