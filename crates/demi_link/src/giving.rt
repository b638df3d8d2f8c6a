//! What a link does with what comes back from the store.
ghost use Rattle.std.specs.Prelude.{◌≡◌, ◌+◌, ◌-◌, ◌≤◌, length};
ghost use Rattle.demi_sga.specs.Arrays.{AreOf, byte_count};
ghost use Rattle.demi_link.specs.Fitting.{body_of};
ghost use Rattle.demi_link.specs.Giving.{IsPaired, RoomHolds, segments_of, where_bytes};

use crate::calls::Calls;
use demi_sga::{AppSga, LentSga};
use demi_store::Back;

// Gives the halves of a value up. Its link is lost.
pub(crate) fn lose_half(half: Option<LentSga>) {
    if let Some(half) = half {
        half.lose();
    }
}

// The value with its halves again, or the room, as an array.
pub(crate) fn taken_back<C: Calls>(
    link: u16,
    half: Option<LentSga>,
    back: Back,
    cx: &mut C,
) -> Option<AppSga>
    requires { IsPaired (C.sight cx.old link).heap half back }
    ensures body { result ≡ segments_of back }
    ensures room { RoomHolds back }
    ensures sight { C.sight cx.new link ≡ C.sight cx.old link }
    ensures events { C.events cx.new ≡ C.events cx.old }
    ensures seen { C.seen cx.new ≡ C.seen cx.old }
    ensures begun { C.begun cx.new ≡ C.begun cx.old }
    ensures goes { C.goes link cx.old cx.new }
{
    match back {
        Back::Nothing => {
            let None = half else { unreachable!() };
            None
        }
        Back::Value(dev) => {
            let Some(half) = half else { unreachable!() };
            Some(cx.rejoin(link, half, dev))
        }
        Back::Room(room) => {
            let None = half else { unreachable!() };
            let _len = room.len();
            Some(AppSga::of(room))
        }
    }
}

// Frees what is not sent.
pub(crate) fn let_go<C: Calls>(link: u16, body: Option<AppSga>, cx: &mut C)
    requires heap { AreOf (C.sight cx.old link).heap (body_of body) }
    requires out { length (body_of body) ≤ (C.sight cx.old link).out }
    ensures sight { C.sight cx.new link ≡ record (C.sight cx.old link) { out = (C.sight cx.old link).out - length (body_of body) } }
    ensures events { C.events cx.new ≡ C.events cx.old }
    ensures seen { C.seen cx.new ≡ C.seen cx.old }
    ensures begun { C.begun cx.new ≡ C.begun cx.old }
    ensures goes { C.goes link cx.old cx.new }
{
    if let Some(sga) = body {
        cx.sgafree(link, sga);
    }
}

// What has bytes to send. It is freed where it has none.
pub(crate) fn with_bytes<C: Calls>(link: u16, body: Option<AppSga>, cx: &mut C) -> Option<AppSga>
    requires heap { AreOf (C.sight cx.old link).heap (body_of body) }
    requires out { (C.sight cx.old link).out ≡ length (body_of body) }
    ensures body { result ≡ where_bytes body }
    ensures sight { C.sight cx.new link ≡ record (C.sight cx.old link) { out = length (body_of (where_bytes body)) } }
    ensures events { C.events cx.new ≡ C.events cx.old }
    ensures seen { C.seen cx.new ≡ C.seen cx.old }
    ensures begun { C.begun cx.new ≡ C.begun cx.old }
    ensures goes { C.goes link cx.old cx.new }
{
    let Some(sga) = body else {
        return None;
    };
    if sga.len() == 0 {
        cx.sgafree(link, sga);
        return None;
    }
    Some(sga)
}

// How many bytes follow the head of a reply.
pub(crate) fn body_len(body: &Option<AppSga>) -> u32
    ensures { result ≡ byte_count (body_of body.now) }
{
    match body {
        Some(sga) => sga.len(),
        None => 0,
    }
}
