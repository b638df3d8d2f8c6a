// How a worker takes up links: it pops their numbers from queue 0 of the memory queues.
ghost use Rattle.std.specs.Prelude.{◌≡◌, ◌≢◌, ◌<◌, ◌≤◌, IfSome, IsTrue, [], ◌∷◌, ◌++◌, is_some, length};
ghost use Rattle.std.specs.Int.{w16, from_be_bytes};
ghost use Rattle.arrayvec.specs.ArrayVec.{array_vec_len};
ghost use Rattle.demi_context.specs.ContextPorts.{OwesSame, SameButMemory};
ghost use Rattle.demi_context.specs.Halting.{HasLooked};
ghost use Rattle.demi_link.specs.Sights.{side_of};
ghost use Rattle.demi_memq.specs.declared.op.MemOp.TheVariants.{Pop};
ghost use Rattle.demi_pdpix.specs.Seen.{IsOf};
ghost use Rattle.demi_port_core.specs.History.{Each};
ghost use Rattle.demi_sched.specs.Going.{Differ};
ghost use Rattle.demi_served.specs.Sharing.{number_of};
ghost use Rattle.demi_sga.specs.Arrays.{AreOf};
ghost use Rattle.demi_sharing.specs.Acting.{AreLinks, Began, Gave, PopsOne};
ghost use Rattle.demi_sharing.specs.Dealing.{TakesUp};
ghost use Rattle.demi_sharing.specs.Setting.{IsSetOut};
ghost use Rattle.demi_sharing.specs.Taking.{TookUp};

use crate::dealing::{NUMBERS, deal_out};
use crate::redeeming::redeem;
use arrayvec::ArrayVec;
use demi_context::hold;
use demi_memq::MemOut;
use demi_pdpix::{Caller, Demi};
use demi_port_core::QToken;
use demi_sga::DevSga;
use demi_store::StoreLaw;
use std::sync::Wait;

// The number that two bytes say.
fn link_of(field: &[u8]) -> u16
    requires { length field.now ≡ 2 }
    ensures { result ≡ from_be_bytes w16 field.now }
{
    u16::from_be_bytes([field[0], field[1]])
}

// The number that the array says, where it is of one segment of two bytes.
fn number_in(sga: &DevSga) -> Option<u16>
    ensures { IfSome result (λ n. number_of sga.now ≡ n) }
{
    if sga.segments() != 1 || sga.len() != 2 {
        return None;
    }
    Some(link_of(sga.part(0, 2)))
}

// The number that the array says, which is freed. One that says none is held, and it parks without end.
fn unpack<R: Wait>(rt: &R, demi: &Demi<StoreLaw>, caller: &mut Caller<StoreLaw>, sga: DevSga) -> u16
    requires of { IsOf demi.now caller.old }
    requires array { AreOf demi.now.heap sga }
    ensures of { IsOf demi.now caller.new }
    ensures number { number_of sga ≡ result }
    ensures looked { HasLooked caller.old caller.new }
{
    match number_in(&sga) {
        Some(number) => {
            demi.sgafree_dev(caller, sga);
            number
        }
        None => {
            let _never = hold(rt, demi, caller, sga);
            unreachable!()
        }
    }
}

// Pops from the queue, again until that is taken.
fn give_pop<R: Wait>(rt: &R, demi: &Demi<StoreLaw>, caller: &mut Caller<StoreLaw>) -> QToken
    requires { IsOf demi.now caller.old }
    ensures of { IsOf demi.now caller.new }
    ensures port { result.port ≡ 0 }
    ensures gave { Gave (Pop 0) result.token.0 caller.old caller.new }
{
    for _ in rt.forever() {
        match demi.pop(caller, NUMBERS, 2) {
            Ok(token) => return token,
            Err(_) => demi.park(rt, caller),
        }
    }
    unreachable!()
}

// Pops a number, or learns that the queue is closed.
fn pop_one<R: Wait>(rt: &R, demi: &Demi<StoreLaw>, caller: &mut Caller<StoreLaw>) -> Option<u16>
    requires { IsOf demi.now caller.old }
    ensures of { IsOf demi.now caller.new }
    ensures popped { PopsOne result caller.old caller.new }
{
    let token = give_pop(rt, demi, caller);
    match redeem(rt, demi, caller, token) {
        MemOut::Closed => None,
        MemOut::Item(sga) => Some(unpack(rt, demi, caller, sga)),
        other => {
            let _never = hold(rt, demi, caller, other);
            unreachable!()
        }
    }
}

// Whether this is one more number of a link.
fn is_next(numbers: &ArrayVec<u16, 64>, number: u16, links: u16) -> bool
    ensures { IsTrue result → (number < links) × (array_vec_len numbers.now < links) × Each (λ m. m ≢ number) numbers.now.items }
{
    number < links && numbers.len() < links as usize && !numbers.contains(&number)
}

// Notes one more number of a link. Where it is none it parks without end.
fn note<R: Wait>(
    rt: &R,
    demi: &Demi<StoreLaw>,
    caller: &mut Caller<StoreLaw>,
    links: u16,
    numbers: &mut ArrayVec<u16, 64>,
    number: u16,
)
    requires few { links ≤ 16 }
    requires links { AreLinks links numbers.old.items }
    ensures links { AreLinks links numbers.new.items }
    ensures items { numbers.new.items ≡ numbers.old.items ++ number ∷ [] }
    ensures same { caller.new ≡ caller.old }
{
    if !is_next(numbers, number, links) {
        let _never = hold(rt, demi, caller, ());
        unreachable!()
    }
    numbers.push(number);
}

// Pops numbers until the queue is closed.
fn take_all<R: Wait>(
    rt: &R,
    demi: &Demi<StoreLaw>,
    caller: &mut Caller<StoreLaw>,
    links: u16,
) -> ArrayVec<u16, 64>
    requires of { IsOf demi.now caller.old }
    requires few { links ≤ 16 }
    ensures of { IsOf demi.now caller.new }
    ensures took { TakesUp result.items (side_of caller.old.memory) (side_of caller.new.memory) }
    ensures sides { SameButMemory caller.old caller.new }
    ensures owes { OwesSame caller.old caller.new }
    ensures links { AreLinks links result.items }
{
    let mut numbers: ArrayVec<u16, 64> = ArrayVec::new();
    for _ in rt.forever() {
        match pop_one(rt, demi, caller) {
            Some(number) => note(rt, demi, caller, links, &mut numbers, number),
            None => return numbers,
        }
    }
    unreachable!()
}

// Deals out the links, where this is the first worker, which has asked for the queue.
fn begin<R: Wait>(
    rt: &R,
    demi: &Demi<StoreLaw>,
    caller: &mut Caller<StoreLaw>,
    number: u8,
    opening: Option<QToken>,
    links: u16,
)
    requires { IsSetOut demi.now number opening caller.old }
    ensures { Began demi.now number (is_some opening) links caller.new }
{
    if let Some(token) = opening {
        deal_out(rt, demi, caller, token, links);
    }
}

/// Takes up links of a session, by a worker with this number and caller: it pops their numbers from queue 0 of the memory
/// queues, one at a time, until it is told that the queue is closed, and gives those that it got, in that order. The first
/// worker, which has asked for the queue with this token, deals the numbers out before: it waits for the queue, pushes the
/// number of each link there, in order, as an array of two bytes, big-endian, and closes it.
///
/// Where there is no buffer or no token at the moment it parks and tries again. What cannot come where each worker does just
/// this, as a queue of another number, an array of another size, a number twice or one that is not below `links`, it holds,
/// and parks without end. It is not promised that it returns, nor how many links it gets.
pub fn take_up<R: Wait>(
    rt: &R,
    demi: &Demi<StoreLaw>,
    caller: &mut Caller<StoreLaw>,
    number: u8,
    opening: Option<QToken>,
    links: u16,
) -> ArrayVec<u16, 64>
    requires links { (length demi.now.rx ≡ links) × (length demi.now.tx ≡ links) × (links ≤ 16) }
    requires set_out { IsSetOut demi.now number opening caller.old }
    ensures took { TookUp demi.now number (is_some opening) links result.items caller.new }
    ensures numbers { Differ result.items × (length result.items ≤ links) × Each (λ n. n < links) result.items }
{
    begin(rt, demi, caller, number, opening, links);
    take_all(rt, demi, caller, links)
}
