//! The calls of arrays and buffers, with the caller's pass of the heap.
ghost use Rattle.std.specs.Prelude.{◌≡◌, ℕ, ◌+◌, ◌<◌, ◌≤◌, ◌↔◌, [], ◌∷◌, ◌++◌, drop, Err, IfErr, IfOk, IsTrue, length, take};
ghost use Rattle.demi_heap.specs.Rule.{end_of, first_of};
ghost use Rattle.demi_heap.specs.Seen.{CameRoundTo, FoundFree, LookedOnce, SawOwned, looked_as, new_half, one_claimed};
ghost use Rattle.demi_sga.specs.Arrays.{AreOf, Claimed, HeldAt, SameSlots, bad_size, class_for, ended_by, returned_by, zeroed};
ghost use Rattle.demi_pdpix.specs.Calls.{OnHeap, having_lent};
ghost use Rattle.demi_pdpix.specs.Seen.{IsOf};

use crate::caller::Caller;
use crate::demi::Demi;
use demi_buf::Class;
use demi_heap::{AppBuf, NoSlot};
use demi_port_core::Law;
use demi_sga::{AppSga, DevSga, LentSga, SgaRefusal, StillHeld};

impl<X: Law> Demi<X> {
    /// An array of one segment of the least class that holds `n` bytes, all 0. `BadSize` exactly where `n` is 0 or above 65,536, and
    /// `NoSlot` only where each slot of that class had an owner at a step of its own in this call.
    pub fn sgaalloc(&self, caller: &mut Caller<X>, n: u32) -> Result<AppSga, SgaRefusal>
        requires { IsOf self.now caller.old }
        ensures of { IsOf self.now caller.new }
        ensures only { OnHeap caller.old caller.new }
        ensures size { IsTrue (bad_size n) ↔ (result ≡ Err SgaRefusal.BadSize) }
        ensures bad { IsTrue (bad_size n) → caller.new ≡ caller.old }
        ensures ok { IfOk result (λ s. (slot : ℕ) × (s ≡ zeroed self.now.heap (class_for n) slot n ∷ []) × Claimed self.now.heap (class_for n) caller.old.heap caller.new.heap slot) }
        ensures none { result ≡ Err SgaRefusal.NoSlot → SawOwned caller.old.heap caller.new.heap (first_of self.now.heap.shape (class_for n)) (end_of self.now.heap.shape (class_for n)) }
        ensures same { result ≡ Err SgaRefusal.NoSlot → caller.new.heap ≡ looked_as caller.old.heap caller.new.heap }
    {
        demi_sga::sgaalloc(&self.heap, &mut caller.heap, n)
    }

    /// Frees each segment.
    pub fn sgafree(&self, caller: &mut Caller<X>, sga: AppSga)
        requires of { IsOf self.now caller.old }
        requires array { AreOf self.now.heap sga }
        ensures of { IsOf self.now caller.new }
        ensures ended { caller.new ≡ record caller.old { heap = ended_by caller.old.heap (length sga) } }
    {
        demi_sga::free_app(&self.heap, &mut caller.heap, sga);
    }

    /// Ends the application half of each segment, also while the device has its half.
    pub fn sgafree_lent(&self, caller: &mut Caller<X>, sga: LentSga)
        requires of { IsOf self.now caller.old }
        requires array { AreOf self.now.heap sga.segments }
        ensures of { IsOf self.now caller.new }
        ensures ended { caller.new ≡ record caller.old { heap = ended_by caller.old.heap (length sga.segments) } }
    {
        demi_sga::free_lent(&self.heap, &mut caller.heap, sga);
    }

    /// Ends the device half of each segment.
    pub fn sgafree_dev(&self, caller: &mut Caller<X>, sga: DevSga)
        requires of { IsOf self.now caller.old }
        requires array { AreOf self.now.heap sga }
        ensures of { IsOf self.now caller.new }
        ensures returned { caller.new ≡ record caller.old { heap = returned_by caller.old.heap (length sga) } }
    {
        demi_sga::release(&self.heap, &mut caller.heap, sga);
    }

    /// Takes the segments back in order, with the bytes that were lent, up to the first that the device still has. `StillHeld` only
    /// where a look of this call found the device half of that segment; a second call goes on there.
    pub fn reclaim(&self, caller: &mut Caller<X>, sga: LentSga) -> Result<AppSga, StillHeld>
        requires of { IsOf self.now caller.old }
        requires array { AreOf self.now.heap sga.segments }
        ensures caller { caller.new ≡ caller.old }
        ensures ok { IfOk result (λ s. s ≡ sga.segments) }
        ensures held { IfErr result (λ e. (sga.back ≤ e.0.back) × (e.0.back < length sga.segments) × HeldAt e.0.back sga.segments e.0.segments) }
        ensures heap { IfErr result (λ e. AreOf self.now.heap e.0.segments) }
    {
        demi_sga::reclaim(&self.heap, &mut caller.heap, sga)
    }

    /// Claims a slot of the class, with length 0: the first that is free on one round through the class. `NoSlot` only where each
    /// slot of the class had an owner at a step of its own in this call, at which it was looked at once.
    pub fn claim(&self, caller: &mut Caller<X>, class: Class) -> Result<AppBuf, NoSlot>
        requires { IsOf self.now caller.old }
        ensures of { IsOf self.now caller.new }
        ensures only { OnHeap caller.old caller.new }
        ensures ok { IfOk result (λ b. b ≡ new_half self.now.heap class b.slot) }
        ensures slot { IfOk result (λ b. (first_of self.now.heap.shape class ≤ b.slot) × (b.slot < end_of self.now.heap.shape class)) }
        ensures skipped { IfOk result (λ b. CameRoundTo caller.old.heap caller.new.heap (first_of self.now.heap.shape class) (end_of self.now.heap.shape class) b.slot) }
        ensures free { IfOk result (λ b. FoundFree (looked_as caller.old.heap caller.new.heap) b.slot) }
        ensures pass { IfOk result (λ _. caller.new.heap ≡ one_claimed (looked_as caller.old.heap caller.new.heap)) }
        ensures owned { IfErr result (λ _. SawOwned caller.old.heap caller.new.heap (first_of self.now.heap.shape class) (end_of self.now.heap.shape class)) }
        ensures once { IfErr result (λ _. LookedOnce caller.old.heap caller.new.heap (first_of self.now.heap.shape class) (end_of self.now.heap.shape class)) }
        ensures same { IfErr result (λ _. caller.new.heap ≡ looked_as caller.old.heap caller.new.heap) }
    {
        self.heap.claim(&mut caller.heap, class)
    }

    /// Both halves of an array, in order: the bytes go with the device half, and the lent half knows them.
    pub fn lend(&self, caller: &mut Caller<X>, sga: AppSga) -> (LentSga, DevSga)
        requires of { IsOf self.now caller.old }
        requires array { AreOf self.now.heap sga }
        ensures of { IsOf self.now caller.new }
        ensures caller { caller.new ≡ having_lent caller.old (length sga) }
        ensures lent { result.0 ≡ record { segments = sga; back = 0 } }
        ensures device { result.1 ≡ sga }
    {
        demi_sga::lend(&self.heap, &mut caller.heap, sga)
    }

    /// Takes an array back with both of its halves, with the bytes that were lent. Where segments were taken back before, their device
    /// halves end.
    pub fn rejoin(&self, caller: &mut Caller<X>, half: LentSga, dev: DevSga) -> AppSga
        requires of { IsOf self.now caller.old }
        requires array { AreOf self.now.heap half.segments × AreOf self.now.heap dev }
        requires slots { SameSlots half.segments dev }
        ensures of { IsOf self.now caller.new }
        ensures caller { caller.new ≡ record caller.old { heap = returned_by caller.old.heap (length dev) } }
        ensures array { result ≡ take half.back half.segments ++ drop half.back dev }
    {
        demi_sga::rejoin(&self.heap, &mut caller.heap, half, dev)
    }
}
