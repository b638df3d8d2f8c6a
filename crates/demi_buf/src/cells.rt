//! A block of memory, which is cut into owned extents: rows of places, each of which holds a value or none. All functions
//! with a pointer that is followed are here.
ghost use Rattle.std.specs.Prelude.{◌≡◌, ℕ, ◌+◌, ◌*◌, ◌^◌, ◌<◌, ◌≤◌, ◌++◌, List, Option, Some, None, map, length, take, drop, replicate, slice_set, IfOk, ⊤};
ghost use Rattle.std.specs.Borrow.{sem};
ghost use Rattle.std.specs.Mem.{type_size};
ghost use Rattle.std.specs.Ptr.{ptr_add};
ghost use Rattle.std.specs.Vec.Ownership.{FitsInBlock};
ghost use base.Fml.{ftrue};
ghost use denote.RawPtr.{Ptr, InBlock, count_of};
ghost use Rattle.demi_buf.specs.Places.{IsRun};
ghost use Rattle.demi_buf.specs.Ownership.{cells_own, cells_lent, deed_owns};

use std::alloc::{AllocError, Allocator, Global};
use std::marker::{Model, PhantomData, Send, Sync};
use std::mem::{align_of, size_of};
use std::slice;

// Where an extent begins. It owns nothing.
pub struct Base<T> {
    pub(crate) ptr: *mut T,
}

impl<T> Clone for Base<T> {
    ghost is_clone = { λ x y. y ≡ x };

    ghost is_infallible = { λ _. ⊤ };

    fn clone(&self) -> Result<Base<T>, AllocError> {
        Ok(*self)
    }
}

impl<T> Copy for Base<T> {}

unsafe impl<T> Send for Base<T> {}

unsafe impl<T> Sync for Base<T> {}

// The owner of an extent's places. It takes no space: its holder has the pointer and the count.
pub struct Cells<T> {
    mark: PhantomData<*const T>,
    pub ghost at: { Ptr },
    pub ghost slots: { List (Option T) },
}

impl<T> Model for Cells<T> {
    ghost also_owns = { λ c. cells_own T.row c.at c.slots };

    ghost also_shares = { λ c _ κ. cells_lent T.row c.at c.slots κ };
}

unsafe impl<T: Send> Send for Cells<T> {}

unsafe impl<T: Sync> Sync for Cells<T> {}

// The right to give the block of `len` places at `at` back to `alloc`. It takes no space.
pub struct Deed<T, A: Allocator> {
    mark: PhantomData<*const (T, A)>,
    pub ghost at: { Ptr },
    pub ghost len: { ℕ },
    pub ghost alloc: { A },
}

impl<T, A: Allocator> Model for Deed<T, A> {
    ghost also_owns = { λ d. deed_owns T.row (A.dealloc_token d.alloc) d.at d.len };

    ghost also_shares = { λ _ _ _. ftrue };
}

unsafe impl<T, A: Allocator + Send> Send for Deed<T, A> {}

// A `&` to it holds nothing.
unsafe impl<T, A: Allocator> Sync for Deed<T, A> {}

pub(crate) fn allocate<T, A: Allocator>(
    alloc: &A,
    len: usize,
) -> Result<(Base<T>, Cells<T>, Deed<T, A>), AllocError>
    requires { FitsInBlock T.row len }
    ensures { IfOk result (λ r. (r.1.at ≡ r.0.ptr) × (r.1.slots ≡ replicate len None) × (r.2.at ≡ r.0.ptr) × (r.2.len ≡ len) × (r.2.alloc ≡ alloc.now) × InBlock r.0.ptr) }
{
    match alloc.allocate(len * size_of::<T>(), align_of::<T>()) {
        Ok(block) => {
            let base = Base {
                ptr: block as *mut T,
            };
            Ok((
                base,
                Cells { mark: PhantomData },
                Deed { mark: PhantomData },
            ))
        }
        Err(error) => Err(error),
    }
}

// Gives the whole block back, whatever its places hold.
pub(crate) fn deallocate<T, A: Allocator>(
    alloc: &A,
    base: Base<T>,
    len: usize,
    cells: Cells<T>,
    deed: Deed<T, A>,
)
    requires { (cells.at ≡ base.ptr) × (length cells.slots ≡ len) × (deed.at ≡ base.ptr) × (deed.len ≡ len) × (deed.alloc ≡ alloc.now) }
{
    let Cells { mark: _ } = cells;
    let Deed { mark: _ } = deed;
    unsafe {
        alloc.deallocate(base.ptr as *mut u8, len * size_of::<T>(), align_of::<T>());
    }
}

impl Deed<u8, Global> {
    // A block of `Global` is a whole object.
    pub(crate) fn located(self) -> Deed<u8, Global>
        ensures { (result ≡ self) × (count_of self.at ≡ 0) }
    {
        let Deed { mark } = self;
        Deed { mark }
    }
}

impl<T> Base<T> {
    // Where the extent begins that lies `count` places on.
    pub(crate) fn after(self, count: usize) -> Base<T>
        requires { InBlock self.ptr × (count * type_size T.row < 2 ^ 63) }
        ensures { result.ptr ≡ ptr_add T.row count self.ptr }
    {
        Base {
            ptr: unsafe { self.ptr.add(count) },
        }
    }
}

impl<T> Cells<T> {
    ghost use Rattle.demi_buf.specs.Lends.{lends_run};

    // Cuts the first `_count` places off.
    pub(crate) fn cut(self, _count: usize) -> (Cells<T>, Cells<T>)
        requires { _count ≤ length self.slots }
        ensures { (result.0.at ≡ self.at) × (result.0.slots ≡ take _count self.slots) × (result.1.at ≡ ptr_add T.row _count self.at) × (result.1.slots ≡ drop _count self.slots) }
    {
        let Cells { mark: _ } = self;
        (Cells { mark: PhantomData }, Cells { mark: PhantomData })
    }

    // Joins the places that lie next to these.
    pub(crate) fn join(self, next: Cells<T>) -> Cells<T>
        requires { (next.at ≡ ptr_add T.row (length self.slots) self.at) × ((length self.slots + length next.slots) * type_size T.row < 2 ^ 63) }
        ensures { (result.at ≡ self.at) × (result.slots ≡ self.slots ++ next.slots) }
    {
        let Cells { mark: _ } = self;
        let Cells { mark: _ } = next;
        Cells { mark: PhantomData }
    }

    // Whatever the place holds is forgotten.
    pub(crate) fn write(&mut self, base: Base<T>, index: usize, item: T)
        requires { (base.ptr ≡ self.old.at) × (index < length self.old.slots) }
        ensures { (self.new.at ≡ self.old.at) × (self.new.slots ≡ slice_set self.old.slots index (Some item)) }
    {
        unsafe { base.ptr.add(index).write(item) }
    }

    // The `len` values from `from` on.
    pub(crate) fn slice(&self, base: Base<T>, from: usize, len: usize) -> &[T]
        requires { (base.ptr ≡ self.now.at) × IsRun self.now.slots from len }
        ensures { take len (drop from self.now.slots) ≡ map Some result.now }
    {
        unsafe { slice::from_raw_parts(base.ptr.add(from), len) }
    }

    // The same, to write.
    pub(crate) fn slice_mut(&mut self, base: Base<T>, from: usize, len: usize) -> &mut [T]
        requires { (base.ptr ≡ self.old.at) × IsRun self.old.slots from len }
        ensures* writes_back { sem 𝓛 (lends_run T.row self.entry from len result) }
        ensures value { take len (drop from self.old.slots) ≡ map Some result.now }
    {
        unsafe { slice::from_raw_parts_mut(base.ptr.add(from), len) }
    }
}
