ghost use Rattle.std.specs.Prelude.{◌≡◌, ℕ, ◌+◌, ◌-◌, ◌*◌, ◌<◌, ◌≤◌, length, vec_len, vec_capacity, IfOk};
ghost use denote.RawPtr.{block_ptr, block_of};
ghost use Rattle.demi_buf.specs.Bufs.{carved, superblock_of, number_of, fresh, IsSuperblock, IsRest, size_of};

use crate::buf::Buf;
use crate::cells::{Base, Cells, allocate, deallocate};
use crate::class::Class;
use demi_core::NoMemory;
use std::alloc::Global;
use std::mem::ManuallyDrop;

/// The most buffers of one superblock.
pub const BLOCK_LIMIT: u32 = 64;

/// A superblock: its buffers are carved at once and join at once.
pub struct Block;

impl Block {
    /// `n` buffers, numbered from 0, all of length 0. `NoMemory` where the allocator refused; then nothing is kept.
    /// The vector has room for all of them, also once it is emptied. They lie side by side in one allocation.
    pub fn carve(alloc: Global, class: Class, n: u32) -> Result<Vec<Buf>, NoMemory>
        requires { (1 ≤ n) × (n ≤ BLOCK_LIMIT) }
        ensures bufs { IfOk result (λ v. v.items ≡ carved (superblock_of v.items) class n n) }
        ensures room { IfOk result (λ v. (vec_len v ≡ n) × (n ≤ vec_capacity v)) }
    {
        let Ok(mut bufs) = Vec::with_capacity(alloc, n as usize) else {
            return Err(NoMemory);
        };
        let size = class.size() as usize;
        let Ok((base, cells, deed)) = allocate(&alloc, n as usize * size) else {
            bufs.destroy_empty();
            return Err(NoMemory);
        };
        let deed = deed.located();
        let (row, rest) = cells.cut(size);
        bufs.push_reserved(Buf::new(base, row, Some(deed), class, n, 0));
        carve_rest(&mut bufs, base, rest, class, n);
        Ok(bufs)
    }

    /// Spends all buffers of one superblock, and frees their memory.
    pub fn join(bufs: Vec<Buf>)
        requires { IsSuperblock bufs.items }
    {
        let mut bufs = bufs;
        let alloc = *bufs.allocator();
        let count = bufs.len();
        if count == 0 {
            bufs.destroy_empty();
            return;
        }
        let first = take_out(&mut bufs, count, 0);
        let class = first.class();
        let size = class.size() as usize;
        let (base, row, deed) = first.into_first();
        let whole = join_rest(bufs, row, class, count);
        deallocate(&alloc, base, count * size, whole, deed);
    }
}

// The buffers after the first.
fn carve_rest(bufs: &mut Vec<Buf>, first: Base<u8>, rest: Cells<u8>, class: Class, n: u32)
    requires first { (bufs.old.items ≡ carved (number_of (block_of first.ptr) class) class n 1) × (vec_len bufs.old ≡ 1) × (n ≤ vec_capacity bufs.old) }
    requires memory { (first.ptr ≡ block_ptr (block_of first.ptr) 0) × (rest.at ≡ block_ptr (block_of first.ptr) (size_of class)) × (length rest.slots ≡ (n - 1) * size_of class) }
    requires count { (1 ≤ n) × (n ≤ BLOCK_LIMIT) }
    ensures bufs { bufs.new.items ≡ carved (number_of (block_of first.ptr) class) class n n }
    ensures room { (vec_len bufs.new ≡ n) × (n ≤ vec_capacity bufs.new) }
{
    let size = class.size() as usize;
    let mut rest = rest;
    for slot in 1..n {
        let (buf, left) = carve_one(first, rest, size, class, n, slot);
        rest = left;
        bufs.push_reserved(buf);
    }
    let _empty = unsafe { ManuallyDrop::new_unchecked(rest) };
}

// The buffer with this number, and the memory after it.
fn carve_one(
    first: Base<u8>,
    rest: Cells<u8>,
    size: usize,
    class: Class,
    n: u32,
    slot: u32,
) -> (Buf, Cells<u8>)
    requires memory { (first.ptr ≡ block_ptr (block_of first.ptr) 0) × (rest.at ≡ block_ptr (block_of first.ptr) (slot * size_of class)) × (length rest.slots ≡ (n - slot) * size_of class) }
    requires number { (0 < slot) × (slot < n) × (n ≤ BLOCK_LIMIT) × (size ≡ size_of class) }
    ensures buf { result.0 ≡ fresh (number_of (block_of first.ptr) class) class n slot }
    ensures rest { (result.1.at ≡ block_ptr (block_of first.ptr) ((slot + 1) * size_of class)) × (length result.1.slots ≡ (n - (slot + 1)) * size_of class) }
{
    let base = first.after(slot as usize * size);
    let (row, left) = rest.cut(size);
    (Buf::new(base, row, None, class, n, slot), left)
}

// The buffer with the lowest number that is left.
fn take_out(bufs: &mut Vec<Buf>, count: usize, slot: usize) -> Buf
    requires { (block : ℕ) × IsRest block count slot bufs.old.items × (slot < count) }
    ensures slot { (result.slot ≡ slot) × (result.count ≡ count) }
    ensures rest { (block : ℕ) → IsRest block count slot bufs.old.items → (result.block ≡ block) × IsRest block count (slot + 1) bufs.new.items }
{
    let _ = count;
    let mut i = 0;
    while i < bufs.len() {
        if bufs[i].number() as usize == slot {
            return bufs.swap_remove(i);
        }
        i += 1;
    }
    unreachable!()
}

// Joins the rows of all that are left to the first.
fn join_rest(mut bufs: Vec<Buf>, row: Cells<u8>, class: Class, count: usize) -> Cells<u8>
    requires { (block : ℕ) × IsRest (number_of block class) count 1 bufs.items × (row.at ≡ block_ptr block 0) × (length row.slots ≡ size_of class) × (1 ≤ count) }
    ensures { (result.at ≡ row.at) × (length result.slots ≡ count * size_of class) }
{
    let mut whole = row;
    for slot in 1..count {
        let buf = take_out(&mut bufs, count, slot);
        whole = buf.join_to(whole, class);
    }
    bufs.destroy_empty();
    whole
}
