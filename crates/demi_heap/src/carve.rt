//! The superblocks of a heap: carved into a row of slots, and taken back from it.
ghost use Rattle.std.specs.Prelude.{◌≡◌, ℕ, ◌+◌, ◌<◌, ◌≤◌, [], ◌∷◌, ◌++◌, length, vec_len, vec_capacity, OnOk};
ghost use Rattle.demi_buf.specs.Bufs.{superblock_of};
ghost use Rattle.demi_heap.specs.Rule.{first_of, end_of};
ghost use Rattle.demi_heap.specs.Laid.{HasClasses, IsLaid, IsNewBlock, counts_shape};

use crate::counts::Counts;
use crate::key::Carve;
use demi_buf::{BLOCK_LIMIT, Block, Buf, Class};
use demi_core::NoMemory;
use std::alloc::Global;

// Moves the buffers of a new superblock into the row, and keeps their emptied vector.
fn lay_down(
    carves: &mut Vec<Carve>,
    row: &mut Vec<Option<Buf>>,
    counts: &Counts,
    class: Class,
    mut bufs: Vec<Buf>,
)
    requires room { (vec_len row.old + vec_len bufs ≤ vec_capacity row.old) × (vec_len carves.old < vec_capacity carves.old) }
    requires new { IsNewBlock (superblock_of bufs.items) bufs.items class × (vec_len bufs ≤ vec_capacity bufs) × (1 ≤ vec_len bufs) × (vec_len bufs ≤ BLOCK_LIMIT) }
    requires slots { (first_of (counts_shape counts.now) class ≤ length row.old.items) × (length row.old.items + vec_len bufs ≤ end_of (counts_shape counts.now) class) }
    requires laid { IsLaid carves.old.items row.old.items × HasClasses (counts_shape counts.now) row.old.items }
    ensures laid { IsLaid carves.new.items row.new.items × HasClasses (counts_shape counts.now) row.new.items }
    ensures len { length row.new.items ≡ length row.old.items + vec_len bufs }
{
    let _ = counts;
    let count = bufs.len() as u32;
    let class_of = bufs[0].class();
    let place = bufs[0].place();
    for _ in 0..count {
        let buf = bufs.take_last();
        row.push_reserved(Some(buf));
    }
    carves.push_reserved(Carve {
        count,
        class: class_of,
        place,
        bufs,
    });
}

// One superblock more, for slots of the class.
fn carve_one(
    alloc: Global,
    carves: &mut Vec<Carve>,
    row: &mut Vec<Option<Buf>>,
    counts: &Counts,
    class: Class,
    count: u32,
) -> Result<(), NoMemory>
    requires count { (1 ≤ count) × (count ≤ BLOCK_LIMIT) }
    requires slots { (first_of (counts_shape counts.now) class ≤ length row.old.items) × (length row.old.items + count ≤ end_of (counts_shape counts.now) class) }
    requires laid { IsLaid carves.old.items row.old.items × HasClasses (counts_shape counts.now) row.old.items }
    ensures laid { IsLaid carves.new.items row.new.items × HasClasses (counts_shape counts.now) row.new.items }
    ensures len { OnOk result (length row.new.items ≡ length row.old.items + count) }
{
    let Ok(()) = carves.reserve(1) else {
        return Err(NoMemory);
    };
    let Ok(()) = row.reserve(count as usize) else {
        return Err(NoMemory);
    };
    match Block::carve(alloc, class, count) {
        Ok(bufs) => {
            lay_down(carves, row, counts, class, bufs);
            Ok(())
        }
        Err(e) => Err(e),
    }
}

// Superblocks for all slots of the class, up to `end`.
fn carve_class(
    alloc: Global,
    carves: &mut Vec<Carve>,
    row: &mut Vec<Option<Buf>>,
    counts: &Counts,
    class: Class,
    end: u32,
) -> Result<(), NoMemory>
    requires slots { (first_of (counts_shape counts.now) class ≡ length row.old.items) × (end ≡ end_of (counts_shape counts.now) class) × (length row.old.items ≤ end) }
    requires laid { IsLaid carves.old.items row.old.items × HasClasses (counts_shape counts.now) row.old.items }
    ensures laid { IsLaid carves.new.items row.new.items × HasClasses (counts_shape counts.now) row.new.items }
    ensures len { OnOk result (length row.new.items ≡ end) }
{
    while row.len() < end as usize {
        let left = end - row.len() as u32;
        let count = if left < BLOCK_LIMIT {
            left
        } else {
            BLOCK_LIMIT
        };
        carve_one(alloc, carves, row, counts, class, count)?;
    }
    Ok(())
}

// Superblocks for all slots of a heap.
pub(crate) fn carve_all(
    alloc: Global,
    carves: &mut Vec<Carve>,
    row: &mut Vec<Option<Buf>>,
    counts: &Counts,
) -> Result<(), NoMemory>
    requires counts { (counts.now.small ≤ 4096) × (counts.now.page ≤ 4096) × (counts.now.large ≤ 4096) }
    requires empty { (carves.old.items ≡ []) × (row.old.items ≡ []) }
    ensures laid { IsLaid carves.new.items row.new.items × HasClasses (counts_shape counts.now) row.new.items }
    ensures len { OnOk result (length row.new.items ≡ counts.now.small + counts.now.page + counts.now.large) }
{
    let page = counts.small + counts.page;
    let large = page + counts.large;
    carve_class(alloc, carves, row, counts, Class::Small, counts.small)?;
    carve_class(alloc, carves, row, counts, Class::Page, page)?;
    carve_class(alloc, carves, row, counts, Class::Large, large)
}

// Joins the last superblock of a row again.
fn take_back(carves: &Vec<Carve>, row: &mut Vec<Option<Buf>>, carve: Carve)
    requires { IsLaid (carves.now.items ++ carve ∷ []) row.old.items }
    ensures { IsLaid carves.now.items row.new.items }
{
    let _ = carves;
    let Carve {
        count,
        class: _,
        place: _,
        mut bufs,
    } = carve;
    for _ in 0..count {
        match row.take_last() {
            Some(buf) => bufs.push_reserved(buf),
            None => unreachable!(),
        }
    }
    Block::join(bufs);
}

// Joins all superblocks of a row again.
pub(crate) fn dismantle(mut carves: Vec<Carve>, mut row: Vec<Option<Buf>>)
    requires { IsLaid carves.items row.items }
{
    while let Some(carve) = carves.pop() {
        take_back(&carves, &mut row, carve);
    }
    carves.destroy_empty();
    row.destroy_empty();
}
