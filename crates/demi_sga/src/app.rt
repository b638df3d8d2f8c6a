ghost use Rattle.std.specs.Prelude.{◌≡◌, ◌+◌, ◌*◌, ◌<◌, ◌≤◌, [], ◌∷◌, ◌++◌, length, take, drop, slice_set, IfOk, IfErr};
ghost use Rattle.std.specs.Borrow.{Lends, Array, sem, u8};
ghost use mathlib.Core.Option.{some};
ghost use lib.ListN.{get_elem?};
ghost use Rattle.demi_buf.specs.Bufs.{size_of};
ghost use Rattle.demi_heap.specs.Seen.{HalfValue, HeapId};
ghost use Rattle.demi_sga.specs.Arrays.{AreOf, byte_count, sized, written_at};
ghost use Rattle.demi_sga.specs.Rows.{items};
ghost use Rattle.demi_sga.specs.contracts.app.AppSga.{the_row};

use crate::row::Row;
use demi_heap::AppBuf;
use std::marker::Model;
use std::mem;

/// An application's array of 1 to 8 segments. It must be spent: by a call of this crate, or by `lose`.
/// One segment stands apart between those before it and those after it, so that it can be lent for writing.
pub struct AppSga {
    front: Row<AppBuf>,
    here: AppBuf,
    back: Row<AppBuf>,
}

impl Model for AppSga {
    ghost use Rattle.std.specs.Prelude.{◌≤◌, ◌+◌, ◌∷◌, ◌++◌, List, length};
    ghost use Rattle.demi_heap.specs.Seen.{HalfValue};
    ghost use Rattle.demi_sga.specs.Rows.{items};

    ghost Value = { List HalfValue };

    ghost view = { λ s. items s.front ++ s.here ∷ items s.back };

    ghost invariant = { λ s. length (items s.front) + length (items s.back) ≤ 7 };
}

impl AppSga {
    /// One segment.
    pub fn of(buf: AppBuf) -> AppSga
        ensures { result ≡ buf ∷ [] }
    {
        AppSga {
            front: Row::Empty,
            here: buf,
            back: Row::Empty,
        }
    }

    pub(crate) fn of_row(row: Row<AppBuf>) -> AppSga
        requires { (1 ≤ length (items row)) × (length (items row) ≤ 8) }
        ensures { result ≡ items row }
    {
        let (here, back) = row.pop();
        AppSga {
            front: Row::Empty,
            here,
            back,
        }
    }

    pub(crate) fn into_row(self) -> Row<AppBuf>
        ensures row { items result ≡ self }
        ensures length { (1 ≤ length self) × (length self ≤ 8) }
    {
        let AppSga { front, here, back } = self;
        front.append(back.push(here))
    }

    /// The segments of both in order. Refused exactly where they are more than 8.
    pub fn join(first: AppSga, second: AppSga) -> Result<AppSga, (AppSga, AppSga)>
        ensures ok { IfOk result (λ s. (s ≡ first ++ second) × (length first + length second ≤ 8)) }
        ensures heap { IfOk result (λ s. (h : HeapId) → AreOf h first → AreOf h second → AreOf h s) }
        ensures err { IfErr result (λ p. (p.0 ≡ first) × (p.1 ≡ second) × (8 < length first + length second)) }
    {
        if first.segments() + second.segments() > 8 {
            return Err((first, second));
        }
        let front = first.into_row();
        let back = second.into_row();
        Ok(AppSga::of_row(front.append(back)))
    }

    /// The first `k` segments, and the rest.
    pub fn split(self, k: u32) -> (AppSga, AppSga)
        requires { (1 ≤ k) × (k < length self) }
        ensures parts { (result.0 ≡ take k self) × (result.1 ≡ drop k self) }
        ensures heap { (h : HeapId) → AreOf h self → AreOf h result.0 × AreOf h result.1 }
    {
        let (front, back) = self.into_row().split(k as usize);
        (AppSga::of_row(front), AppSga::of_row(back))
    }

    /// How many segments it has.
    pub fn segments(&self) -> u32
        ensures count { result ≡ length self.now }
        ensures limit { (1 ≤ result) × (result ≤ 8) }
    {
        (self.front.len() + 1 + self.back.len()) as u32
    }

    /// The bytes of one segment.
    pub fn segment(&self, i: u32) -> &[u8]
        requires { i < length self.now }
        ensures { (a : HalfValue) × (get_elem? self.now i ≡ some a) × (result.now ≡ a.bytes) }
    {
        let before = self.front.len();
        let i = i as usize;
        if i < before {
            self.front.at(i).bytes()
        } else if i == before {
            self.here.bytes()
        } else {
            self.back.at(i - before - 1).bytes()
        }
    }

    /// The bytes of one segment, to write.
    pub fn segment_mut(&mut self, i: u32) -> &mut [u8]
        requires { i < length self.old }
        ensures* writes_back { sem 𝓛 (Lends the_row (Array u8 0) self.entry result (written_at i self.old)) }
        ensures value { (a : HalfValue) × (get_elem? self.old i ≡ some a) × (result.now ≡ a.bytes) }
    {
        turn(&mut self.front, &mut self.here, &mut self.back, i as usize);
        self.here.bytes_mut()
    }

    /// How many bytes all segments have.
    pub fn len(&self) -> u32
        ensures bytes { result ≡ byte_count self.now }
        ensures limit { result ≤ 524288 }
    {
        len_of(&self.front) + segment_len(&self.here) + len_of(&self.back)
    }

    /// Sets the length of one segment. Bytes stay up to `n`, and bytes that are added are 0.
    pub fn set_len(&mut self, i: u32, n: u32)
        requires index { i < length self.old }
        requires size { (a : HalfValue) → get_elem? self.old i ≡ some a → n ≤ size_of a.class }
        ensures sized { (a : HalfValue) → get_elem? self.old i ≡ some a → self.new ≡ slice_set self.old i (sized a n) }
        ensures heap { (h : HeapId) → AreOf h self.old → AreOf h self.new }
    {
        turn(&mut self.front, &mut self.here, &mut self.back, i as usize);
        self.here.set_len(n);
    }

    /// Gives it up. Its slots stay owned for good.
    pub fn lose(self) {
        lose_all(self.into_row());
    }
}

// Brings the segment `i` between those before it and those after it.
fn turn(front: &mut Row<AppBuf>, here: &mut AppBuf, back: &mut Row<AppBuf>, i: usize)
    requires { (i ≤ length (items front.old) + length (items back.old)) × (length (items front.old) + length (items back.old) ≤ 7) }
    ensures same { items front.new ++ here.new ∷ items back.new ≡ items front.old ++ here.old ∷ items back.old }
    ensures place { length (items front.new) ≡ i }
{
    let before = mem::replace(front, Row::Empty);
    let after = mem::replace(back, Row::Empty);
    let (before, after) = if before.len() < i {
        let (between, rest) = after.split(i - before.len() - 1);
        let (next, after) = rest.pop();
        let left = mem::replace(here, next);
        (before.append(between.push(left)), after)
    } else if i < before.len() {
        let (before, rest) = before.split(i);
        let (next, between) = rest.pop();
        let left = mem::replace(here, next);
        (before, between.append(after.push(left)))
    } else {
        (before, after)
    };
    mem::replace(front, before).end();
    mem::replace(back, after).end();
}

fn lose_all(row: Row<AppBuf>) {
    if row.len() == 0 {
        row.end();
        return;
    }
    let (first, rest) = row.pop();
    first.lose();
    lose_all(rest);
}

// The length of one segment, which is at most that of the largest class.
fn segment_len(buf: &AppBuf) -> u32
    ensures bytes { result ≡ length buf.now.bytes }
    ensures limit { result ≤ 65536 }
{
    buf.len()
}

fn len_of(row: &Row<AppBuf>) -> u32
    requires { length (items row.now) ≤ 8 }
    ensures bytes { result ≡ byte_count (items row.now) }
    ensures limit { result ≤ 65536 * length (items row.now) }
{
    let mut total = 0u32;
    for i in 0..row.len() {
        total += segment_len(row.at(i));
    }
    total
}
