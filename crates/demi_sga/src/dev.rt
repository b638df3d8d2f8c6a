ghost use Rattle.std.specs.Prelude.{◌≡◌, ◌+◌, ◌<◌, ◌≤◌, length, take, drop};
ghost use Rattle.demi_heap.specs.Seen.{HeapId};
ghost use Rattle.demi_sga.specs.Arrays.{AreOf, byte_count, part_of};
ghost use Rattle.demi_sga.specs.Rows.{items};

use crate::row::Row;
use demi_heap::DevBuf;
use std::marker::Model;

/// A device's array of 1 to 8 segments, which no call writes. It must be spent: by a call of this crate, or by `lose`.
pub struct DevSga {
    pub(crate) row: Row<DevBuf>,
}

impl Model for DevSga {
    ghost use Rattle.std.specs.Prelude.{◌≤◌, List, length};
    ghost use Rattle.demi_heap.specs.Seen.{HalfValue};
    ghost use Rattle.demi_sga.specs.Rows.{items};

    ghost Value = { List HalfValue };

    ghost view = { λ s. items s.row };

    ghost invariant = { λ s. (1 ≤ length (items s.row)) × (length (items s.row) ≤ 8) };
}

impl DevSga {
    /// How many segments it has.
    pub fn segments(&self) -> u32
        ensures count { result ≡ length self.now }
        ensures limit { (1 ≤ result) × (result ≤ 8) }
    {
        self.row.len() as u32
    }

    /// The first `k` segments, and the rest.
    pub fn split(self, k: u32) -> (DevSga, DevSga)
        requires { (1 ≤ k) × (k < length self) }
        ensures parts { (result.0 ≡ take k self) × (result.1 ≡ drop k self) }
        ensures heap { (h : HeapId) → AreOf h self → AreOf h result.0 × AreOf h result.1 }
    {
        let DevSga { row } = self;
        let (front, back) = row.split(k as usize);
        (DevSga { row: front }, DevSga { row: back })
    }

    /// How many bytes all segments have.
    pub fn len(&self) -> u32
        ensures bytes { result ≡ byte_count self.now }
        ensures limit { result ≤ 524288 }
    {
        len_of(&self.row)
    }

    /// The bytes from `from` on, to the end of their segment, at most `max`.
    pub fn part(&self, from: u32, max: u32) -> &[u8]
        requires { (from < byte_count self.now) × (1 ≤ max) }
        ensures { result.now ≡ part_of self.now from max }
    {
        part_from(&self.row, 0, from as usize, max as usize)
    }

    /// Gives it up. Its slots stay owned for good.
    pub fn lose(self) {
        let DevSga { row } = self;
        lose_all(row);
    }
}

fn lose_all(row: Row<DevBuf>) {
    if row.len() == 0 {
        row.end();
        return;
    }
    let (first, rest) = row.pop();
    first.lose();
    lose_all(rest);
}

// The length of one segment, which is at most that of the largest class.
fn segment_len(buf: &DevBuf) -> u32
    ensures bytes { result ≡ length buf.now.bytes }
    ensures limit { result ≤ 65536 }
{
    buf.len()
}

fn len_of(row: &Row<DevBuf>) -> u32
    requires { length (items row.now) ≤ 8 }
    ensures bytes { result ≡ byte_count (items row.now) }
    ensures limit { result ≤ 524288 }
{
    let mut total = 0u32;
    for i in 0..row.len() {
        total += segment_len(row.at(i));
    }
    total
}

// The bytes from `from` on, which counts from the start of segment `i`.
fn part_from(row: &Row<DevBuf>, i: usize, from: usize, max: usize) -> &[u8]
    requires { (i ≤ length (items row.now)) × (from < byte_count (drop i (items row.now))) × (1 ≤ max) }
    ensures { result.now ≡ part_of (drop i (items row.now)) from max }
{
    if i == row.len() {
        unreachable!()
    }
    let bytes = row.at(i).bytes();
    if from < bytes.len() {
        let left = bytes.len() - from;
        let most = if left < max { left } else { max };
        return &bytes[from..from + most];
    }
    part_from(row, i + 1, from - bytes.len(), max)
}
