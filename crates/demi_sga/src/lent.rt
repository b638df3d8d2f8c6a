ghost use Rattle.std.specs.Prelude.{◌≡◌, ◌+◌, ◌≤◌, ◌++◌, length};
ghost use Rattle.demi_sga.specs.Arrays.{byte_count};
ghost use Rattle.demi_sga.specs.Rows.{items};

use crate::row::Row;
use demi_heap::{AppBuf, Lent};
use std::marker::Model;

/// A lent array of 1 to 8 segments, of which the first may be taken back already. It must be spent: by a call of this
/// crate, or by `lose`.
pub struct LentSga {
    pub(crate) back: Row<AppBuf>,
    pub(crate) rest: Row<Lent>,
    pub(crate) len: u32,
}

impl Model for LentSga {
    ghost use Rattle.std.specs.Prelude.{◌≡◌, ◌+◌, ◌≤◌, ◌++◌, length};
    ghost use Rattle.demi_sga.specs.Arrays.{LentValue, byte_count};
    ghost use Rattle.demi_sga.specs.Rows.{items};

    ghost Value = { LentValue };

    ghost view = { λ s. record { segments = items s.back ++ items s.rest; back = length (items s.back) } };

    ghost invariant = { λ s. (1 ≤ length (items s.back) + length (items s.rest)) × (length (items s.back) + length (items s.rest) ≤ 8) × (s.len ≡ byte_count (items s.back ++ items s.rest)) };
}

/// The device still has a segment. The array comes back, and keeps the segments that were taken back.
pub struct StillHeld(pub LentSga);

impl LentSga {
    /// How many segments it has, with those that were taken back.
    pub fn segments(&self) -> u32
        ensures count { result ≡ length self.now.segments }
        ensures limit { (1 ≤ result) × (result ≤ 8) }
    {
        (self.back.len() + self.rest.len()) as u32
    }

    /// How many bytes all segments have.
    pub fn len(&self) -> u32
        ensures { result ≡ byte_count self.now.segments }
    {
        self.len
    }

    /// Gives it up. Its slots stay owned for good.
    pub fn lose(self) {
        let LentSga { back, rest, len: _ } = self;
        lose_back(back);
        lose_rest(rest);
    }
}

fn lose_back(row: Row<AppBuf>) {
    if row.len() == 0 {
        row.end();
        return;
    }
    let (first, rest) = row.pop();
    first.lose();
    lose_back(rest);
}

fn lose_rest(row: Row<Lent>) {
    if row.len() == 0 {
        row.end();
        return;
    }
    let (first, rest) = row.pop();
    first.lose();
    lose_rest(rest);
}
