// The greatest version of each worker's replies with lower sequence numbers.
ghost use Rattle.std.specs.Prelude.{◌≡◌, ◌⊎◌, ◌+◌, ◌<◌, ◌≤◌, ◌^◌, ℕ, List, length, sum, get_or, max, replicate, IfOk};
ghost use Rattle.demi_audit.specs.Turns.{IsPlacing, IsTable, greatest_at, greatest_below, most_before};

use crate::heard::{HeardReply, height};
use crate::places::{Places, WORKERS};
use demi_core::NoMemory;
use std::alloc::Global;

fn greater(a: u64, b: u64) -> u64
    ensures { result ≡ max a b }
{
    if a < b { b } else { a }
}

// A table of so many zeros.
fn zeros(alloc: Global, count: usize) -> Result<Vec<u64>, NoMemory>
    ensures { IfOk result (λ v. v.items ≡ replicate count 0) }
{
    let mut table = Vec::new(alloc);
    table.resize(count, 0)?;
    Ok(table)
}

// The greatest version of the replies with each worker and number.
fn find_greatest(alloc: Global, places: &Places, heard: &[HeardReply]) -> Result<Vec<u64>, NoMemory>
    requires { IsPlacing places.now heard.now }
    ensures size { IfOk result (λ v. length v.items ≡ length heard.now + 256) }
    ensures table { IfOk result (λ v. IsTable places.now (λ w s. greatest_at w s heard.now) v.items) }
{
    let mut greatest = zeros(alloc, heard.len() + WORKERS)?;
    'raising: for reply in heard {
        if let Some(at) = places.place(reply.worker, reply.sequence) {
            greatest[at] = greater(greatest[at], height(reply.kind, reply.version));
        }
    }
    Ok(greatest)
}

// Each of so many numbers becomes the greatest of those before it; the first becomes 0.
fn raise(table: &mut [u64], from: usize, count: usize)
    requires { from + count ≤ length table.old }
    ensures raised { (k : ℕ) (d : ℕ) → k < count → get_or table.new (from + k) d ≡ most_before (λ j. get_or table.old (from + j) 0) k }
    ensures others { (k : ℕ) (d : ℕ) → (k < from) ⊎ (from + count ≤ k) → get_or table.new k d ≡ get_or table.old k d }
{
    let mut most = 0;
    'raising: for k in 0..count {
        let here = table[from + k];
        table[from + k] = most;
        most = greater(most, here);
    }
}

// Does so with the places of each worker.
fn raise_each(places: &Places, table: &mut [u64])
    requires placing { (heard : List HeardReply) × IsPlacing places.now heard × (length table.old ≡ length heard + 256) }
    ensures { (f : ℕ → ℕ → ℕ) → IsTable places.now f table.old → IsTable places.now (λ w s. most_before (f w) s) table.new }
{
    'workers: for worker in 0..WORKERS {
        let (from, count) = places.of_worker(worker);
        raise(table, from, count);
    }
}

/// At each worker's number the greatest version of its replies with lower numbers.
pub(crate) fn find_ahead(
    alloc: Global,
    places: &Places,
    heard: &[HeardReply],
) -> Result<Vec<u64>, NoMemory>
    requires { IsPlacing places.now heard.now }
    ensures size { IfOk result (λ v. length v.items ≡ length heard.now + 256) }
    ensures table { IfOk result (λ v. IsTable places.now (greatest_below heard.now) v.items) }
{
    let mut table = find_greatest(alloc, places, heard)?;
    raise_each(places, &mut table);
    Ok(table)
}
