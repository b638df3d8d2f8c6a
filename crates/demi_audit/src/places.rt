// Where each worker's replies have their places in a table by worker and sequence number.
ghost use Rattle.std.specs.Prelude.{◌≡◌, ◌+◌, ◌<◌, ◌≤◌, ◌^◌, ℕ, List, None, length, sum, get_or, IfOk, IfSome};
ghost use Rattle.demi_audit.specs.Turns.{AreStarts, IsPlacing, count_of, HasPlace, place_at};

use crate::heard::HeardReply;
use demi_core::NoMemory;
use std::alloc::Global;

/// How many workers there can be: their numbers have one byte.
pub(crate) const WORKERS: usize = 256;

/// How many replies each worker gave, and where its places begin. It has one for each sequence number from 0 up to the
/// number of its replies.
#[derive(Drop)]
pub(crate) struct Places {
    pub(crate) counts: Vec<usize>,
    pub(crate) starts: Vec<usize>,
}

// How many replies each worker gave.
fn count_workers(alloc: Global, heard: &[HeardReply]) -> Result<Vec<usize>, NoMemory>
    ensures workers { IfOk result (λ v. length v.items ≡ 256) }
    ensures counts { IfOk result (λ v. (w : ℕ) → w < 256 → get_or v.items w 0 ≡ count_of w heard.now) }
    ensures total { IfOk result (λ v. sum v.items ≡ length heard.now) }
{
    let mut counts = Vec::new(alloc);
    counts.resize(WORKERS, 0)?;
    'counting: for reply in heard {
        counts[reply.worker as usize] += 1;
    }
    Ok(counts)
}

// Where each worker's places begin.
fn find_starts(alloc: Global, counts: &[usize]) -> Result<Vec<usize>, NoMemory>
    requires workers { length counts.now ≡ 256 }
    requires total { sum counts.now + 256 < 2 ^ 64 }
    ensures workers { IfOk result (λ v. length v.items ≡ 256) }
    ensures starts { IfOk result (λ v. AreStarts counts.now v.items) }
{
    let mut starts = Vec::new(alloc);
    let mut next = 0;
    'placing: for count in counts {
        starts.push(next)?;
        next += *count + 1;
    }
    Ok(starts)
}

impl Places {
    /// The places for these replies.
    pub(crate) fn of(alloc: Global, heard: &[HeardReply]) -> Result<Places, NoMemory>
        ensures { IfOk result (λ p. IsPlacing p heard.now) }
    {
        let counts = count_workers(alloc, heard)?;
        let starts = find_starts(alloc, &counts)?;
        Ok(Places { counts, starts })
    }

    /// The place of a worker and a sequence number, where they have one.
    pub(crate) fn place(&self, worker: u8, sequence: u64) -> Option<usize>
        requires { (heard : List HeardReply) × IsPlacing self.now heard }
        ensures none { result ≡ None → get_or self.now.counts.items worker 0 < sequence }
        ensures place { IfSome result (λ at. at ≡ place_at self.now worker sequence) }
        ensures there { IfSome result (λ at. HasPlace self.now worker sequence) }
        ensures within { (heard : List HeardReply) → IsPlacing self.now heard → IfSome result (λ at. at < length heard + 256) }
    {
        let count = self.counts[worker as usize];
        if (count as u64) < sequence {
            return None;
        }
        Some(self.starts[worker as usize] + sequence as usize)
    }

    /// Where a worker's places begin, and how many there are.
    pub(crate) fn of_worker(&self, worker: usize) -> (usize, usize)
        requires placing { (heard : List HeardReply) × IsPlacing self.now heard }
        requires worker { worker < 256 }
        ensures start { result.0 ≡ get_or self.now.starts.items worker 0 }
        ensures count { result.1 ≡ get_or self.now.counts.items worker 0 + 1 }
        ensures within { (heard : List HeardReply) → IsPlacing self.now heard → result.0 + result.1 ≤ length heard + 256 }
    {
        (self.starts[worker], self.counts[worker] + 1)
    }
}
