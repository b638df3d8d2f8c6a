//! How an array is written.
ghost use Rattle.std.specs.Prelude.{◌≡◌, ◌+◌, ◌<◌, ◌≤◌, IfErr, IfOk, drop, length, take};
ghost use Rattle.std.specs.Io.KnownBytes.{append_known};
ghost use Rattle.demi_core.specs.Outside.{HasCause, Rose};
ghost use Rattle.demi_sga.specs.Arrays.{byte_count};
ghost use Rattle.demi_streamq.specs.Sending.{array_bytes, IsPart};

use demi_core::{Failed, Sink};
use demi_sga::DevSga;

// The rest of a segment from `at` on.
fn rest_of(sga: &DevSga, at: u32) -> &[u8]
    requires { at < byte_count sga.now }
    ensures part { IsPart (array_bytes sga.now) (byte_count sga.now) at result.now }
    ensures fits { at + length result.now ≤ 524288 }
{
    sga.part(at, sga.len())
}

// One write of the rest of a segment from `at` on, with the next segment where one is. How many bytes the sink took.
fn write_some<S: Sink>(sink: &mut S, sga: &DevSga, at: u32) -> Result<u32, Failed>
    requires { at < byte_count sga.now }
    ensures some { IfOk result (λ k. 0 < k) }
    ensures within { IfOk result (λ k. at + k ≤ byte_count sga.now) }
    ensures bytes { IfOk result (λ k. S.written sink.new ≡ append_known (S.written sink.old) (take k (drop at (array_bytes sga.now)))) }
    ensures failed { IfErr result (λ _. S.written sink.new ≡ S.written sink.old) }
    ensures cause { HasCause (S.faults sink.old) (S.faults sink.new) result }
{
    let first = rest_of(sga, at);
    let next = at + first.len() as u32;
    let took = if next < sga.len() {
        sink.write_two(first, rest_of(sga, next))
    } else {
        sink.write(first)
    };
    match took {
        Ok(count) => Ok(count as u32),
        Err(failed) => Err(failed),
    }
}

// Writes all bytes of the array. Where a write fails, how many were written before it.
pub(crate) fn write_array<S: Sink>(sink: &mut S, sga: &DevSga) -> Result<(), u64>
    ensures all { IfOk result (λ _. S.written sink.new ≡ append_known (S.written sink.old) (array_bytes sga.now)) }
    ensures some { IfErr result (λ k. k < byte_count sga.now) }
    ensures front { IfErr result (λ k. S.written sink.new ≡ append_known (S.written sink.old) (take k (array_bytes sga.now))) }
    ensures later { S.faults sink.old ≤ S.faults sink.new }
    ensures rose { IfErr result (λ _. Rose (S.faults sink.old) (S.faults sink.new)) }
{
    let mut at = 0u32;
    'writing: while at < sga.len() {
        match write_some(sink, sga, at) {
            Ok(count) => at += count,
            Err(_) => return Err(at as u64),
        }
    }
    Ok(())
}
