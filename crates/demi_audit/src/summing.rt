// The line that sums up a bench.
ghost use Rattle.std.specs.Prelude.{◌≡◌, ◌+◌, ◌*◌, ◌<◌, ◌≤◌, ◌^◌, ◌++◌, ℕ, List, Ok, All, IfOk, codes, length, map};
ghost use Rattle.std.specs.Fmt.{decimal};
ghost use Rattle.arrayvec.specs.ArrayString.{array_string_len};
ghost use Rattle.demi_spec.specs.Record.{Record, records as records_of_text};
ghost use Rattle.demi_audit.specs.Summary.{Tallies, requests_of, requests_of_all, summary_line};

use crate::input_reader::{InputReader, Next};
use crate::text_store::ends_of;
use arrayvec::ArrayString;
use demi_core::NoMemory;
use demi_frame::Decoder;
use itoa::Buffer;
use std::alloc::Global;

/// How many bytes the line of [`summary`] has at most: seven numbers of 20 digits, and 49 between them.
pub const MAX_SUMMARY_BYTES: usize = 189;

/// How many requests of each kind an input has.
#[derive(Clone, Copy, Debug, PartialEq, Eq)]
pub struct Tally {
    /// Puts.
    pub puts: u64,
    /// Gets.
    pub gets: u64,
    /// End frames, of which one input has at most one.
    pub ends: u64,
}

/// How many requests of each kind an input has, up to its end frame, its refused frame or its end. `NoMemory` is its only
/// error.
pub fn count_requests(alloc: Global, input: &[u8]) -> Result<Tally, NoMemory>
    ensures counts { IfOk result (λ t. Tallies (requests_of input.now) t) }
    ensures few { IfOk result (λ t. 6 * (t.puts + t.gets + t.ends) ≤ length input.now) }
{
    let mut reader = InputReader {
        input,
        decoder: Decoder::make(alloc)?,
        fed: 0,
    };
    let mut tally = Tally {
        puts: 0,
        gets: 0,
        ends: 0,
    };
    'tallying: loop {
        match reader.next() {
            Next::Put => tally.puts += 1,
            Next::Get => tally.gets += 1,
            Next::End => {
                tally.ends += 1;
                return Ok(tally);
            }
            Next::Refused(_) => return Ok(tally),
            Next::Clean => return Ok(tally),
        }
    }
}

// The requests of all inputs.
fn tally_all(alloc: Global, inputs: &[Vec<u8>]) -> Result<Tally, NoMemory>
    requires few { length inputs.now ≤ 16 }
    requires small { All (λ input. length input.items ≤ 2 ^ 34) inputs.now }
    ensures counts { IfOk result (λ t. Tallies (requests_of_all (map (λ input. input.items) inputs.now)) t) }
    ensures few { IfOk result (λ t. t.puts + t.gets + t.ends ≤ 2 ^ 38) }
{
    let mut all = Tally {
        puts: 0,
        gets: 0,
        ends: 0,
    };
    'summing: for input in inputs {
        let one = count_requests(alloc, input)?;
        all.puts += one.puts;
        all.gets += one.gets;
        all.ends += one.ends;
    }
    Ok(all)
}

// Adds a word and a number.
fn push_number(text: &mut ArrayString<MAX_SUMMARY_BYTES>, word: &str, number: u64)
    requires { array_string_len text.old + length word.now + 20 ≤ 189 }
    ensures text { text.new.bytes ≡ text.old.bytes ++ word.now ++ decimal number }
    ensures len { array_string_len text.new ≤ array_string_len text.old + length word.now + 20 }
{
    text.push_str(word);
    text.push_str(Buffer::new().format(number));
}

/// The line that sums up a bench: how many links it has, how many requests they ask, and of these the puts, the gets and
/// the end frames, and how many records and bytes its log has then. The inputs are those of at most 16 links, each of at
/// most 2^34 bytes, and the log is a log text of records. `NoMemory` is its only error.
pub fn summary(
    alloc: Global,
    inputs: &[Vec<u8>],
    log: &[u8],
) -> Result<ArrayString<MAX_SUMMARY_BYTES>, NoMemory>
    requires few { length inputs.now ≤ 16 }
    requires small { All (λ input. length input.items ≤ 2 ^ 34) inputs.now }
    requires log { (records : List Record) × (records_of_text log.now ≡ Ok records) }
    ensures { IfOk result (λ line. (records : List Record) → records_of_text log.now ≡ Ok records → line.bytes ≡ summary_line (map (λ input. input.items) inputs.now) (length records) (length log.now)) }
{
    let tally = tally_all(alloc, inputs)?;
    let requests = tally.puts + tally.gets + tally.ends;
    let records = ends_of(alloc, log)?.len();
    let mut line = ArrayString::new();
    push_number(&mut line, "links ", inputs.len() as u64);
    push_number(&mut line, " requests ", requests);
    push_number(&mut line, " puts ", tally.puts);
    push_number(&mut line, " gets ", tally.gets);
    push_number(&mut line, " ends ", tally.ends);
    push_number(&mut line, " records ", records as u64);
    push_number(&mut line, " log ", log.len() as u64);
    line.push_str("\n");
    Ok(line)
}

#[cfg(test)]
mod tests;
