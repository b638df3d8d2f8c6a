ghost use Rattle.std.specs.Prelude.{◌≡◌, ◌+◌, ◌<◌, ◌≤◌, ◌^◌, ◌++◌, ℕ, List, length, OnOk, IfOk, Ok, true};
ghost use Rattle.demi_spec.specs.Request.{Put, Get, IsKey, IsValue};
ghost use Rattle.demi_spec.specs.Input.{Request_of, asked};
ghost use Rattle.demi_spec.specs.Reply.{frame};
ghost use Rattle.demi_spec.specs.Record.{Record, records, entries_of};
ghost use Rattle.demi_audit.specs.Client.{headed, output_on, added_on};
ghost use Rattle.demi_audit.specs.TextStores.{Answered, AnswersAll, Keeps, reply_on};

use crate::input_reader::{InputReader, Next};
use crate::text_store::TextStore;
use demi_core::NoMemory;
use demi_frame::{BYE, Decoder, FOUND, FULL, MISSING, REFUSED, STORED, reply_head};
use std::alloc::Global;

// Appends the reply of worker 0 to the request with this index, whose sequence number is one more.
fn say(
    output: &mut Vec<u8>,
    kind: u8,
    index: u32,
    version: u64,
    bytes: &[u8],
) -> Result<(), NoMemory>
    requires { length bytes.now < 2 ^ 32 }
    ensures { OnOk result (output.new.items ≡ output.old.items ++ frame kind 0 (index + 1) version bytes.now) }
{
    let head = reply_head(kind, 0, index as u64 + 1, version, bytes.len() as u32);
    output.extend_from_slice(&head)?;
    output.extend_from_slice(bytes)?;
    Ok(())
}

// Answers a put.
fn answer_put(
    output: &mut Vec<u8>,
    store: &mut TextStore,
    limit: u32,
    index: u32,
    key: &[u8],
    value: &[u8],
) -> Result<(), NoMemory>
    requires limit { limit ≤ 1000000 }
    requires key { IsKey key.now }
    requires value { IsValue value.now }
    ensures { OnOk result ((rs : List Record) → Keeps store.old rs → Answered rs limit index (Request_of (Put key.now value.now)) output.old.items output.new.items store.new) }
{
    let count = store.count;
    if count >= limit as usize {
        return say(output, FULL, index, count as u64, &[]);
    }
    store.put(index, key, value)?;
    say(output, STORED, index, count as u64 + 1, value)
}

// Answers a get.
fn answer_get(
    output: &mut Vec<u8>,
    store: &TextStore,
    index: u32,
    key: &[u8],
) -> Result<(), NoMemory>
    requires { (rs : List Record) × Keeps store.now rs }
    ensures { OnOk result ((rs : List Record) → Keeps store.now rs → (limit : ℕ) → output.new.items ≡ output.old.items ++ reply_on rs limit index (Request_of (Get key.now))) }
{
    let version = store.count as u64;
    match store.get(key) {
        Some(value) => say(output, FOUND, index, version, value),
        None => say(output, MISSING, index, version, &[]),
    }
}

// Answers all that an input asks, in order. Gives what is written.
fn serve(
    alloc: Global,
    input: &[u8],
    limit: u32,
    store: &mut TextStore,
) -> Result<Vec<u8>, NoMemory>
    requires input { length input.now ≤ 2 ^ 34 }
    requires limit { limit ≤ 1000000 }
    requires kept { (old : List Record) × Keeps store.old old }
    ensures { IfOk result (λ output. (old : List Record) → Keeps store.old old → AnswersAll old limit (asked input.now true) output.items store.new) }
{
    let mut reader = InputReader {
        input,
        decoder: Decoder::make(alloc)?,
        fed: 0,
    };
    let mut output = Vec::new(alloc);
    let mut count = 0;
    'serving: loop {
        match reader.next() {
            Next::Put => {
                let (key, value) = (reader.key(), reader.value());
                answer_put(&mut output, store, limit, count, key, value)?;
                count += 1;
            }
            Next::Get => {
                answer_get(&mut output, store, count, reader.key())?;
                count += 1;
            }
            Next::End => {
                say(&mut output, BYE, count, 0, &[])?;
                return Ok(output);
            }
            Next::Refused(code) => {
                say(&mut output, REFUSED, count, 0, &[code])?;
                return Ok(output);
            }
            Next::Clean => return Ok(output),
        }
    }
}

/// What one link is told that has this input, and the log text that it leaves, where it is served alone on a log text of
/// records: exactly the replies of the one-thread store on these records, of which there may be `limit`, from 1 to
/// 1,000,000; and the old text, or the header where that is empty, with the entries of the records that were added.
///
/// An input has at most 2^34 bytes. It is taken whole: one that is cut off inside a frame is refused with code 5. The text
/// is a log text of records again, so a further input can be answered on it. It is kept in memory with an index of its
/// keys. `NoMemory` is the only error.
pub fn client(
    alloc: Global,
    input: &[u8],
    log: &[u8],
    limit: u32,
) -> Result<(Vec<u8>, Vec<u8>), NoMemory>
    requires input { length input.now ≤ 2 ^ 34 }
    requires log { (old : List Record) × (records log.now ≡ Ok old) }
    requires some { 1 ≤ limit }
    requires most { limit ≤ 1000000 }
    ensures output { IfOk result (λ r. (old : List Record) → records log.now ≡ Ok old → r.0.items ≡ output_on old limit input.now) }
    ensures text { IfOk result (λ r. (old : List Record) → records log.now ≡ Ok old → r.1.items ≡ headed log.now ++ entries_of (added_on old limit input.now)) }
    ensures again { IfOk result (λ r. (old : List Record) → records log.now ≡ Ok old → records r.1.items ≡ Ok (old ++ added_on old limit input.now)) }
{
    let mut store = TextStore::open(alloc, log)?;
    let output = serve(alloc, input, limit, &mut store)?;
    let TextStore {
        alloc: _,
        text,
        values: _,
        count: _,
    } = store;
    Ok((output, text))
}

#[cfg(test)]
mod tests;
