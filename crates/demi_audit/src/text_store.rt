// A store over a log text in memory.
ghost use Rattle.std.specs.Prelude.{◌≡◌, ◌+◌, ◌<◌, ◌≤◌, ◌++◌, [], ◌∷◌, ℕ, List, length, take, drop, slice_index, option_map, OnOk, IfOk, IfSome, Ok};
ghost use Rattle.demi_spec.specs.Request.{IsKey, IsValue};
ghost use Rattle.demi_spec.specs.LogText.{entry};
ghost use Rattle.demi_spec.specs.Record.{Record, payload, records};
ghost use Rattle.demi_spec.specs.Store as store;
ghost use Rattle.demi_audit.specs.Entries.{Logs};
ghost use Rattle.demi_audit.specs.Client.{headed};
ghost use Rattle.demi_audit.specs.TextStores.{Indexes, Keeps};

use crate::entries::{HEADER, LENGTH_BYTES, LogFault, payload_at, place, read_log};
use crate::values::{Span, Values};
use demi_core::NoMemory;
use std::alloc::Global;

// How many bytes of a record stand before its key. The last of them is the key's length.
const HEAD_BYTES: usize = 7;

/// A log text of records, how many they are, and where in it the last value of each key stands.
#[derive(Drop)]
pub(crate) struct TextStore {
    pub(crate) alloc: Global,
    pub(crate) text: Vec<u8>,
    pub(crate) values: Values,
    pub(crate) count: usize,
}

// A log text, which has at least its header.
fn text_of(alloc: Global, log: &[u8]) -> Result<Vec<u8>, NoMemory>
    ensures { IfOk result (λ text. text.items ≡ headed log.now) }
{
    let text = if log.is_empty() { &HEADER[..] } else { log };
    Ok(text.to_vec(alloc)?)
}

// The key of a record's payload.
fn key_of(payload: &[u8]) -> &[u8]
    requires head { 7 ≤ length payload.now }
    requires key { 7 + slice_index payload.now 6 ≤ length payload.now }
    ensures { result.now ≡ take (slice_index payload.now 6) (drop 7 payload.now) }
{
    let end = HEAD_BYTES + payload[HEAD_BYTES - 1] as usize;
    &payload[HEAD_BYTES..end]
}

// Reads the entry of this number: its key has its value from now on.
fn index_entry(
    alloc: Global,
    text: &[u8],
    ends: &[usize],
    i: usize,
    values: &mut Values,
) -> Result<(), NoMemory>
    requires logs { (rs : List Record) × Logs text.now ends.now rs }
    requires there { i < length ends.now }
    ensures { OnOk result ((rs : List Record) → Logs text.now ends.now rs → Indexes text.now values.old (take i rs) → Indexes text.now values.new (take (i + 1) rs)) }
{
    let payload = payload_at(text, ends, i);
    let key = key_of(payload);
    let head = HEAD_BYTES + key.len();
    let span = Span {
        from: place(ends, i) + LENGTH_BYTES + head,
        size: payload.len() - head,
    };
    values.set(alloc, key, span)
}

/// Where the entries of a log text of records end.
pub(crate) fn ends_of(alloc: Global, text: &[u8]) -> Result<Vec<usize>, NoMemory>
    requires { (old : List Record) × (records text.now ≡ Ok old) }
    ensures { IfOk result (λ ends. (old : List Record) → records text.now ≡ Ok old → Logs text.now ends.items old) }
{
    match read_log(alloc, text) {
        Ok(ends) => Ok(ends),
        Err(LogFault::NoMemory) => Err(NoMemory),
        // It is a log text of records.
        Err(LogFault::Bad(_)) => unreachable!(),
    }
}

// Appends the entry of the record of request `index` of link 0.
fn write_entry(text: &mut Vec<u8>, index: u32, key: &[u8], value: &[u8]) -> Result<(), NoMemory>
    requires key { length key.now ≤ 255 }
    requires value { length value.now ≤ 65536 }
    ensures { OnOk result (text.new.items ≡ text.old.items ++ entry (payload (record { link = 0; index = index; key = key.now; value = value.now }))) }
{
    let size = (HEAD_BYTES + key.len() + value.len()) as u32;
    text.extend_from_slice(&size.to_be_bytes())?;
    text.extend_from_slice(&[0, 0])?;
    text.extend_from_slice(&index.to_be_bytes())?;
    text.push(key.len() as u8)?;
    text.extend_from_slice(key)?;
    text.extend_from_slice(value)?;
    Ok(())
}

impl TextStore {
    /// A store over a log text of records, which gets its header where it is empty.
    pub(crate) fn open(alloc: Global, log: &[u8]) -> Result<TextStore, NoMemory>
        requires { (old : List Record) × (records log.now ≡ Ok old) }
        ensures { IfOk result (λ s. (old : List Record) → records log.now ≡ Ok old → Keeps s old) }
    {
        let text = text_of(alloc, log)?;
        let ends = ends_of(alloc, &text)?;
        let mut values = Values::new(alloc);
        'indexing: for i in 0..ends.len() {
            index_entry(alloc, &text, &ends, i, &mut values)?;
        }
        Ok(TextStore {
            alloc,
            text,
            values,
            count: ends.len(),
        })
    }

    /// Adds the record of request `index` of link 0, from 0.
    pub(crate) fn put(&mut self, index: u32, key: &[u8], value: &[u8]) -> Result<(), NoMemory>
        requires key { IsKey key.now }
        requires value { IsValue value.now }
        requires few { self.old.count < 1000000 }
        ensures { OnOk result ((rs : List Record) → Keeps self.old rs → Keeps self.new (rs ++ record { link = 0; index = index; key = key.now; value = value.now } ∷ [])) }
    {
        write_entry(&mut self.text, index, key, value)?;
        let span = Span {
            from: self.text.len() - value.len(),
            size: value.len(),
        };
        self.values.set(self.alloc, key, span)?;
        self.count += 1;
        Ok(())
    }

    /// The value that was put last under the key.
    pub(crate) fn get(&self, key: &[u8]) -> Option<&[u8]>
        requires { (rs : List Record) × Keeps self.now rs }
        ensures found { (rs : List Record) → Keeps self.now rs → option_map (λ value. value.now) result ≡ store.map rs key.now }
        ensures small { IfSome result (λ value. length value.now ≤ 65536) }
    {
        let span = self.values.get(key)?;
        Some(&self.text[span.from..span.from + span.size])
    }
}
