//! Reading the entries of a log as records.
ghost use Rattle.std.specs.Prelude.{◌≡◌, ◌≢◌, ◌+◌, ◌-◌, ◌<◌, ◌≤◌, ◌++◌, ◌↔◌, IsTrue, List, [], ◌∷◌, ℕ, Option, None, false, length, take, drop, get_or, min, slice_index, vec_len, IfSome, IfErr, OnOk, Err, Ok, map};
ghost use Rattle.std.specs.Int.{w16, w32, from_be_bytes, to_be_bytes};
ghost use Rattle.demi_core.specs.Outside.{Rose};
ghost use Rattle.demi_spec.specs.Record.{payload, records as records_of_text, records_from};
ghost use Rattle.demi_logq.specs.Logged.{Holds, place_of};
ghost use Rattle.demi_logq.specs.Reading.{IsAhead};
ghost use Rattle.demi_store.specs.Finding.{entry_of};
ghost use Rattle.demi_store.specs.Openings.{BeginsEntry, FitsRecord, ReadTo, heard, payload_told};

use crate::index::Index;
use crate::records::{Bytes, Payload, Records};
use crate::shelf::key_of;
use demi_core::Disk;
use demi_device::Mark;
use demi_logq::{Ahead, Log, LogRefusal};
use std::alloc::{AllocError, Global};

// How many bytes of a record come before its value at most: two of the link, four of the index, one of the key's length, and the key.
const MAX_HEAD_BYTES: usize = 262;

// Whether so many bytes that begin so are a record's payload.
fn fits_record(head: &[u8], size: usize) -> bool
    requires { length head.now ≡ min 262 size }
    ensures fits { IsTrue result ↔ FitsRecord head.now size }
    ensures small { IsTrue result → slice_index head.now 6 < 256 }
{
    if size < 8 {
        return false;
    }
    let key = head[6] as usize;
    key > 0 && 7 + key <= size && size <= 65_536 + 7 + key
}

// The link that two bytes spell.
fn link_of(field: &[u8]) -> u16
    requires { length field.now ≡ 2 }
    ensures value { result ≡ from_be_bytes w16 field.now }
    ensures spelled { to_be_bytes w16 result ≡ field.now }
    ensures fits { result < 65536 }
{
    u16::from_be_bytes([field[0], field[1]])
}

// The index that four bytes spell.
fn index_of(field: &[u8]) -> u32
    requires { length field.now ≡ 4 }
    ensures value { result ≡ from_be_bytes w32 field.now }
    ensures spelled { to_be_bytes w32 result ≡ field.now }
    ensures fits { result < 4294967296 }
{
    u32::from_be_bytes([field[0], field[1], field[2], field[3]])
}

// What the disk tells.
fn told<D: Disk>(log: &Log<D>) -> Mark<Bytes>
    ensures { result.value ≡ D.bytes log.now.disk }
{
    Mark::from(log, &())
}

// The bytes of a payload at its span: where the disk does not tell them, so many zeros.
fn told_at(told: &Mark<Bytes>, span: &(u64, usize)) -> Mark<Payload>
    ensures { result.value ≡ payload_told told.now.value span.now.0 span.now.1 }
{
    Mark::from(told, span)
}

// The record of a head and a payload.
fn heard_record(payload: &Mark<Payload>, head: &[u8]) -> Mark<Records>
    ensures { result.value ≡ heard payload.now.value head.now ∷ [] }
{
    Mark::from(payload, &head)
}

// Both lists, one behind the other.
pub(crate) fn both(first: &Mark<Records>, second: &Mark<Records>) -> Mark<Records>
    ensures { result.value ≡ first.now.value ++ second.now.value }
{
    Mark::from(first, second)
}

pub(crate) fn no_records() -> Mark<Records>
    ensures { result.value ≡ [] }
{
    Mark::from(&(), &())
}

// Reads one more entry as a record.
fn read_one<D: Disk>(
    alloc: Global,
    log: &mut Log<D>,
    index: &mut Index,
    records: &mut Mark<Records>,
    ahead: &mut Ahead,
    i: u64,
) -> Result<(), LogRefusal>
    requires lost { log.old.lost ≡ false }
    requires there { i < length log.old.ends }
    requires ahead { IsAhead (D.bytes log.old.disk) (D.held log.old.disk) ahead.old }
    requires room { 262 ≤ vec_len ahead.old.room }
    requires read { ReadTo (D.bytes log.old.disk) log.old.ends index.old records.old.value i }
    ensures read { OnOk result (ReadTo (D.bytes log.old.disk) log.old.ends index.new records.new.value (i + 1)) }
    ensures ahead { IsAhead (D.bytes log.old.disk) (D.held log.old.disk) ahead.new }
    ensures room { vec_len ahead.new.room ≡ vec_len ahead.old.room }
    ensures same { log.new ≡ record log.old { disk = log.new.disk } }
    ensures same_bytes { D.bytes log.new.disk ≡ D.bytes log.old.disk }
    ensures same_held { D.held log.new.disk ≡ D.held log.old.disk }
    ensures calls { D.looks log.old.disk log.new.disk }
    ensures later { D.faults log.old.disk ≤ D.faults log.new.disk }
    ensures failed { result ≡ Err LogRefusal.Failed → Rose (D.faults log.old.disk) (D.faults log.new.disk) }
    ensures bad { IfErr result (λ e. (at : ℕ) → e ≡ LogRefusal.BadLog at → (payloads : List (List ℕ)) → Holds (D.bytes log.old.disk) log.old.ends payloads → IfSome (D.bytes log.old.disk) (λ _. records_from 8 payloads ≡ Err at)) }
    ensures place { IfErr result (λ e. (at : ℕ) → e ≡ LogRefusal.BadLog at → at ≡ place_of log.old.ends i) }
    ensures other { IfErr result (λ e. (e ≢ LogRefusal.Full) × (e ≢ LogRefusal.Broken)) }
{
    let _entries = log.count();
    let span = log.span(i);
    let mut room = [0; MAX_HEAD_BYTES];
    let count = log.front(i, ahead, &mut room)?;
    let head = &room[..count];
    if !fits_record(head, span.1) {
        return Err(LogRefusal::BadLog(span.0 - 4));
    }
    let _link = link_of(&head[..2]);
    let _index = index_of(&head[2..6]);
    let key = key_of(alloc, head)?;
    index.make_room()?;
    index.set(key, i);
    let payload = told_at(&told(log), &span);
    *records = both(records, &heard_record(&payload, head));
    Ok(())
}

// Reads all entries as records, into an index of none.
pub(crate) fn read_all<D: Disk>(
    alloc: Global,
    log: &mut Log<D>,
    index: &mut Index,
    records: &mut Mark<Records>,
) -> Result<(), LogRefusal>
    requires lost { log.old.lost ≡ false }
    requires none { (key : List ℕ) → entry_of index.old key ≡ None }
    requires no_records { records.old.value ≡ [] }
    ensures read { OnOk result (ReadTo (D.bytes log.old.disk) log.old.ends index.new records.new.value (length log.old.ends)) }
    ensures holds { OnOk result (Holds (D.bytes log.old.disk) log.old.ends (map payload records.new.value)) }
    ensures text { log.old.torn ≡ false → OnOk result (IfSome (D.bytes log.old.disk) (λ b. records_of_text b ≡ Ok records.new.value)) }
    ensures text_bad { log.old.torn ≡ false → IfErr result (λ e. (at : ℕ) → e ≡ LogRefusal.BadLog at → IfSome (D.bytes log.old.disk) (λ b. records_of_text b ≡ Err at)) }
    ensures same { log.new ≡ record log.old { disk = log.new.disk } }
    ensures same_bytes { D.bytes log.new.disk ≡ D.bytes log.old.disk }
    ensures same_held { D.held log.new.disk ≡ D.held log.old.disk }
    ensures calls { D.looks log.old.disk log.new.disk }
    ensures later { D.faults log.old.disk ≤ D.faults log.new.disk }
    ensures failed { result ≡ Err LogRefusal.Failed → Rose (D.faults log.old.disk) (D.faults log.new.disk) }
    ensures place { IfErr result (λ e. (at : ℕ) → e ≡ LogRefusal.BadLog at → BeginsEntry log.old.ends at) }
    ensures other { IfErr result (λ e. (e ≢ LogRefusal.Full) × (e ≢ LogRefusal.Broken)) }
{
    let mut ahead = Ahead::make(alloc)?;
    let count = log.count();
    'reading: for i in 0..count {
        match read_one(alloc, log, index, records, &mut ahead, i) {
            Ok(()) => {}
            Err(e) => return Err(e),
        }
    }
    Ok(())
}
