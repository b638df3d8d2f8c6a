// Reading the heads of a log's records: every entry is looked at, and no value is read that does not lie beside a head.
ghost use Rattle.std.specs.Prelude.{◌≡◌, ◌≢◌, ◌+◌, ◌-◌, ◌<◌, ◌≤◌, ◌↔◌, IsTrue, List, [], ℕ, false, length, min, slice_index, vec_len, IfOk, IfSome, IfErr, OnOk, Err};
ghost use Rattle.std.specs.Int.{w16, w32, from_be_bytes, to_be_bytes};
ghost use Rattle.demi_core.specs.Outside.{Rose};
ghost use Rattle.demi_spec.specs.Record.{records as records_of_text, records_from};
ghost use Rattle.demi_logq.specs.Logged.{Holds, place_of};
ghost use Rattle.demi_logq.specs.Reading.{IsAhead};
ghost use Rattle.demi_store.specs.Openings.{BeginsEntry, FitsRecord};
ghost use Rattle.demi_cli.specs.Heads.{HeadsAll, HeadsTo};

use crate::heads::Heads;
use demi_core::Disk;
use demi_logq::{Ahead, Log, LogRefusal};
use std::alloc::Global;

// How many bytes of a record come before its value at most: two of the link, four of the index, one of the key's length, and the key.
const MAX_HEAD_BYTES: usize = 262;

// Whether so many bytes that begin so are a record's payload.
fn fits_record(front: &[u8], size: usize) -> bool
    requires { length front.now ≡ min 262 size }
    ensures fits { IsTrue result ↔ FitsRecord front.now size }
    ensures small { IsTrue result → slice_index front.now 6 < 256 }
{
    if size < 8 {
        return false;
    }
    let key = front[6] as usize;
    key > 0 && 7 + key <= size && size <= 65_536 + 7 + key
}

// The link that two bytes spell.
fn link_of(field: &[u8]) -> u16
    requires { length field.now ≡ 2 }
    ensures value { result ≡ from_be_bytes w16 field.now }
    ensures spelled { to_be_bytes w16 result ≡ field.now }
    ensures fits { result < 65536 }
{
    u16::from_be_bytes([field[0], field[1]])
}

// The index that four bytes spell.
fn index_of(field: &[u8]) -> u32
    requires { length field.now ≡ 4 }
    ensures value { result ≡ from_be_bytes w32 field.now }
    ensures spelled { to_be_bytes w32 result ≡ field.now }
    ensures fits { result < 4294967296 }
{
    u32::from_be_bytes([field[0], field[1], field[2], field[3]])
}

// Reads one more entry as a record, whose front goes through the room.
fn read_head<D: Disk>(
    log: &mut Log<D>,
    heads: &mut Heads,
    ahead: &mut Ahead,
    room: &mut [u8],
    i: u64,
) -> Result<(), LogRefusal>
    requires lost { log.old.lost ≡ false }
    requires there { i < length log.old.ends }
    requires ahead { IsAhead (D.bytes log.old.disk) (D.held log.old.disk) ahead.old }
    requires ahead_room { 262 ≤ vec_len ahead.old.room }
    requires room { length room.old ≡ 262 }
    requires read { HeadsTo (D.bytes log.old.disk) log.old.ends heads.old i }
    ensures read { OnOk result (HeadsTo (D.bytes log.old.disk) log.old.ends heads.new (i + 1)) }
    ensures ahead { IsAhead (D.bytes log.old.disk) (D.held log.old.disk) ahead.new }
    ensures ahead_room { vec_len ahead.new.room ≡ vec_len ahead.old.room }
    ensures same { log.new ≡ record log.old { disk = log.new.disk } }
    ensures same_bytes { D.bytes log.new.disk ≡ D.bytes log.old.disk }
    ensures same_held { D.held log.new.disk ≡ D.held log.old.disk }
    ensures calls { D.looks log.old.disk log.new.disk }
    ensures later { D.faults log.old.disk ≤ D.faults log.new.disk }
    ensures failed { result ≡ Err LogRefusal.Failed → Rose (D.faults log.old.disk) (D.faults log.new.disk) }
    ensures bad { IfErr result (λ e. (at : ℕ) → e ≡ LogRefusal.BadLog at → (payloads : List (List ℕ)) → Holds (D.bytes log.old.disk) log.old.ends payloads → IfSome (D.bytes log.old.disk) (λ _. records_from 8 payloads ≡ Err at)) }
    ensures place { IfErr result (λ e. (at : ℕ) → e ≡ LogRefusal.BadLog at → at ≡ place_of log.old.ends i) }
    ensures other { IfErr result (λ e. (e ≢ LogRefusal.Full) × (e ≢ LogRefusal.Broken)) }
{
    let _entries = log.count();
    let span = log.span(i);
    let count = log.front(i, ahead, room)?;
    let front = &room[..count];
    if !fits_record(front, span.1) {
        return Err(LogRefusal::BadLog(span.0 - 4));
    }
    let link = link_of(&front[..2]);
    let index = index_of(&front[2..6]);
    let end = 7 + front[6] as usize;
    heads.push(link, index, &front[7..end], (span.1 - end) as u32)?;
    Ok(())
}

// Reads all entries as records.
pub fn read_heads<D: Disk>(alloc: Global, log: &mut Log<D>) -> Result<Heads, LogRefusal>
    requires lost { log.old.lost ≡ false }
    requires whole { log.old.torn ≡ false }
    ensures read { IfOk result (λ h. HeadsAll (D.bytes log.old.disk) log.old.ends h) }
    ensures bad { IfErr result (λ e. (at : ℕ) → e ≡ LogRefusal.BadLog at → IfSome (D.bytes log.old.disk) (λ b. records_of_text b ≡ Err at)) }
    ensures place { IfErr result (λ e. (at : ℕ) → e ≡ LogRefusal.BadLog at → BeginsEntry log.old.ends at) }
    ensures other { IfErr result (λ e. (e ≢ LogRefusal.Full) × (e ≢ LogRefusal.Broken)) }
    ensures failed { IfErr result (λ e. e ≡ LogRefusal.Failed → Rose (D.faults log.old.disk) (D.faults log.new.disk)) }
    ensures same { log.new ≡ record log.old { disk = log.new.disk } }
    ensures same_bytes { D.bytes log.new.disk ≡ D.bytes log.old.disk }
    ensures same_held { D.held log.new.disk ≡ D.held log.old.disk }
    ensures calls { D.looks log.old.disk log.new.disk }
    ensures later { D.faults log.old.disk ≤ D.faults log.new.disk }
{
    let mut ahead = Ahead::make(alloc)?;
    let mut heads = Heads::new(alloc);
    let mut room = [0; MAX_HEAD_BYTES];
    let count = log.count();
    'reading: for i in 0..count {
        match read_head(log, &mut heads, &mut ahead, &mut room, i) {
            Ok(()) => {}
            Err(e) => return Err(e),
        }
    }
    Ok(heads)
}
