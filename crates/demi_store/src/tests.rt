// Stores over logs in memory.
ghost use Rattle.std.specs.Prelude.{◌≡◌, ◌<◌, ◌≤◌, IfOk, None, length};

mod served;

use crate::{StoreAnswer, StoreCore};
use demi_core::MemDisk;
use demi_frame::Key;
use demi_logq::{Log, LogRefusal};
use demi_port_core::Place;
use std::alloc::{AllocError, Global};
use std::process::Abort;
use std::test::Fail;

fn room(alloc: Global, size: usize) -> Result<Vec<u8>, AllocError>
    ensures { IfOk result (λ v. length v.items ≡ size) }
{
    Vec::from_elem(alloc, 0, size)
}

fn key_a() -> Key
    ensures { 0 < length result.items }
{
    let mut key = Key::new();
    let _ = key.try_push(b'a');
    key
}

// A store of at most so many records on a disk with these bytes, that fails these calls, or why there is none.
fn store_on(
    rt: &impl Abort,
    alloc: Global,
    bytes: &[u8],
    limit: u32,
    write: Option<u64>,
    read: Option<u64>,
) -> Result<StoreCore<MemDisk>, LogRefusal>
    requires { limit ≤ 10 }
    ensures { IfOk result (λ s. s.begun ≡ None) }
{
    let room = bytes.len().max(200);
    let Ok(mut disk) = MemDisk::make(alloc, bytes, room, listed(rt, alloc, write)) else {
        panic!(rt; "no memory");
    };
    disk.fail_reads(listed(rt, alloc, read));
    let Ok(log) = Log::make(alloc, disk, 10) else {
        panic!(rt; "it is a log");
    };
    match StoreCore::make(alloc, log, limit) {
        Ok(store) => Ok(store),
        Err((log, refusal)) => {
            let _disk = log.disk();
            Err(refusal)
        }
    }
}

fn listed(rt: &impl Abort, alloc: Global, call: Option<u64>) -> Vec<u64> {
    let mut list = Vec::new(alloc);
    if let Some(number) = call {
        let Ok(()) = list.push(number) else {
            panic!(rt; "no memory");
        };
    }
    list
}

// Puts a value of one byte under the key `a` at a place.
fn put(store: &mut StoreCore<MemDisk>, place: u32, value: u8) -> StoreAnswer
    requires { store.old.begun ≡ None }
    ensures { store.new.begun ≡ None }
{
    store.begin(0, place, &key_a());
    store.piece(&[value]);
    store.put(Place(place as u64))
}

// The value of the key `a` at a place: the answer, the length, and the first byte of the room.
fn get(store: &mut StoreCore<MemDisk>, place: u64, room: &mut [u8]) -> (StoreAnswer, u32, u8)
    requires { length room.old ≡ 65536 }
    ensures same { store.new.begun ≡ store.old.begun }
    ensures room { length room.new ≡ length room.old }
{
    let (answer, length) = store.get(Place(place), &key_a(), room);
    (answer, length, room[0])
}

#[test]
fn a_full_store_still_answers(rt: HostRuntime) -> Result<(), Fail> {
    let mut room = room(rt.alloc(), 65_536)?;
    let Ok(mut store) = store_on(&rt, rt.alloc(), b"", 1, None, None) else {
        panic!(rt; "no records are records");
    };
    assert_eq!(rt; put(&mut store, 0, b'1'), StoreAnswer::Stored(1));
    assert_eq!(rt; put(&mut store, 1, b'2'), StoreAnswer::Full(1));
    let got = get(&mut store, 2, &mut room);
    assert_eq!(rt; got, (StoreAnswer::Found(1), 1, b'1'));
    let disk = store.into_log().disk();
    assert_eq!(rt; disk.bytes().len(), 21);
    Ok(())
}

// A log of two records of the key `a`, with the values `1` and `2`.
const TWO: &[u8] =
    b"DEMILOG1\x00\x00\x00\x09\x00\x00\x00\x00\x00\x00\x01a1\x00\x00\x00\x09\x00\x00\x00\x00\x00\x02\x01a2";

#[test]
fn a_store_finds_what_was_there(rt: HostRuntime) -> Result<(), Fail> {
    let mut room = room(rt.alloc(), 65_536)?;
    let Ok(mut store) = store_on(&rt, rt.alloc(), TWO, 10, None, None) else {
        panic!(rt; "both are records");
    };
    let got = get(&mut store, 0, &mut room);
    assert_eq!(rt; got, (StoreAnswer::Found(2), 1, b'2'));
    assert_eq!(rt; put(&mut store, 1, b'3'), StoreAnswer::Stored(3));
    let got = get(&mut store, 2, &mut room);
    assert_eq!(rt; got, (StoreAnswer::Found(3), 1, b'3'));
    let disk = store.into_log().disk();
    assert_eq!(rt; disk.bytes().len(), 47);
    Ok(())
}

#[test]
fn an_entry_that_is_no_record(rt: HostRuntime) -> Result<(), Fail> {
    // The place and the byte of TWO that are changed, and what is answered: the lengths of the first and of the second key.
    let rows = [
        (18, 0, Some(8)),
        (18, 2, None),
        (18, 3, Some(8)),
        (31, 0, Some(21)),
        (31, 2, None),
        (31, 255, Some(21)),
    ];
    for (at, byte, bad) in rows {
        let mut bytes = TWO.to_vec(rt.alloc())?;
        if let Some(place) = bytes.get_mut(at) {
            *place = byte;
        }
        let how = match store_on(&rt, rt.alloc(), &bytes, 10, None, None) {
            Ok(store) => {
                let _disk = store.into_log().disk();
                None
            }
            Err(refusal) => Some(refusal),
        };
        assert!(rt;
            how == bad.map(LogRefusal::BadLog),
            "the byte {byte} at {at}"
        );
    }
    Ok(())
}

#[test]
fn a_disk_fails_and_the_store_is_broken(rt: HostRuntime) -> Result<(), Fail> {
    let mut room = room(rt.alloc(), 65_536)?;
    // Which call of the disk fails, writes and reads counted apart, and what a put, a get and a put come to. The header is the first
    // write, and the opening of an empty disk makes one read.
    let rows = [
        (
            Some(1),
            None,
            StoreAnswer::Fault,
            StoreAnswer::Broken(Place(0)),
            StoreAnswer::Broken(Place(0)),
        ),
        (
            None,
            Some(1),
            StoreAnswer::Stored(1),
            StoreAnswer::Fault,
            StoreAnswer::Broken(Place(1)),
        ),
    ];
    for (write, read, first, second, third) in rows {
        let Ok(mut store) = store_on(&rt, rt.alloc(), b"", 10, write, read) else {
            panic!(rt; "no records are records");
        };
        assert_eq!(rt; put(&mut store, 0, b'1'), first);
        let (found, length, _) = get(&mut store, 1, &mut room);
        assert_eq!(rt; (found, length), (second, 0));
        assert_eq!(rt; put(&mut store, 2, b'3'), third);
        let _disk = store.into_log().disk();
    }
    Ok(())
}
