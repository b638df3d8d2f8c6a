// A log over a real file: what no clause can say of it.
mod clients;
mod links;

use crate::RealWorld;
use demi_core::{Disk, World};
use std::alloc::Global;
use std::fs;
use std::test::Fail;

// Cuts a log to so many bytes, appends a piece, and gives all that it then holds, of which there are less than 64 bytes.
fn rewrite<D: Disk>(alloc: Global, log: &mut D, kept: u64, piece: &[u8]) -> Result<Vec<u8>, Fail> {
    match log.size() {
        Ok(size) if size >= kept => {}
        _ => return Err(Fail::from("the log holds too little")),
    }
    if log.cut(kept).is_err() {
        return Err(Fail::from("the log was not cut"));
    }
    if log.append(piece).is_err() {
        return Err(Fail::from("nothing was appended"));
    }
    let mut room = [0u8; 64];
    match log.read_at(0, &mut room) {
        Ok(count) => Ok(room[..count].to_vec(alloc)?),
        Err(_) => Err(Fail::from("the log was not read")),
    }
}

// The same of the world's log of this name, which the world gets back.
fn rewritten<W: World>(
    alloc: Global,
    world: &mut W,
    name: &str,
    kept: u64,
    piece: &[u8],
) -> Result<Vec<u8>, Fail> {
    let Ok(mut log) = world.log(alloc, name) else {
        return Err(Fail::from("the log was not opened"));
    };
    let held = rewrite(alloc, &mut log, kept, piece);
    world.keep_log(name, log);
    held
}

#[test]
fn a_file_keeps_what_was_appended(rt: HostRuntime) -> Result<(), Fail> {
    let name = "log_of_a_test";
    let mut world = RealWorld::new(rt);
    let rows: [(u64, &[u8], &[u8]); 4] = [
        (0, b"DEMILOG1an entry", b"DEMILOG1an entry"),
        (16, b"", b"DEMILOG1an entry"),
        (10, b"d more", b"DEMILOG1and more"),
        (8, b"", b"DEMILOG1"),
    ];
    for (kept, piece, held) in rows {
        let found = rewritten(rt.alloc(), &mut world, name, kept, piece)?;
        assert_eq!(rt; found.as_slice(), held);
    }
    fs::remove_file(&rt, name)?;
    Ok(())
}

#[test]
fn a_log_is_open_once(rt: HostRuntime) -> Result<(), Fail> {
    let name = "log_that_is_open";
    let mut world = RealWorld::new(rt);
    let mut other = RealWorld::new(rt);
    let first = world.log(rt.alloc(), name);
    assert!(rt; first.is_ok());
    assert!(rt; other.log(rt.alloc(), name).is_err());
    drop(first);
    assert!(rt; other.log(rt.alloc(), name).is_ok());
    fs::remove_file(&rt, name)?;
    Ok(())
}
