// Runs over a world in memory.
use crate::running::run;
use demi_core::{MemDisk, MemSink, MemSource, MemWorld};
use std::alloc::Global;
use std::sync::Wait;
use std::test::Fail;
use std::thread::Threads;

// What a run is given: `pipe L` on an empty log.
#[derive(Clone, Copy)]
pub struct Setup<'a> {
    pub input: &'a [u8],
    pub piece: usize,
    pub old_log: &'a [u8],
    pub failing_reads: &'a [u64],
    pub failing_writes: &'a [u64],
    pub failing_appends: &'a [u64],
    pub failing_looks: &'a [u64],
    // How many bytes are printed at most.
    pub print_room: usize,
}

// What it left.
#[derive(Drop)]
pub struct Left {
    pub status: u8,
    pub said: Vec<u8>,
    pub warned: Vec<u8>,
    pub output: Vec<u8>,
    pub log: Vec<u8>,
    // The bytes of the input that were not taken.
    pub rest: usize,
    // How many operations the store's port of its session had, where one ran.
    pub asked: Option<u64>,
}

pub fn on_an_empty_log(input: &[u8]) -> Setup<'_> {
    Setup {
        input,
        piece: 100_000,
        old_log: b"",
        failing_reads: &[],
        failing_writes: &[],
        failing_appends: &[],
        failing_looks: &[],
        print_room: 100_000,
    }
}

fn words_of(alloc: Global, words: &[&str]) -> Result<Vec<String>, Fail> {
    let mut all = Vec::new(alloc);
    for word in words {
        all.push(word.to_string(alloc)?)?;
    }
    Ok(all)
}

fn world_of(alloc: Global, setup: &Setup) -> Result<MemWorld, Fail> {
    if setup.input.len() > 1 << 20 || setup.old_log.len() > 1 << 17 {
        return Err(Fail::from("a test's input is short"));
    }
    let source = MemSource::make(
        setup.input.to_vec(alloc)?,
        setup.piece.max(1),
        setup.failing_reads.to_vec(alloc)?,
    );
    let writes = setup.failing_writes.to_vec(alloc)?;
    let sink = MemSink::make(alloc, 1 << 17, 1 << 17, writes)?;
    let mut links = Vec::new(alloc);
    links.push((source, sink))?;
    let appends = setup.failing_appends.to_vec(alloc)?;
    let mut disk = MemDisk::make(alloc, setup.old_log, 1 << 17, appends)?;
    disk.fail_reads(setup.failing_looks.to_vec(alloc)?);
    let mut logs = Vec::new(alloc);
    logs.push(("L".to_string(alloc)?, disk))?;
    Ok(MemWorld::make(alloc, links, logs, setup.print_room, Vec::new(alloc))?)
}

pub fn run_of<R: Threads + Wait + Sync>(
    rt: &R,
    alloc: Global,
    words: &[&str],
    setup: &Setup,
) -> Result<Left, Fail> {
    let mut world = world_of(alloc, setup)?;
    let words = words_of(alloc, words)?;
    let mut ends = None;
    let status = run(rt, alloc, &words, &mut world, &mut ends);
    let asked = match &ends {
        Some(ends) => Some(ends.service.tickets()),
        None => None,
    };
    let (rest, output) = match world.link(0) {
        Some(link) => (link.0.bytes().len(), link.1.bytes()),
        None => (setup.input.len(), b"".as_slice()),
    };
    let log = match world.disk("L") {
        Some(disk) => disk.bytes(),
        None => b"no log",
    };
    Ok(Left {
        status,
        said: world.said().as_bytes().to_vec(alloc)?,
        warned: world.warned().as_bytes().to_vec(alloc)?,
        output: output.to_vec(alloc)?,
        log: log.to_vec(alloc)?,
        rest,
        asked,
    })
}

pub const PUTS_AND_GETS: &[u8] =
    b"\x01\x01\x00\x00\x00\x01a1\x02\x01\x00\x00\x00\x00a\x01\x01\x00\x00\x00\x01a2\x02\x01\x00\x00\x00\x00a\x03\x00\x00\x00\x00\x00";

pub const THEIR_LOG: &[u8] =
    b"DEMILOG1\x00\x00\x00\x09\x00\x00\x00\x00\x00\x00\x01a1\x00\x00\x00\x09\x00\x00\x00\x00\x00\x02\x01a2";
