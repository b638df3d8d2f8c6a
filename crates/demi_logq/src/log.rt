ghost use Rattle.std.specs.Prelude.{◌≡◌, ◌≢◌, ◌+◌, ◌-◌, ◌^◌, ◌<◌, ◌≤◌, ◌⊎◌, ◌↔◌, ℕ, List, [], ◌∷◌, ◌++◌, min, length, take, drop, get_or, true, false, Some, IfSome, IfOk, IfErr, OnOk, OnErr, Err, Ok, MatchResult, vec_capacity, vec_len};
ghost use Rattle.std.specs.Io.KnownBytes.{append_known};
ghost use Rattle.demi_core.specs.Outside.{HasCause, Rose, GrowsByFront, disk_max};
ghost use Rattle.demi_spec.specs.LogText.{entries, entry, header};
ghost use Rattle.demi_logq.specs.Calls.{Committed, Shortened};
ghost use Rattle.demi_logq.specs.Logged.{Logged, Holds, Stands, Opened, OpenedBy, NotOpenedBy, LeftAs, StandsAs, IsSound, place_of};
ghost use Rattle.demi_logq.specs.Reading.{IsAhead};

use crate::ahead::{Ahead, ahead_front};
use crate::opening::open;
use crate::reading::read_front;
use crate::refusal::LogRefusal;
use crate::sizes::{HEADER, LENGTH_BYTES};
use crate::staging::{empty_stage, fill_length};
use demi_core::{Disk, Failed};
use std::alloc::Global;
use std::marker::Model;

/// A log of entries on a disk.
pub struct Log<D: Disk> {
    disk: D,
    // Where each entry ends.
    ends: Vec<u64>,
    // Four bytes for the length, and what is staged.
    stage: Vec<u8>,
    limit: u64,
    torn: bool,
    lost: bool,
}

impl<D: Disk> Model for Log<D> {
    ghost use Rattle.std.specs.Prelude.{drop, vec_capacity};
    ghost use Rattle.demi_logq.specs.Logged.{Logged, IsLogged};

    ghost Value = { Logged D };

    ghost view = { λ l. record { disk = l.disk; ends = l.ends.items; staged = drop 4 l.stage.items; limit = l.limit; torn = l.torn; lost = l.lost } };

    ghost invariant = { λ l. IsLogged (D.bytes l.disk) (D.held l.disk) l.ends.items (vec_capacity l.ends) l.stage.items (vec_capacity l.stage) l.limit l.torn l.lost };
}

// Where an entry begins, or the last one ends.
fn place(ends: &[u64], i: usize) -> u64
    requires { i ≤ length ends.now }
    ensures { result ≡ place_of ends.now i }
{
    if i == 0 {
        HEADER.len() as u64
    } else {
        ends[i - 1]
    }
}

impl<D: Disk> Log<D> {
    /// Reads a disk as a log. An empty one gets its header.
    pub fn make(alloc: Global, disk: D, limit: u32) -> Result<Log<D>, (D, LogRefusal)>
        requires limit { (1 ≤ limit) × (limit ≤ 1000000) }
        ensures opened { IfOk result (λ l. Opened (D.bytes disk) (D.bytes l.disk) (D.held l.disk) l.ends) }
        ensures stands { IfOk result (λ l. StandsAs (D.bytes disk) (D.bytes l.disk) (D.held disk) (D.held l.disk)) }
        ensures fresh { IfOk result (λ l. IsSound l × (l.staged ≡ []) × (l.limit ≡ limit)) }
        ensures calls { IfOk result (λ l. OpenedBy D.looks D.appends (D.held disk) disk l.disk) }
        ensures bad { IfErr result (λ e. (at : ℕ) → e.1 ≡ LogRefusal.BadLog at → IfSome (D.bytes disk) (λ b. entries b ≡ Err at)) }
        ensures place { IfErr result (λ e. (at : ℕ) → e.1 ≡ LogRefusal.BadLog at → at < D.held disk) }
        ensures left { IfErr result (λ e. LeftAs (D.bytes disk) (D.bytes e.0) (D.held disk) (D.held e.0)) }
        ensures other { IfErr result (λ e. (e.1 ≢ LogRefusal.Full) × (e.1 ≢ LogRefusal.Broken)) }
        ensures failed { IfErr result (λ e. e.1 ≡ LogRefusal.Failed → Rose (D.faults disk) (D.faults e.0)) }
        ensures refused { IfErr result (λ e. NotOpenedBy D.looks D.appends (D.held disk) disk e.0) }
        ensures later { MatchResult result (λ l. D.faults disk ≤ D.faults l.disk) (λ e. D.faults disk ≤ D.faults e.0) }
    {
        let mut disk = disk;
        let Ok(stage) = empty_stage(alloc) else {
            return Err((disk, LogRefusal::NoMemory));
        };
        let Ok(mut ahead) = Ahead::make(alloc) else {
            return Err((disk, LogRefusal::NoMemory));
        };
        let mut ends = Vec::new(alloc);
        match open(&mut disk, &mut ahead, &mut ends, limit) {
            Ok(()) => Ok(Log {
                disk,
                ends,
                stage,
                limit: limit as u64,
                torn: false,
                lost: false,
            }),
            Err(e) => Err((disk, e)),
        }
    }

    /// The number of entries.
    pub fn count(&self) -> u64
        ensures count { result ≡ length self.now.ends }
        ensures stands { self.now.lost ≡ false → Stands (D.bytes self.now.disk) (D.held self.now.disk) self.now.ends self.now.torn }
    {
        self.ends.len() as u64
    }

    /// Adds bytes to the next entry.
    pub fn stage(&mut self, piece: &[u8])
        requires { length self.old.staged + length piece.now ≤ 65798 }
        ensures { self.new ≡ record self.old { staged = self.old.staged ++ piece.now } }
    {
        let _ = self.stage.extend_from_slice(piece);
    }

    /// What is staged for the next entry.
    pub fn staged(&self) -> &[u8]
        ensures { result.now ≡ self.now.staged }
    {
        &self.stage[LENGTH_BYTES..]
    }

    /// Forgets what is staged.
    pub fn unstage(&mut self)
        ensures { self.new ≡ record self.old { staged = [] } }
    {
        self.stage.truncate(LENGTH_BYTES);
    }

    /// The payload of an entry, in the front of the room, and its length.
    pub fn get(&mut self, i: u64, room: &mut [u8]) -> Result<u32, Failed>
        requires lost { self.old.lost ≡ false }
        requires there { i < length self.old.ends }
        requires room { length room.old ≡ 65798 }
        ensures size { IfOk result (λ n. (payloads : List (List ℕ)) → Holds (D.bytes self.old.disk) self.old.ends payloads → n ≡ length (get_or payloads i [])) }
        ensures payload { IfOk result (λ n. (payloads : List (List ℕ)) → Holds (D.bytes self.old.disk) self.old.ends payloads → IfSome (D.bytes self.old.disk) (λ b. take n room.new ≡ get_or payloads i [])) }
        ensures same { self.new ≡ record self.old { disk = self.new.disk } }
        ensures same_bytes { D.bytes self.new.disk ≡ D.bytes self.old.disk }
        ensures same_held { D.held self.new.disk ≡ D.held self.old.disk }
        ensures calls { D.looks self.old.disk self.new.disk }
        ensures cause { HasCause (D.faults self.old.disk) (D.faults self.new.disk) result }
    {
        let index = i as usize;
        let start = place(&self.ends, index);
        let end = place(&self.ends, index + 1);
        let size = (end - start) as usize - LENGTH_BYTES;
        read_front(&mut self.disk, start + LENGTH_BYTES as u64, size, room)?;
        Ok(size as u32)
    }

    /// Where the payload of an entry stands on the disk, and how many bytes it has.
    pub fn span(&self, i: u64) -> (u64, usize)
        requires lost { self.now.lost ≡ false }
        requires there { i < length self.now.ends }
        ensures place { result.0 ≡ place_of self.now.ends i + 4 }
        ensures size { (payloads : List (List ℕ)) → Holds (D.bytes self.now.disk) self.now.ends payloads → result.1 ≡ length (get_or payloads i []) }
        ensures some { 0 < result.1 }
        ensures most { result.1 ≤ 65798 }
        ensures within { result.0 + result.1 ≤ D.held self.now.disk }
        ensures fits { result.0 + result.1 ≤ disk_max }
    {
        let index = i as usize;
        let start = place(&self.ends, index);
        let end = place(&self.ends, index + 1);
        (
            start + LENGTH_BYTES as u64,
            (end - start) as usize - LENGTH_BYTES,
        )
    }

    /// The bytes of a payload from one of them on, in the front of the room, and how many: until the room or the payload
    /// ends. They are read straight into the room.
    pub fn part(&mut self, i: u64, from: usize, room: &mut [u8]) -> Result<usize, Failed>
        requires lost { self.old.lost ≡ false }
        requires there { i < length self.old.ends }
        ensures size { IfOk result (λ n. (payloads : List (List ℕ)) → Holds (D.bytes self.old.disk) self.old.ends payloads → n ≡ min (length room.old) (length (get_or payloads i []) - from)) }
        ensures part { IfOk result (λ n. (payloads : List (List ℕ)) → Holds (D.bytes self.old.disk) self.old.ends payloads → IfSome (D.bytes self.old.disk) (λ b. take n room.new ≡ take n (drop from (get_or payloads i [])))) }
        ensures same { self.new ≡ record self.old { disk = self.new.disk } }
        ensures same_bytes { D.bytes self.new.disk ≡ D.bytes self.old.disk }
        ensures same_held { D.held self.new.disk ≡ D.held self.old.disk }
        ensures calls { D.looks self.old.disk self.new.disk }
        ensures cause { HasCause (D.faults self.old.disk) (D.faults self.new.disk) result }
    {
        let (start, size) = self.span(i);
        if from >= size {
            return Ok(0);
        }
        let count = room.len().min(size - from);
        read_front(&mut self.disk, start + from as u64, count, room)?;
        Ok(count)
    }

    /// The front of a payload, as `part` from its first byte on. It reads on from what was read ahead: going through the
    /// entries in their order costs no more than reading the disk in large pieces.
    pub fn front(&mut self, i: u64, ahead: &mut Ahead, room: &mut [u8]) -> Result<usize, Failed>
        requires lost { self.old.lost ≡ false }
        requires there { i < length self.old.ends }
        requires ahead { IsAhead (D.bytes self.old.disk) (D.held self.old.disk) ahead.old }
        requires room { length room.old ≤ vec_len ahead.old.room }
        ensures size { IfOk result (λ n. (payloads : List (List ℕ)) → Holds (D.bytes self.old.disk) self.old.ends payloads → n ≡ min (length room.old) (length (get_or payloads i []))) }
        ensures part { IfOk result (λ n. (payloads : List (List ℕ)) → Holds (D.bytes self.old.disk) self.old.ends payloads → IfSome (D.bytes self.old.disk) (λ b. take n room.new ≡ take n (get_or payloads i []))) }
        ensures ahead { IsAhead (D.bytes self.old.disk) (D.held self.old.disk) ahead.new }
        ensures room { vec_len ahead.new.room ≡ vec_len ahead.old.room }
        ensures same { self.new ≡ record self.old { disk = self.new.disk } }
        ensures same_bytes { D.bytes self.new.disk ≡ D.bytes self.old.disk }
        ensures same_held { D.held self.new.disk ≡ D.held self.old.disk }
        ensures calls { D.looks self.old.disk self.new.disk }
        ensures cause { HasCause (D.faults self.old.disk) (D.faults self.new.disk) result }
    {
        let (start, size) = self.span(i);
        let count = room.len().min(size);
        ahead_front(&mut self.disk, start, count, ahead, room)?;
        Ok(count)
    }

    /// Appends what is staged as an entry, and says its index. Nothing is staged afterwards.
    pub fn commit(&mut self) -> Result<u64, LogRefusal>
        requires { 0 < length self.old.staged }
        ensures done { Committed D.bytes D.held D.faults D.appends self.old self.new result }
        ensures later { D.faults self.old.disk ≤ D.faults self.new.disk }
    {
        if self.torn || self.lost {
            self.stage.truncate(LENGTH_BYTES);
            return Err(LogRefusal::Broken);
        }
        let count = self.ends.len() as u64;
        if count >= self.limit {
            self.stage.truncate(LENGTH_BYTES);
            return Err(LogRefusal::Full);
        }
        fill_length(&mut self.stage);
        let end = place(&self.ends, self.ends.len()) + self.stage.len() as u64;
        let appended = self.disk.append(&self.stage);
        self.stage.truncate(LENGTH_BYTES);
        match appended {
            Ok(()) => {
                self.ends.push_reserved(end);
                Ok(count)
            }
            Err(_) => {
                self.torn = true;
                Err(LogRefusal::Failed)
            }
        }
    }

    /// Keeps the first entries alone.
    pub fn keep(&mut self, n: u64) -> Result<(), LogRefusal>
        requires { n ≤ length self.old.ends }
        ensures done { Shortened D.bytes D.held D.faults D.cuts self.old self.new n result }
        ensures later { D.faults self.old.disk ≤ D.faults self.new.disk }
    {
        if self.torn || self.lost {
            return Err(LogRefusal::Broken);
        }
        let count = n as usize;
        match self.disk.cut(place(&self.ends, count)) {
            Ok(()) => {
                self.ends.truncate(count);
                Ok(())
            }
            Err(_) => {
                self.lost = true;
                Err(LogRefusal::Failed)
            }
        }
    }

    /// The disk.
    pub fn disk(self) -> D
        ensures { result ≡ self.disk }
    {
        let Log {
            disk,
            ends: _,
            stage: _,
            limit: _,
            torn: _,
            lost: _,
        } = self;
        disk
    }
}
