ghost use Rattle.std.specs.Prelude.{◌≡◌, ◌≢◌, ◌+◌, ◌<◌, ◌≤◌, ◌++◌, List, [], ◌∷◌, ℕ, Some, None, length, false, IfOk, IfErr, IfSome, Ok, Err, MatchResult, map};
ghost use Rattle.std.specs.Int.{w16, w32, to_be_bytes};
ghost use Rattle.demi_core.specs.Outside.{Rose};
ghost use Rattle.demi_spec.specs.Record.{Record, payload, record_of, records as records_of_text};
ghost use Rattle.demi_logq.specs.Logged.{Holds, IsSound};
ghost use Rattle.demi_store.specs.Cores.{Core, CorePut, drafted};
ghost use Rattle.demi_buf.specs.declared.class.Class.TheVariants.{Large as large};
ghost use Rattle.demi_store.specs.Laws.{SameSlot};
ghost use Rattle.demi_store.specs.Openings.{BeginsEntry};
ghost use Rattle.demi_store.specs.Shelves.{GotIs};

use crate::StoreAnswer;
use crate::index::Index;
use crate::opening::{both, no_records, read_all};
use crate::records::Records;
use crate::shelf::Shelf;
use demi_core::Disk;
use demi_device::Mark;
use demi_frame::Key;
use demi_heap::AppBuf;
use demi_logq::{Log, LogRefusal};
use demi_port_core::Place;
use std::alloc::Global;
use std::marker::Model;

/// A store over a log of records. It has an index of the keys in memory, and reads values from the log. Contracts see its log, its
/// records, how many there may be, the record that is begun, and the place at which the disk failed.
pub struct StoreCore<D: Disk> {
    alloc: Global,
    // The payload of the record that is begun is staged in its log.
    shelf: Shelf<D>,
    records: Mark<Records>,
}

impl<D: Disk> Model for StoreCore<D> {
    ghost use Rattle.demi_spec.specs.Record.{record_of};
    ghost use Rattle.demi_store.specs.Cores.{Core, IsCore, unstaged};

    ghost Value = { Core D };

    ghost view = { λ s. record { log = unstaged s.shelf.log; records = s.records.value; limit = s.shelf.limit; begun = record_of s.shelf.log.staged; fault = s.shelf.fault } };

    ghost invariant = { λ s. IsCore D.bytes s.shelf.log s.shelf.index s.shelf.limit s.shelf.fault s.records.value };
}

// Stages the payload of a record without a value.
fn stage_head<D: Disk>(log: &mut Log<D>, link: u16, index: u32, key: &[u8])
    requires none { log.old.staged ≡ [] }
    requires key { length key.now ≤ 255 }
    ensures { log.new ≡ record log.old { staged = to_be_bytes w16 link ++ to_be_bytes w32 index ++ length key.now ∷ key.now } }
{
    log.stage(&link.to_be_bytes());
    log.stage(&index.to_be_bytes());
    log.stage(&[key.len() as u8]);
    log.stage(key);
}

// The record whose payload is staged.
fn staged_record<D: Disk>(log: &Log<D>) -> Mark<Records>
    ensures { result.value ≡ drafted (record_of log.now.staged) }
{
    Mark::from(log, &())
}

impl<D: Disk> StoreCore<D> {
    /// A store over a log of which no commit and no cut has failed and in which nothing is staged: it reads the entries as records, of
    /// which there may be `limit`, at most as many as the log allows. A put takes no memory but that of its key.
    ///
    /// `BadLog` exactly where an entry is no record, with the place of the first such entry's first byte, where the disk tells its
    /// bytes; where it does not, that is the place of an entry. `Failed` only where the disk's count of faults rose; `NoMemory`. The
    /// log comes back as it was, and a refusal leaves it in use.
    pub fn make(
        alloc: Global,
        log: Log<D>,
        limit: u32,
    ) -> Result<StoreCore<D>, (Log<D>, LogRefusal)>
        requires limit { limit ≤ log.limit }
        requires staged { log.staged ≡ [] }
        requires sound { IsSound log }
        ensures read { IfOk result (λ s. IfSome (D.bytes log.disk) (λ b. records_of_text b ≡ Ok s.records)) }
        ensures count { IfOk result (λ s. length s.records ≡ length log.ends) }
        ensures fresh { IfOk result (λ s. (s.begun ≡ None) × (s.fault ≡ None) × (s.limit ≡ limit)) }
        ensures log { IfOk result (λ s. s.log ≡ record log { disk = s.log.disk }) }
        ensures holds { IfOk result (λ s. Holds (D.bytes s.log.disk) s.log.ends (map payload s.records)) }
        ensures bad { IfErr result (λ e. (at : ℕ) → e.1 ≡ LogRefusal.BadLog at → IfSome (D.bytes log.disk) (λ b. records_of_text b ≡ Err at)) }
        ensures place { IfErr result (λ e. (at : ℕ) → e.1 ≡ LogRefusal.BadLog at → BeginsEntry log.ends at) }
        ensures other { IfErr result (λ e. (e.1 ≢ LogRefusal.Full) × (e.1 ≢ LogRefusal.Broken)) }
        ensures failed { IfErr result (λ e. e.1 ≡ LogRefusal.Failed → Rose (D.faults log.disk) (D.faults e.0.disk)) }
        ensures back { IfErr result (λ e. e.0 ≡ record log { disk = e.0.disk }) }
        ensures bytes { MatchResult result (λ s. D.bytes s.log.disk ≡ D.bytes log.disk) (λ e. D.bytes e.0.disk ≡ D.bytes log.disk) }
        ensures held { MatchResult result (λ s. D.held s.log.disk ≡ D.held log.disk) (λ e. D.held e.0.disk ≡ D.held log.disk) }
        ensures calls { MatchResult result (λ s. D.looks log.disk s.log.disk) (λ e. D.looks log.disk e.0.disk) }
        ensures later { MatchResult result (λ s. D.faults log.disk ≤ D.faults s.log.disk) (λ e. D.faults log.disk ≤ D.faults e.0.disk) }
    {
        let mut log = log;
        let mut index = Index::new(alloc);
        let mut records = no_records();
        match read_all(alloc, &mut log, &mut index, &mut records) {
            Ok(()) => Ok(StoreCore {
                alloc,
                shelf: Shelf {
                    log,
                    index,
                    limit: limit as u64,
                    fault: None,
                },
                records,
            }),
            Err(e) => Err((log, e)),
        }
    }

    /// Begins the record of request `index` of a link, both from 0, with no value yet.
    pub fn begin(&mut self, link: u16, index: u32, key: &Key)
        requires none { self.old.begun ≡ None }
        requires key { 0 < length key.now.items }
        ensures { self.new ≡ record self.old { begun = Some (record { link = link; index = index; key = key.now.items; value = [] }) } }
    {
        stage_head(&mut self.shelf.log, link, index, key.as_slice());
    }

    /// Adds bytes to the value of the record that is begun, of which there are at most 65,536.
    pub fn piece(&mut self, bytes: &[u8])
        requires begun { self.old.begun ≢ None }
        requires fits { (r : Record) → self.old.begun ≡ Some r → length r.value + length bytes.now ≤ 65536 }
        ensures more { (r : Record) → self.old.begun ≡ Some r → self.new ≡ record self.old { begun = Some (record r { value = r.value ++ bytes.now }) } }
        ensures still { self.new.begun ≢ None }
    {
        self.shelf.log.stage(bytes);
    }

    /// Appends the record that is begun, by one append of the disk, unless there are as many as there may be. Memory is taken before,
    /// so that where it is refused nothing is appended. Nothing is begun afterwards.
    ///
    /// `Broken` exactly after a `Fault`, with its place; `Full` exactly at the limit; `Fault` only where the disk's count of faults
    /// rose, and a front of the record's entry may then stand behind the others; `NoMemory`; else `Stored`.
    pub fn put(&mut self, place: Place) -> StoreAnswer
        requires begun { self.old.begun ≢ None }
        ensures put { (r : Record) → self.old.begun ≡ Some r → CorePut D.bytes D.held D.faults D.appends self.old self.new place.0 r result }
        ensures none { self.new.begun ≡ None }
        ensures later { D.faults self.old.log.disk ≤ D.faults self.new.log.disk }
    {
        let record = staged_record(&self.shelf.log);
        let answer = self.shelf.put(self.alloc, place, &self.records);
        self.shelf.log.unstage();
        if let StoreAnswer::Stored(_) = answer {
            self.records = both(&self.records, &record);
        }
        answer
    }

    /// The value that was put last under the key, in the front of the room, which has 65,536 bytes, and its length: it is read from the
    /// disk straight into the room, and nothing else is read. It takes no memory.
    ///
    /// `Broken` exactly after a `Fault`, with its place; `Missing` exactly where no record has the key; `Fault` only where the disk's
    /// count of faults rose; else `Found`. The length is 0 but for `Found`.
    pub fn get(&mut self, place: Place, key: &Key, room: &mut [u8]) -> (StoreAnswer, u32)
        requires room { length room.old ≡ 65536 }
        ensures got { GotIs D.bytes D.faults self.old.log self.old.fault self.new.log self.new.fault self.old.records place.0 key.now.items room.new result.0 result.1 }
        ensures size { result.1 ≤ 65536 }
        ensures same { self.new ≡ record self.old { log = self.new.log; fault = self.new.fault } }
        ensures log { self.new.log ≡ record self.old.log { disk = self.new.log.disk } }
        ensures bytes { D.bytes self.new.log.disk ≡ D.bytes self.old.log.disk }
        ensures held { D.held self.new.log.disk ≡ D.held self.old.log.disk }
        ensures calls { D.looks self.old.log.disk self.new.log.disk }
        ensures later { D.faults self.old.log.disk ≤ D.faults self.new.log.disk }
    {
        self.shelf.get(place, key.as_slice(), room, &self.records)
    }

    /// The same into a room of the heap, of class Large, whose bytes are then just those of the value, and none where there is none.
    pub(crate) fn fetch(&mut self, place: Place, key: &Key, room: &mut AppBuf) -> StoreAnswer
        requires room { room.old.class ≡ large }
        ensures got { GotIs D.bytes D.faults self.old.log self.old.fault self.new.log self.new.fault self.old.records place.0 key.now.items room.new.bytes result (length room.new.bytes) }
        ensures room { SameSlot room.old room.new }
        ensures same { self.new ≡ record self.old { log = self.new.log; fault = self.new.fault } }
        ensures log { self.new.log ≡ record self.old.log { disk = self.new.log.disk } }
        ensures bytes { D.bytes self.new.log.disk ≡ D.bytes self.old.log.disk }
        ensures held { D.held self.new.log.disk ≡ D.held self.old.log.disk }
        ensures calls { D.looks self.old.log.disk self.new.log.disk }
        ensures later { D.faults self.old.log.disk ≤ D.faults self.new.log.disk }
    {
        self.shelf.fetch(place, key.as_slice(), room, &self.records)
    }

    /// The log.
    pub fn into_log(self) -> Log<D>
        ensures { result ≡ self.log }
    {
        let StoreCore {
            alloc: _,
            shelf,
            records: _,
        } = self;
        let Shelf {
            mut log,
            index: _,
            limit: _,
            fault: _,
        } = shelf;
        log.unstage();
        log
    }
}
