// The command `check`: the audit of a transcript that a disk holds.
ghost use Rattle.std.specs.Prelude.{◌≡◌, ◌≢◌, ◌+◌, ◌<◌, ◌≤◌, ◌⊎◌, ℕ, length, take, IfErr, IfOk, IfSome, OnErr, OnOk};
ghost use Rattle.demi_core.specs.Outside.{HasCause, Rose};
ghost use Rattle.demi_cli.specs.Checking.{Checked, Consistent, Judged, Refuted};
ghost use Rattle.demi_server.specs.Logs.{contents, log_at};

use crate::outcome::Outcome;
use crate::printing::say_verdict;
use demi_audit::{CheckEnd, CheckRefusal, check};
use demi_core::{Disk, Failed, Halt, World};
use std::alloc::Global;

// How many bytes are read at once at most.
const ROOM_BYTES: usize = 4096;

// Reads on behind the bytes that were read, which are not all.
fn read_more<D: Disk>(disk: &mut D, text: &mut Vec<u8>, room: &mut [u8]) -> Result<(), Outcome>
    requires room { 0 < length room.old }
    requires more { length text.old.items < D.held disk.old }
    requires read { IfSome (D.bytes disk.old) (λ b. text.old.items ≡ take (length text.old.items) b) }
    ensures read { OnOk result (IfSome (D.bytes disk.old) (λ b. text.new.items ≡ take (length text.new.items) b)) }
    ensures within { OnOk result (length text.new.items ≤ D.held disk.old) }
    ensures further { OnOk result (length text.old.items < length text.new.items) }
    ensures room { length room.new ≡ length room.old }
    ensures refused { IfErr result (λ o. (o ≡ Outcome.NoMemory) ⊎ ((o ≡ Outcome.LogFault) × Rose (D.faults disk.old) (D.faults disk.new))) }
    ensures same_held { D.held disk.new ≡ D.held disk.old }
    ensures same_bytes { D.bytes disk.new ≡ D.bytes disk.old }
    ensures calls { D.looks disk.old disk.new }
    ensures later { D.faults disk.old ≤ D.faults disk.new }
{
    let at = text.len();
    let count = match disk.read_at(at as u64, room) {
        Ok(count) => count,
        Err(Failed) => return Err(Outcome::LogFault),
    };
    match text.extend_from_slice(&room[..count]) {
        Ok(()) => Ok(()),
        Err(_) => Err(Outcome::NoMemory),
    }
}

// All bytes that a disk holds.
fn read_all<D: Disk>(alloc: Global, disk: &mut D) -> Result<Vec<u8>, Outcome>
    ensures read { IfOk result (λ v. IfSome (D.bytes disk.old) (λ b. v.items ≡ b)) }
    ensures refused { IfErr result (λ o. (o ≡ Outcome.NoMemory) ⊎ ((o ≡ Outcome.LogFault) × Rose (D.faults disk.old) (D.faults disk.new))) }
    ensures same_held { D.held disk.new ≡ D.held disk.old }
    ensures same_bytes { D.bytes disk.new ≡ D.bytes disk.old }
    ensures calls { D.looks disk.old disk.new }
{
    let size = match disk.size() {
        Ok(size) => size,
        Err(Failed) => return Err(Outcome::LogFault),
    };
    let mut text = Vec::new(alloc);
    let mut room = [0; ROOM_BYTES];
    'reading: while (text.len() as u64) < size {
        match read_more(disk, &mut text, &mut room) {
            Ok(()) => {}
            Err(outcome) => return Err(outcome),
        }
    }
    Ok(text)
}

// What an audit says of a text.
fn audit(alloc: Global, text: &[u8]) -> Result<CheckEnd, Outcome>
    ensures consistent { IfOk result (λ end. Consistent end.links end.replies end.records text.now) }
    ensures refused { IfErr result (λ o. Judged o text.now) }
{
    match check(alloc, text) {
        Ok(end) => Ok(end),
        Err(CheckRefusal::BadTranscript(at)) => Err(Outcome::BadLog(at)),
        Err(CheckRefusal::Reply { link, index }) => Err(Outcome::BadReply(link, index)),
        Err(CheckRefusal::Entry { version }) => Err(Outcome::BadEntry(version)),
        Err(CheckRefusal::NoMemory) => Err(Outcome::NoMemory),
    }
}

// What it says of all that a disk holds.
fn audit_disk<D: Disk>(alloc: Global, disk: D) -> (D, Result<CheckEnd, Outcome>)
    ensures consistent { IfOk result.1 (λ end. IfSome (D.bytes disk) (Consistent end.links end.replies end.records)) }
    ensures refused { IfErr result.1 (λ o. Refuted o (log_at D.bytes D.held D.faults disk) (log_at D.bytes D.held D.faults result.0)) }
    ensures same { contents (D.bytes result.0) (D.held result.0) ≡ contents (D.bytes disk) (D.held disk) }
    ensures calls { D.looks disk result.0 }
{
    let mut disk = disk;
    match read_all(alloc, &mut disk) {
        Ok(text) => (disk, audit(alloc, &text)),
        Err(outcome) => (disk, Err(outcome)),
    }
}

/// Audits the transcript of a name, and says its line where it is consistent. The disk is kept as soon as it is read, and nothing is
/// written on it.
pub fn check_named<W: World>(alloc: Global, name: &str, world: &mut W) -> Outcome
    ensures checked { Checked result (W.state world.old) (W.state world.new) name.now (W.faults world.old) (W.faults world.new) (W.print_faults world.old) (W.print_faults world.new) }
    ensures later { W.faults world.old ≤ W.faults world.new }
    ensures later_prints { W.print_faults world.old ≤ W.print_faults world.new }
{
    let disk = match world.log(alloc, name) {
        Ok(disk) => disk,
        Err(Halt::Failed) => return Outcome::CannotOpen,
        Err(Halt::NoMemory) => return Outcome::NoMemory,
    };
    let (disk, verdict) = audit_disk(alloc, disk);
    world.keep_log(name, disk);
    let end = match verdict {
        Ok(end) => end,
        Err(outcome) => return outcome,
    };
    match say_verdict(world, end.links, end.replies, end.records) {
        Ok(()) => Outcome::Done,
        Err(Failed) => Outcome::PrintFault,
    }
}
