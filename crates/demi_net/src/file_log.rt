ghost use Rattle.std.specs.Prelude.{◌≡◌, ◌+◌, ◌≤◌, ◌^◌, None, IfOk, IfSome, IsTrue, length, refl};
ghost use mathlib.Core.Path.{◌∙◌};

use crate::once::{read_once_at, write_once_at};
use crate::standard::is_standard;
use demi_core::{Disk, Failed, Halt};
use std::alloc::Global;
use std::fs::{File, OpenOptions};

// How many bytes a disk holds at most.
const MAX_HELD_BYTES: u64 = 1 << 40;

// How many bytes one read takes at most: a largest entry of a log with its length, so that each value is one read.
const READ_BYTES: usize = 65_802;

/// A file that is read at places, grows at its end and is cut there.
///
/// It keeps its number of bytes from the opening on. Not said: what the file holds, also where another program writes
/// it meanwhile.
#[derive(Drop)]
pub struct FileLog {
    file: File,
    held_bytes: u64,
    faults: u64,
    // Here a read of the system writes first: what it leaves of a room behind what it read is not promised.
    piece: Vec<u8>,
    ghost most: { held_bytes ≤ 2 ^ 40 },
}

// The file of that name, locked, and how many bytes it holds.
fn open_locked(rt: &HostRuntime, name: &str) -> Option<(File, u64)>
    ensures { IfSome result (λ p. p.1 ≤ 2 ^ 40) }
{
    let mut options = OpenOptions::new();
    options.read(true).write(true).create(true);
    let file = options.open(rt, name).ok()?;
    if file.try_lock().is_err() {
        return None;
    }
    let held_bytes = file.metadata().ok()?.len();
    if held_bytes > MAX_HELD_BYTES || is_standard(&file) {
        return None;
    }
    Some((file, held_bytes))
}

impl FileLog {
    /// The file of that name, made empty where there is none, and locked as long as it is open: two writers would tear
    /// each other's log. All memory that its calls need is taken here, before the file is touched.
    ///
    /// `NoMemory`; or `Failed` at an error, of a file that another opening has locked or that is above 2^40 bytes, and
    /// where the file would get the descriptor of a standard stream that is closed: what is meant for that stream would
    /// go into the log, and what stands in the log would come as input.
    pub fn open(rt: &HostRuntime, alloc: Global, name: &str) -> Result<FileLog, Halt>
        ensures { IfOk result (λ log. ⟦<FileLog as Disk>⟧.faults log ≡ 0) }
    {
        let Ok(piece) = Vec::from_elem(alloc, 0, READ_BYTES) else {
            return Err(Halt::NoMemory);
        };
        let Some((file, held_bytes)) = open_locked(rt, name) else {
            return Err(Halt::Failed);
        };
        Ok(FileLog {
            file,
            held_bytes,
            faults: 0,
            piece,
        })
    }

    // How many bytes it holds.
    pub(crate) fn held_bytes(&self) -> u64
        ensures { result ≡ self.now.held_bytes }
    {
        self.held_bytes
    }

    // How many faults there were.
    pub(crate) fn faults(&self) -> u64
        ensures { result ≡ self.now.faults }
    {
        self.faults
    }
}

impl Disk for FileLog {
    ghost held = { λ d. d.held_bytes };

    ghost bytes = { λ d. None };

    ghost faults = { λ d. d.faults };

    // It tells of its calls only how many bytes it then holds.
    ghost appends = { λ d piece ok e. IsTrue ok → e.held_bytes ≡ d.held_bytes + length piece };

    ghost cuts = { λ d len ok e. IsTrue ok → e.held_bytes ≡ len };

    ghost looks = { λ d e. e.held_bytes ≡ d.held_bytes };

    ghost looks_same = { λ d. refl };

    ghost looks_on = { λ a b c first then. then ∙ first };

    ghost told_held = { λ d. tt };

    ghost told_bytes = { λ d. tt };

    fn size(&mut self) -> Result<u64, Failed> {
        Ok(self.held_bytes)
    }

    fn read_at(&mut self, at: u64, room: &mut [u8]) -> Result<usize, Failed> {
        if at >= self.held_bytes {
            return Ok(0);
        }
        let piece = self.piece.as_mut_slice();
        let most = room.len().min(piece.len());
        let most = (self.held_bytes - at).min(most as u64) as usize;
        match read_once_at(&self.file, &mut piece[..most], at) {
            Some(count) => {
                room[..count].copy_from_slice(&piece[..count]);
                Ok(count)
            }
            None => {
                self.faults = self.faults.saturating_add(1);
                Err(Failed)
            }
        }
    }

    fn append(&mut self, piece: &[u8]) -> Result<(), Failed> {
        if piece.len() as u64 > MAX_HELD_BYTES - self.held_bytes {
            self.faults = self.faults.saturating_add(1);
            return Err(Failed);
        }
        let mut at = 0;
        'writing: while at < piece.len() {
            match write_once_at(&self.file, &piece[at..], self.held_bytes) {
                Some(count) => {
                    at += count;
                    self.held_bytes += count as u64;
                }
                None => {
                    self.faults = self.faults.saturating_add(1);
                    return Err(Failed);
                }
            }
        }
        Ok(())
    }

    fn cut(&mut self, len: u64) -> Result<(), Failed> {
        if self.file.set_len(len).is_err() {
            self.faults = self.faults.saturating_add(1);
            return Err(Failed);
        }
        self.held_bytes = len;
        Ok(())
    }
}
