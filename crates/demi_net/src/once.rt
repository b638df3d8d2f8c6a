// One read or one write, begun again as often as the system says that it was interrupted: that is no fault.
ghost use Rattle.std.specs.Prelude.{◌<◌, ◌≤◌, length, IfSome};

use std::fs::File;
use std::io::{ErrorKind, Read, Write};
use std::os::unix::fs::FileExt;

// How many bytes came, or none at an error, to which 2^64 interrupted calls in a row count.
pub(crate) fn read_once<R: Read>(reader: &mut R, room: &mut [u8]) -> Option<usize>
    ensures { IfSome result (λ count. count ≤ length room.new) }
{
    'trying: for _call in 0..u64::MAX {
        match reader.read(room) {
            Ok(count) => return Some(count),
            Err(error) if error.kind() == ErrorKind::Interrupted => {}
            Err(_) => return None,
        }
    }
    None
}

// How many bytes were taken, at least one, or none at an error.
pub(crate) fn write_once<W: Write>(writer: &mut W, piece: &[u8]) -> Option<usize>
    ensures within { IfSome result (λ count. count ≤ length piece.now) }
    ensures some { IfSome result (λ count. 0 < count) }
{
    'trying: for _call in 0..u64::MAX {
        match writer.write(piece) {
            Ok(count) if count > 0 => return Some(count),
            Err(error) if error.kind() == ErrorKind::Interrupted => {}
            _ => return None,
        }
    }
    None
}

// How many bytes of a file came from a place on, at least one, or none at an error and at the end.
pub(crate) fn read_once_at(file: &File, room: &mut [u8], at: u64) -> Option<usize>
    ensures within { IfSome result (λ count. count ≤ length room.new) }
    ensures some { IfSome result (λ count. 0 < count) }
{
    'trying: for _call in 0..u64::MAX {
        match file.read_at(room, at) {
            Ok(count) if count > 0 => return Some(count),
            Err(error) if error.kind() == ErrorKind::Interrupted => {}
            _ => return None,
        }
    }
    None
}

// How many bytes a file took at a place, at least one, or none at an error.
pub(crate) fn write_once_at(file: &File, piece: &[u8], at: u64) -> Option<usize>
    ensures within { IfSome result (λ count. count ≤ length piece.now) }
    ensures some { IfSome result (λ count. 0 < count) }
{
    'trying: for _call in 0..u64::MAX {
        match file.write_at(piece, at) {
            Ok(count) if count > 0 => return Some(count),
            Err(error) if error.kind() == ErrorKind::Interrupted => {}
            _ => return None,
        }
    }
    None
}
