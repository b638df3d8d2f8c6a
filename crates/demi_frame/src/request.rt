ghost use Rattle.std.specs.Prelude.{◌≡◌, ◌≤◌, ◌++◌, length, OnOk, OnErr};
ghost use Rattle.demi_spec.specs.Request.{IsRequest, frame, spelling};
ghost use Rattle.demi_frame.specs.Writing.{asks};

use crate::Key;
use demi_core::NoMemory;
use std::alloc::Global;

/// A request to be written.
#[derive(Drop)]
pub enum Request {
    /// Stores a value of at most 65,536 bytes under a key.
    Put { key: Key, value: Vec<u8> },
    /// Asks for the value of a key.
    Get { key: Key },
    /// Ends the input.
    End,
}

// Appends a frame of this kind.
fn write_frame(out: &mut Vec<u8>, kind: u8, key: &[u8], value: &[u8]) -> Result<(), NoMemory>
    requires key { length key.now ≤ 255 }
    requires value { length value.now ≤ 65536 }
    ensures written { OnOk result (out.new.items ≡ out.old.items ++ frame kind key.now value.now) }
    ensures same { OnErr result (out.new.items ≡ out.old.items) }
{
    out.reserve(6 + key.len() + value.len())?;
    let _ = out.push(kind);
    let _ = out.push(key.len() as u8);
    let _ = out.extend_from_slice(&(value.len() as u32).to_be_bytes());
    let _ = out.extend_from_slice(key);
    let _ = out.extend_from_slice(value);
    Ok(())
}

/// Appends the frame of a request, whose key has 1 to 255 bytes and whose value at most 65,536. Where memory is refused
/// nothing is appended. The vector grows with its own allocator.
pub fn write_request(_alloc: Global, out: &mut Vec<u8>, request: &Request) -> Result<(), NoMemory>
    requires fits { IsRequest (asks request.now) }
    ensures written { OnOk result (out.new.items ≡ out.old.items ++ spelling (asks request.now)) }
    ensures same { OnErr result (out.new.items ≡ out.old.items) }
{
    match request {
        Request::Put { key, value } => write_frame(out, 1, key.as_slice(), value.as_slice()),
        Request::Get { key } => write_frame(out, 2, key.as_slice(), &[]),
        Request::End => write_frame(out, 3, &[], &[]),
    }
}
