ghost use Rattle.std.specs.Prelude.{◌≡◌, ◌++◌, ℕ, List, length as list_length};
ghost use Rattle.demi_spec.specs.Reply.{frame};

/// The kind of the reply to a put whose record was added. Its bytes are the value.
pub const STORED: u8 = 0x81;

/// The kind of the reply to a get that found a value. Its bytes are the value.
pub const FOUND: u8 = 0x82;

/// The kind of the reply to a get that found none. It has no bytes.
pub const MISSING: u8 = 0x83;

/// The kind of the reply to a refused frame. Its one byte is the code, from 1 to 5.
pub const REFUSED: u8 = 0x84;

/// The kind of the reply to an end frame. It has no bytes.
pub const BYE: u8 = 0x85;

/// The kind of the reply to a put on a full store. It has no bytes.
pub const FULL: u8 = 0x86;

/// The head of a reply, 22 bytes: its kind, the worker's number, the worker's sequence number, the version that it
/// names and the number of bytes that follow. Not checked: that the kind is one of a reply.
pub fn reply_head(kind: u8, worker: u8, sequence: u64, version: u64, length: u32) -> [u8; 22]
    ensures { (bytes : List ℕ) → length ≡ list_length bytes → result ++ bytes ≡ frame kind worker sequence version bytes }
{
    let mut head = [0; 22];
    head[0] = kind;
    head[1] = worker;
    head[2..10].copy_from_slice(&sequence.to_be_bytes());
    head[10..18].copy_from_slice(&version.to_be_bytes());
    head[18..22].copy_from_slice(&length.to_be_bytes());
    head
}

/// A reply as its head says it. Its bytes stand where it was read.
#[derive(Clone, Copy, Debug, PartialEq, Eq)]
pub struct Reply {
    /// One of [`STORED`], [`FOUND`], [`MISSING`], [`REFUSED`], [`BYE`] and [`FULL`].
    pub kind: u8,
    /// The number of the worker that answered.
    pub worker: u8,
    /// The worker's sequence number.
    pub sequence: u64,
    /// The version that it names, 0 where it names none.
    pub version: u64,
    /// Where its bytes begin in what was read.
    pub from: usize,
    /// The number of its bytes.
    pub length: u32,
}
