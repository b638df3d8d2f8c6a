// Reading a reply back from the bytes that spell it.
ghost use Rattle.std.specs.Prelude.{◌≡◌, ◌≤◌, ◌<◌, ◌+◌, ◌++◌, length, take, drop, true, false, IsTrue, ◌↔◌, IfOk, IfErr};
ghost use Rattle.demi_frame.specs.ReadBack.{ReadsBack, BeginsReply, IsNoReply};
ghost use Rattle.demi_frame.specs.Heads.{least_head, head_fits, code_is_bad, FieldsOf};

use crate::reply::{BYE, FOUND, FULL, MISSING, REFUSED, Reply, STORED};

/// Why no reply was read.
#[derive(Clone, Copy, Debug, PartialEq, Eq)]
pub enum ReplyRefusal {
    /// The bytes are a front of a reply, and more of it has to come. Nothing at all is such a front.
    Short,
    /// The bytes do not begin with a reply, and no reply begins with them.
    BadReply,
}

const HEAD_BYTES: usize = 22;

const MAX_VALUE_BYTES: u32 = 65_536;

// The least head of a reply that begins as the bytes do.
fn least_head(bytes: &[u8]) -> [u8; 22]
    requires { 0 < length bytes.now }
    ensures { result ≡ least_head bytes.now }
{
    let mut head = [0; HEAD_BYTES];
    if bytes[0] == REFUSED {
        head[21] = 1;
    }
    let count = bytes.len().min(HEAD_BYTES);
    head[..count].copy_from_slice(&bytes[..count]);
    head
}

// The fields of a head.
fn fields_of(head: &[u8]) -> Reply
    requires { length head.now ≡ 22 }
    ensures { FieldsOf head.now result }
{
    let (first, rest) = head.split_at(2);
    let (sequence, rest) = rest.split_at(8);
    let (version, length) = rest.split_at(8);
    Reply {
        kind: first[0],
        worker: first[1],
        sequence: u64::from_be_bytes([
            sequence[0],
            sequence[1],
            sequence[2],
            sequence[3],
            sequence[4],
            sequence[5],
            sequence[6],
            sequence[7],
        ]),
        version: u64::from_be_bytes([
            version[0], version[1], version[2], version[3], version[4], version[5], version[6],
            version[7],
        ]),
        from: HEAD_BYTES,
        length: u32::from_be_bytes([length[0], length[1], length[2], length[3]]),
    }
}

// Whether a head with these fields begins a reply.
#[tactic(auto, using(std::proofs::lemmas::Bool::Decides::nat_tests))]
fn head_fits(kind: u8, version: u64, length: u32) -> bool
    ensures { result ≡ head_fits kind version length }
{
    match kind {
        STORED | FOUND => length <= MAX_VALUE_BYTES,
        MISSING | FULL => length == 0,
        REFUSED => version == 0 && length == 1,
        BYE => version == 0 && length == 0,
        _ => false,
    }
}

// Whether the first byte behind a head is no code of a refusal.
#[tactic(auto, using(std::proofs::lemmas::Bool::Decides::nat_tests))]
fn code_is_bad(kind: u8, content: &[u8]) -> bool
    ensures { result ≡ code_is_bad kind content.now }
{
    if kind != REFUSED {
        return false;
    }
    match content.first() {
        Some(code) => *code == 0 || 5 < *code,
        None => false,
    }
}

/// Reads the reply that stands at the front of the bytes, and says how many bytes it has.
pub fn read_reply(bytes: &[u8]) -> Result<(Reply, usize), ReplyRefusal>
    ensures read { IfOk result (λ r. ReadsBack bytes.now r.0 r.1) }
    ensures short { IfErr result (λ e. e ≡ ReplyRefusal.Short → BeginsReply bytes.now) }
    ensures bad { IfErr result (λ e. e ≡ ReplyRefusal.BadReply → IsNoReply bytes.now) }
{
    if bytes.is_empty() {
        return Err(ReplyRefusal::Short);
    }
    let reply = fields_of(&least_head(bytes));
    if !head_fits(reply.kind, reply.version, reply.length) {
        return Err(ReplyRefusal::BadReply);
    }
    if bytes.len() < HEAD_BYTES {
        return Err(ReplyRefusal::Short);
    }
    let content = &bytes[HEAD_BYTES..];
    if code_is_bad(reply.kind, content) {
        return Err(ReplyRefusal::BadReply);
    }
    let length = reply.length as usize;
    if content.len() < length {
        return Err(ReplyRefusal::Short);
    }
    Ok((reply, HEAD_BYTES + length))
}
