// A log text in memory: where its entries end, and which records they hold.
ghost use Rattle.std.specs.Prelude.{◌≡◌, ◌≢◌, ◌+◌, ◌<◌, ◌≤◌, ◌^◌, ℕ, List, [], length, take, drop, option_map, Some, Ok, Err, IfOk, IfErr, IfSome, get_or, bytes_eq};
ghost use Rattle.std.specs.Int.{w16, w32, w64, from_be_bytes, to_be_bytes};
ghost use Rattle.demi_spec.specs.Record.{Record, record_of, records as records_of_text};
ghost use Rattle.demi_spec.specs.LogText.{entries as entries_of_text};
ghost use Rattle.demi_logq.specs.Logged.{Found, Holds, place_of};
ghost use Rattle.demi_audit.specs.Entries.{Logs, record_by};

use std::alloc::{AllocFailed, Global};

/// Why no records were read.
#[derive(Clone, Copy, Debug, PartialEq, Eq)]
pub(crate) enum LogFault {
    /// The text is no log text of records. This is its first bad byte.
    Bad(usize),
    /// Memory was refused.
    NoMemory,
}

impl<T: Drop> From<AllocFailed<T>> for LogFault {
    ghost use Rattle.demi_audit.specs.declared.entries.LogFault.TheVariants.{NoMemory};

    ghost from_gives = { λ _ r. r ≡ NoMemory };

    fn from(_: AllocFailed<T>) -> Self {
        LogFault::NoMemory
    }
}

/// The fields of a payload that is a record. Its key follows seven bytes of head, and its value the key.
#[derive(Clone, Copy)]
pub(crate) struct Parts {
    pub(crate) link: u16,
    pub(crate) index: u32,
    pub(crate) key: usize,
}

// The number that two bytes spell.
fn number_of_2(field: &[u8]) -> u16
    requires { length field.now ≡ 2 }
    ensures value { result ≡ from_be_bytes w16 field.now }
{
    u16::from_be_bytes([field[0], field[1]])
}

/// The number that four bytes spell.
pub(crate) fn number_of_4(field: &[u8]) -> u32
    requires { length field.now ≡ 4 }
    ensures value { result ≡ from_be_bytes w32 field.now }
    ensures spelled { to_be_bytes w32 result ≡ field.now }
{
    u32::from_be_bytes([field[0], field[1], field[2], field[3]])
}

/// The number that eight bytes spell.
pub(crate) fn number_of_8(field: &[u8]) -> u64
    requires { length field.now ≡ 8 }
    ensures value { result ≡ from_be_bytes w64 field.now }
{
    u64::from_be_bytes([
        field[0], field[1], field[2], field[3], field[4], field[5], field[6], field[7],
    ])
}

/// What a log text begins with.
pub(crate) const HEADER: [u8; 8] = *b"DEMILOG1";

/// How many bytes the length of an entry has.
pub(crate) const LENGTH_BYTES: usize = 4;

const MAX_PAYLOAD_BYTES: usize = 65_798;

const MAX_VALUE_BYTES: usize = 65_536;

/// The fields of a payload, where it is a record.
#[tactic(auto, using(std::proofs::lemmas::Bool::Decides::nat_tests), unfolding(demi_spec::specs::Record::record_of))]
pub(crate) fn parts_of(payload: &[u8]) -> Option<Parts>
    ensures record { option_map (record_by payload.now) result ≡ record_of payload.now }
    ensures within { IfSome result (λ p. 7 + p.key ≤ length payload.now) }
{
    if payload.len() < 8 {
        return None;
    }
    let key = payload[6] as usize;
    if key == 0 || payload.len() < 7 + key || MAX_VALUE_BYTES + (7 + key) < payload.len() {
        return None;
    }
    Some(Parts {
        link: number_of_2(&payload[..2]),
        index: number_of_4(&payload[2..6]),
        key,
    })
}

/// Whether a text begins with another.
pub(crate) fn begins_with(text: &[u8], front: &[u8]) -> bool
    ensures { result ≡ bytes_eq (take (length front.now) text.now) front.now }
{
    let count = text.len().min(front.len());
    &text[..count] == front
}

// Where the entries of a text end that is not empty.
fn find_ends(alloc: Global, text: &[u8]) -> Result<Vec<usize>, LogFault>
    requires some { 0 < length text.now }
    ensures found { IfOk result (λ ends. Found (Some text.now) (length text.now) ends.items (length text.now)) }
    ensures bad { IfErr result (λ e. (at : ℕ) → e ≡ LogFault.Bad at → entries_of_text text.now ≡ Err at) }
    ensures within { IfErr result (λ e. (at : ℕ) → e ≡ LogFault.Bad at → at ≤ length text.now) }
{
    let mut ends = Vec::new(alloc);
    if !begins_with(text, &HEADER) {
        return Err(LogFault::Bad(0));
    }
    let mut at = HEADER.len();
    'finding: while at < text.len() {
        let rest = &text[at..];
        if rest.len() < LENGTH_BYTES {
            return Err(LogFault::Bad(at));
        }
        let length = number_of_4(&rest[..LENGTH_BYTES]) as usize;
        if length == 0 || length > MAX_PAYLOAD_BYTES || length > rest.len() - LENGTH_BYTES {
            return Err(LogFault::Bad(at));
        }
        at += LENGTH_BYTES + length;
        ends.push(at)?;
    }
    Ok(ends)
}

/// Where the entry of this number begins, from 0.
pub(crate) fn place(ends: &[usize], i: usize) -> usize
    requires { i ≤ length ends.now }
    ensures { result ≡ place_of ends.now i }
{
    if i == 0 { HEADER.len() } else { ends[i - 1] }
}

/// The payload of the entry of this number.
pub(crate) fn payload_at<'a>(text: &'a [u8], ends: &[usize], i: usize) -> &'a [u8]
    requires stands { (payloads : List (List ℕ)) × Holds (Some text.now) ends.now payloads }
    requires there { i < length ends.now }
    ensures { (payloads : List (List ℕ)) → Holds (Some text.now) ends.now payloads → result.now ≡ get_or payloads i [] }
{
    let start = place(ends, i) + LENGTH_BYTES;
    let end = place(ends, i + 1);
    &text[start..end]
}

/// Where the entries of a log text of records end.
pub(crate) fn read_log(alloc: Global, text: &[u8]) -> Result<Vec<usize>, LogFault>
    ensures read { IfOk result (λ ends. (records : List Record) × (records_of_text text.now ≡ Ok records) × Logs text.now ends.items records) }
    ensures bad { IfErr result (λ e. (at : ℕ) → e ≡ LogFault.Bad at → records_of_text text.now ≡ Err at) }
    ensures within { IfErr result (λ e. (at : ℕ) → e ≡ LogFault.Bad at → at ≤ length text.now) }
{
    if text.is_empty() {
        return Ok(Vec::new(alloc));
    }
    let ends = find_ends(alloc, text)?;
    'reading: for i in 0..ends.len() {
        if parts_of(payload_at(text, &ends, i)).is_none() {
            return Err(LogFault::Bad(place(&ends, i)));
        }
    }
    Ok(ends)
}
