ghost use Rattle.std.specs.Prelude.{◌≡◌, ◌+◌, ◌<◌, ◌≤◌, ◌^◌, ℕ, List, suc, true, false, Err, IfOk, IfErr, MatchOption, MatchResult, length, map};
ghost use Rattle.std.specs.List.{AllByRecursion};
ghost use Rattle.demi_spec.specs.LogText.{put_first};
ghost use Rattle.demi_served.specs.Talks.{Run};
ghost use Rattle.demi_audit.specs.Transcript.{has, has_number, number_4, number_8, part_at, links_from, transcript, are_within, log_records};
ghost use Rattle.demi_audit.specs.Reading.{HasFields, IsInside, IsLogPart, ReadAs, link_by};

use crate::entries::{LogFault, begins_with, number_of_4, number_of_8, read_log};
use std::alloc::{AllocFailed, Global};

/// Where the input and the output of a link stand in a transcript.
#[derive(Clone, Copy, Debug, PartialEq, Eq)]
pub(crate) struct LinkPlaces {
    pub(crate) input: usize,
    pub(crate) input_size: usize,
    pub(crate) output: usize,
    pub(crate) output_size: usize,
}

/// A transcript that was read. Its bytes stay where they are.
#[derive(Drop)]
pub(crate) struct Transcript {
    pub(crate) limit: u32,
    pub(crate) old: u32,
    /// How many bytes the log has, from byte 28 on.
    pub(crate) log_size: usize,
    /// Where the entries of the log end in it.
    pub(crate) ends: Vec<usize>,
    pub(crate) links: Vec<LinkPlaces>,
}

/// Why no transcript was read.
#[derive(Clone, Copy, Debug, PartialEq, Eq)]
pub(crate) enum TranscriptFault {
    /// The bytes are no transcript. This is the first byte of the first bad field.
    Bad(usize),
    /// Memory was refused.
    NoMemory,
}

impl<T: Drop> From<AllocFailed<T>> for TranscriptFault {
    ghost use Rattle.demi_audit.specs.declared.transcript.TranscriptFault.TheVariants.{NoMemory};

    ghost from_gives = { λ _ r. r ≡ NoMemory };

    fn from(_: AllocFailed<T>) -> Self {
        TranscriptFault::NoMemory
    }
}

// The log of a transcript.
#[derive(Drop)]
pub(crate) enum LogPart {
    // It is cut off, or its length is.
    Cut,
    // It is no log text of records. This is its first bad byte.
    Bad(usize),
    // It is one, and its entries end there.
    Good(Vec<usize>),
}

const MARK: [u8; 8] = *b"DEMITRN1";

const LIMIT_AT: usize = 8;

const OLD_AT: usize = 12;

const LINKS_AT: usize = 16;

const LOG_SIZE_AT: usize = 20;

/// Where the log begins.
pub(crate) const LOG_AT: usize = 28;

const MAX_LIMIT: u32 = 1_000_000;

const MAX_LINKS: u32 = 16;

// Whether so many bytes stand at a place.
#[tactic(auto, using(std::proofs::lemmas::Bool::Decides::nat_tests))]
fn has(bytes: &[u8], at: usize, count: usize) -> bool
    ensures { result ≡ has bytes.now at count }
{
    at <= bytes.len() && count <= bytes.len() - at
}

// The number that four bytes spell at a place.
#[tactic(auto, unfolding(crate::specs::Transcript::number_4))]
fn number_4(bytes: &[u8], at: usize) -> u32
    requires { at + 4 ≤ length bytes.now }
    ensures { result ≡ number_4 bytes.now at }
{
    number_of_4(&bytes[at..at + 4])
}

// The number that eight bytes spell at a place.
#[tactic(auto, unfolding(crate::specs::Transcript::number_8))]
fn number_8(bytes: &[u8], at: usize) -> usize
    requires { at + 8 ≤ length bytes.now }
    ensures { result ≡ number_8 bytes.now at }
{
    number_of_8(&bytes[at..at + 8]) as usize
}

// The number that four bytes spell at a place, where they stand there and it is within bounds.
#[tactic(auto, using(std::proofs::lemmas::Bool::Decides::nat_tests), unfolding(crate::specs::Transcript::has_number))]
fn number_within(bytes: &[u8], at: usize, least: u32, most: u32) -> Option<u32>
    requires { at + 4 < 2 ^ 64 }
    ensures { MatchOption result (has_number bytes.now at least most ≡ false) (λ n. (n ≡ number_4 bytes.now at) × (has_number bytes.now at least most ≡ true)) }
{
    if !has(bytes, at, 4) {
        return None;
    }
    let number = number_4(bytes, at);
    if number < least || most < number {
        return None;
    }
    Some(number)
}

// The log of a transcript, and where it ends if it is good.
#[tactic(auto, unfolding(crate::specs::Transcript::log_records))]
fn read_log_part(alloc: Global, bytes: &[u8]) -> Result<LogPart, TranscriptFault>
    ensures read { IfOk result (λ log. IsLogPart log bytes.now) }
    ensures memory { IfErr result (λ e. e ≡ TranscriptFault.NoMemory) }
{
    if !has(bytes, LOG_SIZE_AT, 8) {
        return Ok(LogPart::Cut);
    }
    let size = number_8(bytes, LOG_SIZE_AT);
    if !has(bytes, LOG_AT, size) {
        return Ok(LogPart::Cut);
    }
    match read_log(alloc, &bytes[LOG_AT..LOG_AT + size]) {
        Ok(ends) => Ok(LogPart::Good(ends)),
        Err(LogFault::Bad(at)) => Ok(LogPart::Bad(at)),
        Err(LogFault::NoMemory) => Err(TranscriptFault::NoMemory),
    }
}

// Whether so many records are not more than those of the log, where these are known.
fn are_within(old: u32, log: &LogPart) -> bool
    ensures { (bytes : List ℕ) → IsLogPart log.now bytes → result ≡ are_within old (log_records bytes) }
{
    match log {
        LogPart::Good(ends) => old as usize <= ends.len(),
        LogPart::Cut => true,
        LogPart::Bad(_) => true,
    }
}

// How long the part is whose length stands at a place. Where one of the two is cut off, its first byte.
#[tactic(auto, using(std::proofs::lemmas::Bool::Decides::nat_tests), unfolding(crate::specs::Transcript::part_at))]
fn read_part(bytes: &[u8], at: usize) -> Result<usize, usize>
    requires { at ≤ length bytes.now }
    ensures part { result ≡ part_at bytes.now at }
    ensures within { IfOk result (λ size. at + 8 + size ≤ length bytes.now) }
{
    if !has(bytes, at, 8) {
        return Err(at);
    }
    let size = number_8(bytes, at);
    if !has(bytes, at + 8, size) {
        return Err(at + 8);
    }
    Ok(size)
}

// One link, whose input's length stands at a place. Where a part is cut off, its first byte.
fn read_link(bytes: &[u8], at: usize) -> Result<LinkPlaces, usize>
    requires { at ≤ length bytes.now }
    ensures link { IfOk result (λ p. (n : ℕ) → links_from (suc n) bytes.now at ≡ put_first (link_by bytes.now p) (links_from n bytes.now (p.output + p.output_size))) }
    ensures inside { IfOk result (λ p. IsInside (length bytes.now) p) }
    ensures bad { IfErr result (λ e. (n : ℕ) → links_from (suc n) bytes.now at ≡ Err e) }
{
    let input_size = read_part(bytes, at)?;
    let input = at + 8;
    let output_size = read_part(bytes, input + input_size)?;
    Ok(LinkPlaces {
        input,
        input_size,
        output: input + input_size + 8,
        output_size,
    })
}

// So many links, from a place on to the end of the text.
fn read_links(
    alloc: Global,
    bytes: &[u8],
    count: u32,
    from: usize,
) -> Result<Vec<LinkPlaces>, TranscriptFault>
    requires { from ≤ length bytes.now }
    ensures read { IfOk result (λ places. links_from count bytes.now from ≡ Ok (map (link_by bytes.now) places.items)) }
    ensures inside { IfOk result (λ places. AllByRecursion (IsInside (length bytes.now)) places.items) }
    ensures bad { IfErr result (λ e. (at : ℕ) → e ≡ TranscriptFault.Bad at → links_from count bytes.now from ≡ Err at) }
{
    let mut places = Vec::new(alloc);
    let mut at = from;
    'links: for i in 0..count {
        match read_link(bytes, at) {
            Ok(link) => {
                at = link.output + link.output_size;
                places.push(link)?;
            }
            Err(bad) => return Err(TranscriptFault::Bad(bad)),
        }
    }
    if at < bytes.len() {
        return Err(TranscriptFault::Bad(at));
    }
    Ok(places)
}

// The fields before the log.
#[derive(Clone, Copy)]
pub(crate) struct Fields {
    pub(crate) limit: u32,
    pub(crate) old: u32,
    pub(crate) links: u32,
    pub(crate) log_size: usize,
}

// The fields of a transcript before its log, which was looked at. Where one is bad, its first byte.
fn read_fields(bytes: &[u8], log: &LogPart) -> Result<Fields, usize>
    requires { IsLogPart log.now bytes.now }
    ensures fields { IfOk result (λ fields. HasFields bytes.now fields) }
    ensures bad { IfErr result (λ at. transcript bytes.now ≡ Err at) }
{
    if !begins_with(bytes, &MARK) {
        return Err(0);
    }
    let Some(limit) = number_within(bytes, LIMIT_AT, 1, MAX_LIMIT) else {
        return Err(LIMIT_AT);
    };
    if !has(bytes, OLD_AT, 4) {
        return Err(OLD_AT);
    }
    let old = number_4(bytes, OLD_AT);
    if !are_within(old, log) {
        return Err(OLD_AT);
    }
    let Some(links) = number_within(bytes, LINKS_AT, 1, MAX_LINKS) else {
        return Err(LINKS_AT);
    };
    if !has(bytes, LOG_SIZE_AT, 8) {
        return Err(LOG_SIZE_AT);
    }
    let log_size = number_8(bytes, LOG_SIZE_AT);
    Ok(Fields {
        limit,
        old,
        links,
        log_size,
    })
}

/// Reads a transcript. It takes eight bytes of memory for each record of its log, and while it grows as much again.
pub(crate) fn read_transcript(alloc: Global, bytes: &[u8]) -> Result<Transcript, TranscriptFault>
    ensures read { IfOk result (λ t. (run : Run) × (transcript bytes.now ≡ Ok run) × ReadAs t bytes.now run) }
    ensures bad { IfErr result (λ e. (at : ℕ) → e ≡ TranscriptFault.Bad at → transcript bytes.now ≡ Err at) }
{
    let log = read_log_part(alloc, bytes)?;
    let fields = match read_fields(bytes, &log) {
        Ok(fields) => fields,
        Err(at) => return Err(TranscriptFault::Bad(at)),
    };
    match log {
        LogPart::Cut => Err(TranscriptFault::Bad(LOG_AT)),
        LogPart::Bad(at) => Err(TranscriptFault::Bad(LOG_AT + at)),
        LogPart::Good(ends) => {
            let links = read_links(alloc, bytes, fields.links, LOG_AT + fields.log_size)?;
            Ok(Transcript {
                limit: fields.limit,
                old: fields.old,
                log_size: fields.log_size,
                ends,
                links,
            })
        }
    }
}
