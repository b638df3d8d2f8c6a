// The log of a transcript, with its records by their keys.
ghost use Rattle.std.specs.Prelude.{◌≡◌, ◌+◌, ◌-◌, ◌<◌, ◌≤◌, ℕ, List, length, take, get_or, slice_get, IfOk, bytes_eq};
ghost use Rattle.std.specs.Option.{option_copied};
ghost use Rattle.demi_spec.specs.Record.{Record};
ghost use Rattle.demi_spec.specs.Store.{map};
ghost use Rattle.demi_served.specs.Talks.{Run};
ghost use Rattle.demi_audit.specs.Entries.{Logs};
ghost use Rattle.demi_audit.specs.Past.{PastOf, no_record};
ghost use Rattle.demi_audit.specs.Verdict.{is_record, is_value};
ghost use Rattle.demi_audit.specs.Book.{IsBook, as_record};

use crate::entries::{parts_of, payload_at};
use crate::past::Past;
use demi_core::NoMemory;
use std::alloc::Global;

/// A record, whose key and value stand where they were read.
#[derive(Clone, Copy)]
pub(crate) struct Entry<'a> {
    pub(crate) link: u16,
    pub(crate) index: u32,
    pub(crate) key: &'a [u8],
    pub(crate) value: &'a [u8],
}

/// The log of a transcript, how many of its records are old, and how many it may have.
#[derive(Drop)]
pub(crate) struct Book<'a> {
    pub(crate) text: &'a [u8],
    /// Where its entries end in its text.
    pub(crate) ends: Vec<usize>,
    pub(crate) past: Past,
    pub(crate) old: u32,
    pub(crate) limit: u32,
}

const HEAD_BYTES: usize = 7;

// The record at a place of a log, from 0.
fn entry_at<'a>(text: &'a [u8], ends: &[usize], i: usize) -> Entry<'a>
    requires { (rs : List Record) × Logs text.now ends.now rs × (i < length rs) }
    ensures { (rs : List Record) → Logs text.now ends.now rs → as_record result ≡ get_or rs i no_record }
{
    let payload = payload_at(text, ends, i);
    let parts = parts_of(payload).unwrap();
    let (_, content) = payload.split_at(HEAD_BYTES);
    let (key, value) = content.split_at(parts.key);
    Entry {
        link: parts.link,
        index: parts.index,
        key,
        value,
    }
}

// The records of a log by their keys.
fn find_past(alloc: Global, text: &[u8], ends: &[usize]) -> Result<Past, NoMemory>
    requires { (rs : List Record) × Logs text.now ends.now rs }
    ensures { (rs : List Record) → Logs text.now ends.now rs → IfOk result (λ p. PastOf p rs) }
{
    let mut past = Past::new(alloc, ends.len())?;
    'adding: for i in 0..ends.len() {
        past.add(alloc, entry_at(text, ends, i).key)?;
    }
    Ok(past)
}

// Whether an entry is this record.
fn is_record(entry: &Entry<'_>, link: u32, index: usize, key: &[u8], value: &[u8]) -> bool
    ensures { result ≡ is_record (Some (as_record entry.now)) link index key.now value.now }
{
    u32::from(entry.link) == link
        && entry.index as usize == index
        && entry.key == key
        && entry.value == value
}

// Whether two values are the same, or there is none of either.
fn is_value(a: Option<&[u8]>, b: Option<&[u8]>) -> bool
    ensures { result ≡ is_value (option_copied a.entry) (option_copied b.entry) }
{
    match (a, b) {
        (Some(a), Some(b)) => a == b,
        (None, None) => true,
        _ => false,
    }
}

impl Book<'_> {
    /// The number of its records.
    pub(crate) fn count(&self) -> usize
        ensures { (run : Run) → IsBook self.now run → result ≡ length run.records }
    {
        self.ends.len()
    }

    /// Whether record number `version`, from 1, is this one.
    pub(crate) fn has_record(
        &self,
        version: usize,
        link: u32,
        index: usize,
        key: &[u8],
        value: &[u8],
    ) -> bool
        requires book { (run : Run) × IsBook self.now run × (version ≤ length run.records) }
        requires some { 0 < version }
        ensures { (run : Run) → IsBook self.now run → result ≡ is_record (slice_get run.records (version - 1)) link index key.now value.now }
    {
        is_record(
            &entry_at(self.text, &self.ends, version - 1),
            link,
            index,
            key,
            value,
        )
    }

    /// Whether the map of the first so many records has this value at a key, or none.
    pub(crate) fn has_value(&self, version: usize, key: &[u8], value: Option<&[u8]>) -> bool
        requires { (run : Run) × IsBook self.now run × (version ≤ length run.records) }
        ensures { (run : Run) → IsBook self.now run → result ≡ is_value (map (take version run.records) key.now) (option_copied value.entry) }
    {
        let latest = self.past.latest(key, version);
        if latest == 0 {
            return is_value(None, value);
        }
        is_value(
            Some(entry_at(self.text, &self.ends, latest - 1).value),
            value,
        )
    }
}

/// The book of a log.
pub(crate) fn open_book(
    alloc: Global,
    text: &[u8],
    ends: Vec<usize>,
    old: u32,
    limit: u32,
) -> Result<Book<'_>, NoMemory>
    requires { (run : Run) × Logs text.now ends.items run.records }
    ensures { (run : Run) → Logs text.now ends.items run.records → run.old ≡ old → run.limit ≡ limit → IfOk result (λ b. IsBook b run) }
{
    let past = find_past(alloc, text, &ends)?;
    Ok(Book {
        text,
        ends,
        past,
        old,
        limit,
    })
}
