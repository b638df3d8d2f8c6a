// The bytes of a log's parts.

// What a log that is not empty begins with.
pub(crate) const HEADER: [u8; 8] = *b"DEMILOG1";

// How many bytes spell the length of a payload.
pub(crate) const LENGTH_BYTES: usize = 4;

/// How many bytes a payload has at most: those of a record with the longest key and the longest value.
pub const MAX_PAYLOAD_BYTES: usize = 65_798;

// How many bytes an entry has at most.
pub(crate) const MAX_ENTRY_BYTES: usize = 65_802;
