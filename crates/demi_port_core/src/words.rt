//! Where the words of a port's token table lie.
//!
//! Words that different threads write lie on cache lines of their own: the ticket, the doorbells and the waker bits two lines
//! apart, since processors fetch lines in pairs, and the words of the tokens a line apart.

/// The word of the ticket: the place of the next operation.
pub const TICKET: usize = 0;

/// The word of the doorbell bits.
pub const BELLS: usize = 16;

/// The word of the waker bits.
pub const WAKERS: usize = 32;

/// The word of the first token.
pub const FIRST_TOKEN: usize = 48;

/// How many words a token's word lies behind that of the token before it. With `n` tokens a table has `n * TOKEN_STEP + FIRST_TOKEN` words.
pub const TOKEN_STEP: usize = 8;
