//! Two that belong together.

/// Two of a pair, as the receiving and the sending side of a link.
pub struct Both<A, B> {
    pub first: A,
    pub second: B,
}
