//! An operation that is not served yet.
use demi_port_core::{Place, Token};

/// An operation that was fetched before those of lower places were served.
pub struct Early<O> {
    pub place: Place,
    pub token: Token,
    pub op: O,
}
