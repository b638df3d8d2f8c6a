ghost use Rattle.std.specs.Prelude.{◌≡◌, ◌≤◌, ◌++◌, [], ◌∷◌, length, OnOk};
ghost use Rattle.demi_cli.specs.Heads.{HeadsOf};

use crate::head::Head;
use std::alloc::{AllocError, Global};

/// The heads of records in their order, and their keys, one behind the other. The values stay where they are.
///
/// It takes 12 bytes and the key for each record, and while it grows at most twice as much again.
#[derive(Drop)]
pub struct Heads {
    pub heads: Vec<Head>,
    pub keys: Vec<u8>,
}

impl Heads {
    /// Of no records.
    pub fn new(alloc: Global) -> Heads
        ensures { HeadsOf result [] }
    {
        Heads {
            heads: Vec::new(alloc),
            keys: Vec::new(alloc),
        }
    }

    /// Adds one record's: a put of this link and index, under this key, of a value of so many bytes.
    pub fn push(
        &mut self,
        link: u16,
        index: u32,
        key: &[u8],
        value_bytes: u32,
    ) -> Result<(), AllocError>
        requires { length key.now ≤ 255 }
        ensures heads { OnOk result (self.new.heads.items ≡ self.old.heads.items ++ record { index = index; value_bytes = value_bytes; link = link; key_bytes = length key.now } ∷ []) }
        ensures keys { OnOk result (self.new.keys.items ≡ self.old.keys.items ++ key.now) }
    {
        self.keys.extend_from_slice(key)?;
        self.heads.push(Head {
            index,
            value_bytes,
            link,
            key_bytes: key.len() as u8,
        })?;
        Ok(())
    }
}
