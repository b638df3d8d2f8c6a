// What is staged for the next entry: four bytes for the length, and then the payload.
ghost use Rattle.std.specs.Prelude.{◌≡◌, ◌≤◌, length, drop, vec_capacity, IfOk};
ghost use Rattle.demi_spec.specs.LogText.{entry};

use crate::sizes::{LENGTH_BYTES, MAX_ENTRY_BYTES};
use std::alloc::{AllocError, Global};

// Puts the length of what is staged in front of it.
pub(crate) fn fill_length(stage: &mut Vec<u8>)
    requires front { 4 ≤ length stage.old.items }
    requires fits { length stage.old.items ≤ 65802 }
    ensures items { stage.new.items ≡ entry (drop 4 stage.old.items) }
    ensures room { vec_capacity stage.new ≡ vec_capacity stage.old }
{
    let length = stage.len() - LENGTH_BYTES;
    let field = (length as u32).to_be_bytes();
    stage[0] = field[0];
    stage[1] = field[1];
    stage[2] = field[2];
    stage[3] = field[3];
}

// The stage with nothing in it.
pub(crate) fn empty_stage(alloc: Global) -> Result<Vec<u8>, AllocError>
    ensures { IfOk result (λ v. (length v.items ≡ 4) × (65802 ≤ vec_capacity v)) }
{
    let mut stage = Vec::with_capacity(alloc, MAX_ENTRY_BYTES)?;
    stage.extend_from_slice(&[0; LENGTH_BYTES])?;
    Ok(stage)
}
