use crate::StoreOp;

/// What is asked of the store, with the asking worker's sequence number, on which no answer depends. It is 0 for a stop.
pub struct StoreAsk {
    pub sequence: u64,
    pub op: StoreOp,
}
