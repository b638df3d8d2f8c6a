/// An operation on a receiving port.
#[derive(Drop)]
pub enum RxOp {
    /// Reads once, at most `max` bytes, 1 to 4,096.
    Pop { max: u32 },
    /// Stops the port: each operation after it is refused.
    Stop,
}
