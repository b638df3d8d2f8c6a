/// What a port is, by its number.
#[derive(Clone, Copy, Debug, PartialEq, Eq)]
pub enum PortKind {
    /// Port 0: the memory queues.
    Memory,
    /// Port 1: the service.
    Service,
    /// Port 2, where the plan has a log: its queue.
    Journal,
    /// Port `3 + 2k`: it receives from link k.
    Receiving(u32),
    /// Port `4 + 2k`: it sends to link k.
    Sending(u32),
    /// There is no such port.
    Nowhere,
}
