/// A descriptor: a queue of a port. Port 0 has the memory queues, port 1 is the service, port 2 has the queue of the log where the
/// plan has one, port `3 + 2k` receives from link k, and port `4 + 2k` sends to link k. Of a port from 2 on the queue is 0.
#[derive(Clone, Copy, Debug, PartialEq, Eq)]
pub struct Qd {
    pub port: u16,
    pub queue: u32,
}
