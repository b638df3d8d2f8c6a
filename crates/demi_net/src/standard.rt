// The descriptors of the standard streams.
use std::os::fd::AsRawFd;

// The descriptors below this one are those of the standard streams.
const FIRST_FREE_DESCRIPTOR: i32 = 3;

// Whether the system gave this the descriptor of a standard stream, which was closed: what is meant for that stream would
// go here, and what comes here would be taken for that stream's.
pub(crate) fn is_standard<F: AsRawFd>(opened: &F) -> bool {
    opened.as_raw_fd() < FIRST_FREE_DESCRIPTOR
}
