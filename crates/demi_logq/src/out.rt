use demi_port_core::Place;
use demi_sga::AppSga;

/// What an operation on the queue of a log came to. Where a stop came before it, it is `Stopped`; else where a `Fault` came
/// before it, and it is no stop, it is `Broken`; else it is the first of those listed that applies.
///
/// - `Push`: `BadSize`, `LogFull`, `Fault`, `Appended`.
/// - `Pop`: `AtEnd`, `NoSlot`, `Fault`, `Item`.
/// - `Seek`: `BadIndex`, `Sought`.
/// - `Truncate`: `BadIndex`, `Fault`, `Cut`.
/// - `Stop`: `Halted`.
pub enum LogOut {
    /// The entry of this number, from 0, was appended.
    Appended(u64),
    /// The array has no bytes, or more than an entry holds.
    BadSize,
    /// The log has as many entries as its limit allows.
    LogFull,
    /// The bytes of the entry: in one segment, or where they are more than 65,536 in one of so many and one with the rest.
    Item(AppSga),
    /// The cursor is behind the last entry.
    AtEnd,
    /// The cursor is where it was asked to be.
    Sought,
    /// The first entries alone are there.
    Cut,
    /// There are fewer entries than this number.
    BadIndex,
    /// Each slot of a class that the item needs had an owner. The cursor stays.
    NoSlot,
    /// The disk failed.
    Fault,
    /// The disk failed at an earlier operation, at this place.
    Broken(Place),
    /// A stop came first, at this place.
    Stopped(Place),
    /// The queue is stopped now.
    Halted,
}
