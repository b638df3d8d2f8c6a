mod receiving;
mod rows;
mod sending;
mod served;

use demi_heap::HeapEnd;
use rows::{Ask, Row, Seen};
use std::test::Fail;

// What a source or a sink gives and takes through a device on a port, operation by operation.
const ROWS: [Row; 5] = [
    Row {
        receives: true,
        held: false,
        fails: None,
        asks: &[
            (Ask::Pop(4), Seen::Piece(b"ab")),
            (Ask::Pop(4), Seen::Piece(b"c")),
            (Ask::Pop(4), Seen::End),
            (Ask::Pop(4), Seen::End),
        ],
        moved: b"abc",
    },
    Row {
        receives: true,
        held: false,
        fails: Some(1),
        asks: &[
            (Ask::Pop(4), Seen::Piece(b"ab")),
            (Ask::Pop(4), Seen::Fault(2)),
            (Ask::Pop(4), Seen::Broken(1)),
            (Ask::Stop, Seen::Halted),
            (Ask::Pop(4), Seen::Stopped(3)),
        ],
        moved: b"ab",
    },
    Row {
        receives: false,
        held: false,
        fails: Some(1),
        asks: &[
            (Ask::Push(b"ab", b"", b"c"), Seen::Fault(2)),
            (Ask::Push(b"d", b"", b""), Seen::Broken(0)),
            (Ask::Close, Seen::Broken(0)),
            (Ask::Stop, Seen::Halted),
            (Ask::Push(b"e", b"", b""), Seen::Stopped(3)),
        ],
        moved: b"ab",
    },
    Row {
        receives: false,
        held: false,
        fails: None,
        asks: &[
            (Ask::Push(b"", b"abc", b"de"), Seen::Pushed),
            (Ask::Close, Seen::Shut),
            (Ask::Push(b"f", b"", b""), Seen::Closed),
            (Ask::Close, Seen::Closed),
        ],
        moved: b"abcde",
    },
    Row {
        receives: true,
        held: true,
        fails: None,
        asks: &[
            (Ask::Pop(4), Seen::NoSlot),
            (Ask::Free, Seen::Nothing),
            (Ask::Pop(4), Seen::Piece(b"ab")),
        ],
        moved: b"ab",
    },
];

#[test]
fn each_operation_comes_to_what_its_row_says(rt: HostRuntime) -> Result<(), Fail> {
    let alloc = rt.alloc();
    for (number, row) in ROWS.iter().enumerate() {
        let mut fails = Vec::new(alloc);
        if let Some(call) = row.fails {
            fails.push(call)?;
        }
        let (same, ended) = if row.receives {
            receiving::receive(&rt, alloc, fails, row)?
        } else {
            sending::send(&rt, alloc, fails, row)?
        };
        let free = if row.receives { 1 } else { 8 };
        let none_owned = HeapEnd {
            free,
            app: 0,
            lent: 0,
            dev: 0,
        };
        assert!(rt; same, "row {number}");
        assert_eq!(rt; ended, none_owned, "row {number}");
    }
    Ok(())
}
