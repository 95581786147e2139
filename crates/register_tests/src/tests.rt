use calls::call::Call;
use leaf::accession_number::AccessionNumber;
use register::clients::{resending, retrying, unheard};
use register::rule_book::{register_book, register_bytes};
use std::alloc::Global;
use std::process::Abort;
use std::test::Fail;
use wire::byte_book::ByteBook;
use wire::listing::list_text;

// One co-fact and seven clauses.
const LISTING: &str = "0 cofact 3 0
1 clause 7 1
2 clause 7 1
3 clause 7 1
4 clause 7 1
5 clause 7 1
6 clause 7 1
7 clause 7 1
entries 8
";

// The book's bytes.
const BYTES: [u8; 325] = [
    2, 0, 17, 16, 0, 0, 16, 0, 0, 18, 0, 4, 0, 10, 0, 1, 19, 0, 1, 2, 1, 0, 41, 16, 0, 0, 16, 0, 0,
    16, 0, 0, 18, 0, 3, 0, 2, 2, 18, 0, 4, 0, 1, 3, 0, 18, 0, 4, 0, 9, 4, 1, 18, 0, 4, 0, 9, 0, 1,
    19, 0, 2, 5, 6, 1, 0, 40, 16, 0, 0, 16, 0, 0, 16, 0, 0, 18, 0, 2, 0, 3, 18, 0, 4, 0, 1, 3, 0,
    18, 0, 4, 0, 9, 4, 1, 18, 0, 4, 0, 9, 0, 1, 19, 0, 2, 5, 6, 1, 0, 41, 16, 0, 0, 16, 0, 0, 16,
    0, 0, 18, 0, 3, 0, 4, 1, 18, 0, 4, 0, 1, 3, 0, 18, 0, 4, 0, 9, 4, 1, 18, 0, 4, 0, 10, 0, 1, 19,
    0, 2, 5, 6, 1, 0, 41, 16, 0, 0, 16, 0, 0, 16, 0, 0, 18, 0, 3, 0, 2, 2, 18, 0, 4, 0, 1, 3, 0,
    18, 0, 4, 0, 10, 4, 1, 18, 0, 4, 0, 10, 0, 1, 19, 0, 2, 5, 6, 1, 0, 40, 16, 0, 0, 16, 0, 0, 16,
    0, 0, 18, 0, 2, 0, 3, 18, 0, 4, 0, 1, 3, 0, 18, 0, 4, 0, 10, 4, 1, 18, 0, 4, 0, 10, 0, 1, 19,
    0, 2, 5, 6, 1, 0, 41, 16, 0, 0, 16, 0, 0, 16, 0, 0, 18, 0, 3, 0, 5, 1, 18, 0, 4, 0, 1, 3, 0,
    18, 0, 4, 0, 10, 4, 1, 18, 0, 4, 0, 10, 0, 1, 19, 0, 2, 5, 6, 1, 0, 40, 16, 0, 0, 16, 0, 0, 16,
    0, 0, 18, 0, 2, 0, 6, 18, 0, 4, 0, 1, 3, 0, 18, 0, 4, 0, 10, 4, 1, 18, 0, 4, 0, 10, 0, 1, 19,
    0, 2, 5, 6,
];

// The calls are printed as these lines.
fn prints(
    rt: &impl Abort,
    heap: Global,
    calls: &[Call<AccessionNumber>],
    lines: &[&str],
) -> Result<(), Fail> {
    assert_eq!(rt; calls.len(), lines.len());
    for (call, line) in calls.iter().zip(lines.iter()) {
        let shown = format!(in heap; "{call:?}")?;
        assert_eq!(rt; shown.as_str(), *line);
    }
    Ok(())
}

#[test]
fn the_book_has_eight_entries(rt: HostRuntime) -> Result<(), Fail> {
    let heap = rt.alloc();
    let book = register_book(heap)?;
    let text = list_text::<AccessionNumber, ByteBook<AccessionNumber>>(heap, &book, book.fault())?;
    assert_eq!(rt; text.as_str(), LISTING);
    Ok(())
}

// The bytes as a second implementation of the format writes them.
#[test]
fn the_bytes_are_those_of_the_rules(rt: HostRuntime) -> Result<(), Fail> {
    let bytes = register_bytes(rt.alloc())?;
    assert!(rt; bytes.as_slice() == &BYTES[0..325]);
    Ok(())
}

// A run of sends and losses that comes round to its start.
#[test]
fn unheard_clients_send_for_ever(rt: HostRuntime) -> Result<(), Fail> {
    let heap = rt.alloc();
    let calls = unheard(heap)?;
    prints(
        &rt,
        heap,
        calls.as_slice(),
        &[
            "Node { symbol: 7, args: [] }",
            "Node { symbol: 2, args: [0] }",
            "Node { symbol: 3, args: [] }",
            "Open",
            "Node { symbol: 1, args: [2, 3] }",
            "Node { symbol: 1, args: [1, 4] }",
            "Equate { left: 3, right: 5, work: 4608 }",
            "Open",
            "Node { symbol: 9, args: [5, 6] }",
            "Solve { goals: [7], budget: 100, room: 128, work: 4608, frames: 128 }",
        ],
    )
}

// Send, loss, send, booking, loss, send, answer, and then silence for ever, written from the end.
#[test]
fn retrying_clients_book_once(rt: HostRuntime) -> Result<(), Fail> {
    let heap = rt.alloc();
    let calls = retrying(heap)?;
    prints(
        &rt,
        heap,
        calls.as_slice(),
        &[
            "Node { symbol: 6, args: [] }",
            "Open",
            "Node { symbol: 1, args: [0, 1] }",
            "Equate { left: 1, right: 2, work: 4608 }",
            "Node { symbol: 7, args: [] }",
            "Node { symbol: 2, args: [3] }",
            "Node { symbol: 3, args: [] }",
            "Leaf(AccessionNumber(17))",
            "Node { symbol: 4, args: [6] }",
            "Node { symbol: 5, args: [6] }",
            "Node { symbol: 1, args: [8, 2] }",
            "Node { symbol: 1, args: [4, 9] }",
            "Node { symbol: 1, args: [5, 10] }",
            "Node { symbol: 1, args: [7, 11] }",
            "Node { symbol: 1, args: [4, 12] }",
            "Node { symbol: 1, args: [5, 13] }",
            "Node { symbol: 1, args: [4, 14] }",
            "Open",
            "Node { symbol: 9, args: [15, 16] }",
            "Solve { goals: [17], budget: 100, room: 128, work: 4608, frames: 128 }",
        ],
    )
}

// Send, booking, loss, send, a second booking, answer, and then silence for ever, written from the end.
#[test]
fn resending_clients_book_twice(rt: HostRuntime) -> Result<(), Fail> {
    let heap = rt.alloc();
    let calls = resending(heap)?;
    prints(
        &rt,
        heap,
        calls.as_slice(),
        &[
            "Node { symbol: 6, args: [] }",
            "Open",
            "Node { symbol: 1, args: [0, 1] }",
            "Equate { left: 1, right: 2, work: 4608 }",
            "Node { symbol: 8, args: [] }",
            "Node { symbol: 2, args: [3] }",
            "Node { symbol: 3, args: [] }",
            "Leaf(AccessionNumber(17))",
            "Leaf(AccessionNumber(18))",
            "Node { symbol: 4, args: [6] }",
            "Node { symbol: 4, args: [7] }",
            "Node { symbol: 5, args: [7] }",
            "Node { symbol: 1, args: [10, 2] }",
            "Node { symbol: 1, args: [9, 11] }",
            "Node { symbol: 1, args: [4, 12] }",
            "Node { symbol: 1, args: [5, 13] }",
            "Node { symbol: 1, args: [8, 14] }",
            "Node { symbol: 1, args: [4, 15] }",
            "Open",
            "Node { symbol: 9, args: [16, 17] }",
            "Solve { goals: [18], budget: 100, room: 128, work: 4608, frames: 128 }",
        ],
    )
}
