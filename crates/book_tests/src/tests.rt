use book::annex::Annex;
use book::entry::{CellNumbers, EntryCell, EntryKind, Node, Outline};
use book::interface::Book;
use book::table::Row;
use book::table_book::TableBook;
use leaf::accession_number::AccessionNumber;
use std::test::Fail;

type Cell = EntryCell<AccessionNumber>;

const NO_GOALS: CellNumbers<8> = CellNumbers {
    len: 0,
    cells: [0; 8],
};

// A node with the first so many of four arguments.
fn node(len: u8, cells: [u8; 4]) -> Cell {
    EntryCell::Node(Node {
        symbol: 1,
        args: CellNumbers { len, cells },
    })
}

// Seventy cells: a node without arguments, a variable, a leaf, a node over both, and variables.
fn cells() -> [Cell; 70] {
    let mut all = [EntryCell::Variable; 70];
    all[0] = node(0, [0; 4]);
    all[2] = EntryCell::Leaf(AccessionNumber(7));
    all[3] = node(2, [1, 2, 0, 0]);
    all
}

// A clause of the first four cells.
fn clause() -> Row {
    Row {
        kind: EntryKind::Clause,
        first: 0,
        cells: 4,
        head: 3,
        body: NO_GOALS,
    }
}

// How many entries the table has.
fn count<'a>(rows: &'a [Row], cells: &'a [Cell]) -> usize {
    let book = TableBook::new(rows, cells);
    book.len()
}

// How many entries the table of a good row, this one and a good one has.
fn entries(row: Row, cells: &[Cell]) -> usize {
    let rows = [clause(), row, clause()];
    count(&rows, cells)
}

fn body(len: u8, cells: [u8; 8]) -> CellNumbers<8> {
    CellNumbers { len, cells }
}

#[test]
fn good_rows_count(rt: HostRuntime) {
    let cells = cells();
    assert_eq!(rt; entries(clause(), &cells), 3);
    assert_eq!(rt;
        entries(
            Row {
                cells: 64,
                ..clause()
            },
            &cells,
        ),
        3
    );
    assert_eq!(rt;
        entries(
            Row {
                body: body(8, [0, 3, 0, 3, 0, 3, 0, 3]),
                ..clause()
            },
            &cells,
        ),
        3
    );
    assert_eq!(rt;
        entries(
            Row {
                kind: EntryKind::CoFact,
                ..clause()
            },
            &cells,
        ),
        3
    );
}

#[test]
fn rows_that_point_past_the_cells_are_faulty(rt: HostRuntime) {
    let cells = cells();
    assert_eq!(rt;
        entries(
            Row {
                first: 67,
                ..clause()
            },
            &cells,
        ),
        1
    );
    assert_eq!(rt;
        entries(
            Row {
                first: 71,
                ..clause()
            },
            &cells,
        ),
        1
    );
    assert_eq!(rt;
        entries(
            Row {
                first: usize::MAX,
                ..clause()
            },
            &cells,
        ),
        1
    );
    assert_eq!(rt;
        entries(
            Row {
                cells: usize::MAX,
                ..clause()
            },
            &cells,
        ),
        1
    );
}

#[test]
fn rows_with_too_few_or_too_many_cells_are_faulty(rt: HostRuntime) {
    let cells = cells();
    assert_eq!(rt;
        entries(
            Row {
                cells: 0,
                ..clause()
            },
            &cells,
        ),
        1
    );
    assert_eq!(rt;
        entries(
            Row {
                cells: 65,
                ..clause()
            },
            &cells,
        ),
        1
    );
}

#[test]
fn rows_with_wrong_goals_are_faulty(rt: HostRuntime) {
    let cells = cells();
    assert_eq!(rt;
        entries(
            Row {
                head: 1,
                ..clause()
            },
            &cells,
        ),
        1
    );
    assert_eq!(rt;
        entries(
            Row {
                head: 2,
                ..clause()
            },
            &cells,
        ),
        1
    );
    assert_eq!(rt;
        entries(
            Row {
                head: 4,
                ..clause()
            },
            &cells,
        ),
        1
    );
    assert_eq!(rt;
        entries(
            Row {
                body: body(2, [3, 1, 0, 0, 0, 0, 0, 0]),
                ..clause()
            },
            &cells,
        ),
        1
    );
    assert_eq!(rt;
        entries(
            Row {
                body: body(1, [200, 0, 0, 0, 0, 0, 0, 0]),
                ..clause()
            },
            &cells,
        ),
        1
    );
    assert_eq!(rt;
        entries(
            Row {
                body: body(9, [3; 8]),
                ..clause()
            },
            &cells,
        ),
        1
    );
    assert_eq!(rt;
        entries(
            Row {
                kind: EntryKind::CoFact,
                body: body(1, [3; 8]),
                ..clause()
            },
            &cells,
        ),
        1
    );
}

#[test]
fn rows_with_wrong_arguments_are_faulty(rt: HostRuntime) {
    let mut cells = cells();
    cells[3] = node(4, [0, 1, 2, 2]);
    assert_eq!(rt; entries(clause(), &cells), 3);
    cells[3] = node(4, [0, 1, 2, 3]);
    assert_eq!(rt; entries(clause(), &cells), 0);
    cells[3] = node(5, [0; 4]);
    assert_eq!(rt; entries(clause(), &cells), 0);
}

#[test]
fn tables_end_after_1024_rows(rt: HostRuntime) {
    let cells = cells();
    let rows = [clause(); 1025];
    assert_eq!(rt; TableBook::new(&rows[0..1024], &cells).len(), 1024);
    assert_eq!(rt; TableBook::new(&rows, &cells).len(), 1024);
}

#[test]
fn questions_are_answered(rt: HostRuntime) -> Result<(), Fail> {
    let cells = cells();
    let rows = [Row {
        body: body(2, [0, 3, 0, 0, 0, 0, 0, 0]),
        ..clause()
    }];
    let book = TableBook::new(&rows, &cells);
    let Some(outline) = book.outline(0) else {
        return Err(Fail::new("no entry"));
    };
    assert!(rt;
        outline.kind == EntryKind::Clause
            && outline.cells == 4
            && outline.head == 3
            && outline.goals == 2
    );
    assert_eq!(rt; book.goal(0, 1), Some(3));
    assert_eq!(rt; book.goal(0, 2), None);
    assert!(rt;
        book.outline(1).is_none()
            && book.cell(0, 4).is_none()
            && book.cell(1, 0).is_none()
            && book.goal(1, 0).is_none()
    );
    match book.cell(0, 2) {
        Some(EntryCell::Leaf(value)) => {
            assert_eq!(rt; value.0, 7);
            Ok(())
        },
        _ => Err(Fail::new("not the leaf")),
    }
}

#[test]
fn annexes_go_on_with_the_second_book(rt: HostRuntime) -> Result<(), Fail> {
    let cells = cells();
    let rows = [clause(); 1000];
    let facts = [Row {
        kind: EntryKind::CoFact,
        cells: 1,
        head: 0,
        ..clause()
    }; 100];
    let both = Annex {
        first: TableBook::new(&rows, &cells),
        second: TableBook::new(&facts, &cells),
    };
    assert_eq!(rt; both.len(), 1024);
    assert!(rt; both.outline(1024).is_none() && both.cell(1000, 1).is_none());
    let (Some(last), Some(next)) = (both.outline(999), both.outline(1000)) else {
        return Err(Fail::new("no entry"));
    };
    assert!(rt;
        last.kind == EntryKind::Clause && next.kind == EntryKind::CoFact && next.cells == 1
    );
    Ok(())
}
