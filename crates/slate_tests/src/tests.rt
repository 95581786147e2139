use leaf::accession_number::AccessionNumber;
use slate::cell::{Cell, CellKind, Content};
use slate::refusal::Refusal;
use slate::slate::Slate;
use std::alloc::{AllocError, Global};
use std::test::Fail;

const F: u16 = 5;

const S: u16 = 7;

const T: u16 = 8;

const Z: u16 = 9;

// A wiped slate on so many cells.
fn slate_of(heap: Global, count: usize) -> Result<Slate<AccessionNumber>, AllocError> {
    let cells = vec![in heap; Cell::from(Content::Open); count]?;
    Ok(Slate::new(cells))
}

// X = s(X) and Y = s(s(Y)) are equal, and V = s(t(V)) is neither.
#[test]
fn loops_of_one_tree_are_equal(rt: HostRuntime) -> Result<(), Fail> {
    let mut slate = slate_of(rt.alloc(), 9)?;
    let mut work = [0; 81];
    let x = slate.open()?;
    let sx = slate.node(S, &[x])?;
    let y = slate.open()?;
    let sy = slate.node(S, &[y])?;
    let ssy = slate.node(S, &[sy])?;
    let v = slate.open()?;
    let tv = slate.node(T, &[v])?;
    let stv = slate.node(S, &[tv])?;
    slate.equate(&mut work, x, sx)?;
    slate.equate(&mut work, ssy, y)?;
    slate.equate(&mut work, v, stv)?;
    assert_eq!(rt; slate.compare(&mut work, x, y)?, true);
    assert_eq!(rt; slate.compare(&mut work, sy, sx)?, true);
    assert_eq!(rt; slate.compare(&mut work, x, v)?, false);
    assert_eq!(rt; slate.equate(&mut work, y, v), Err(Refusal::Clash));
    assert_eq!(rt; slate.equate(&mut work, x, y), Ok(()));
    Ok(())
}

// Terms that were never equated are equal once open cells join them, in either direction.
#[test]
fn open_cells_join_both_ways(rt: HostRuntime) -> Result<(), Fail> {
    let mut slate = slate_of(rt.alloc(), 8)?;
    let mut work = [0; 72];
    let a = slate.open()?;
    let b = slate.open()?;
    let seven = slate.leaf(AccessionNumber(7))?;
    let eight = slate.leaf(AccessionNumber(8))?;
    let again = slate.leaf(AccessionNumber(7))?;
    assert_eq!(rt; slate.compare(&mut work, a, b)?, false);
    slate.equate(&mut work, a, b)?;
    assert_eq!(rt; slate.compare(&mut work, b, a)?, true);
    assert_eq!(rt; slate.is_atom(a)?, false);
    slate.equate(&mut work, seven, a)?;
    assert_eq!(rt; slate.compare(&mut work, b, again)?, true);
    assert_eq!(rt; slate.compare(&mut work, b, eight)?, false);
    assert_eq!(rt; slate.equate(&mut work, eight, b), Err(Refusal::Clash));
    let sa = slate.node(S, &[a])?;
    let open = slate.open()?;
    slate.equate(&mut work, sa, open)?;
    assert_eq!(rt; slate.is_atom(open)?, true);
    assert_eq!(rt; slate.root(open)?, sa);
    Ok(())
}

// f(X, s(z)) and f(z, s(t)) clash below their first arguments: X is open as before.
#[test]
fn a_deep_clash_alters_nothing(rt: HostRuntime) -> Result<(), Fail> {
    let mut slate = slate_of(rt.alloc(), 7)?;
    let mut work = [0; 63];
    let x = slate.open()?;
    let z = slate.node(Z, &[])?;
    let t = slate.node(T, &[])?;
    let sz = slate.node(S, &[z])?;
    let st = slate.node(S, &[t])?;
    let left = slate.node(F, &[x, sz])?;
    let right = slate.node(F, &[z, st])?;
    let refusal = Refusal::Clash;
    assert_eq!(rt; slate.equate(&mut work, left, right), Err(refusal));
    assert_eq!(rt; refusal.number(), 21);
    assert_eq!(rt; slate.compare(&mut work, x, z)?, false);
    assert_eq!(rt; slate.read(x)?.kind(), CellKind::Open);
    assert_eq!(rt; slate.read(left)?.kind(), CellKind::Node);
    slate.equate(&mut work, x, t)?;
    assert_eq!(rt; slate.read(x)?.kind(), CellKind::Joined);
    Ok(())
}

// No more cells than were supplied, and never more than 2,048.
#[test]
fn full_slates_refuse(rt: HostRuntime) -> Result<(), Fail> {
    let mut none = slate_of(rt.alloc(), 0)?;
    assert_eq!(rt; none.open(), Err(Refusal::NoCell));
    let mut two = slate_of(rt.alloc(), 2)?;
    assert_eq!(rt; two.open(), Ok(0));
    assert_eq!(rt; two.leaf(AccessionNumber(1)), Ok(1));
    assert_eq!(rt; two.node(S, &[0]), Err(Refusal::NoCell));
    assert_eq!(rt; two.node(S, &[2]), Err(Refusal::NotInUse { cell: 2 }));
    two.wipe();
    assert_eq!(rt; two.open(), Ok(0));
    let mut many = slate_of(rt.alloc(), 2049)?;
    for _ in 0..2048 {
        let _ = many.open();
    }
    assert_eq!(rt; many.cells_in_use(), 2048);
    assert_eq!(rt; many.open(), Err(Refusal::NoCell));
    Ok(())
}

// Refusals for the input come in their order, with the first bad cell.
#[test]
fn bad_input_is_refused_in_order(rt: HostRuntime) -> Result<(), Fail> {
    let mut slate = slate_of(rt.alloc(), 3)?;
    let mut work = [0; 27];
    let mut short = [0; 26];
    let a = slate.open()?;
    let five = [9, 9, 9, 9, 9];
    assert_eq!(rt; slate.node(S, &five), Err(Refusal::TooManyArguments));
    assert_eq!(rt;
        slate.node(S, &[a, a, 8, 9]),
        Err(Refusal::NotInUse { cell: 8 })
    );
    assert_eq!(rt;
        slate.equate(&mut short, 6, 5),
        Err(Refusal::NotInUse { cell: 6 })
    );
    assert_eq!(rt;
        slate.equate(&mut short, a, 5),
        Err(Refusal::NotInUse { cell: 5 })
    );
    assert_eq!(rt;
        slate.compare(&mut short, 1, a),
        Err(Refusal::NotInUse { cell: 1 })
    );
    assert_eq!(rt;
        slate.compare(&mut work, a, 1),
        Err(Refusal::NotInUse { cell: 1 })
    );
    assert_eq!(rt; slate.equate(&mut short, a, a), Err(Refusal::TooShort));
    assert_eq!(rt; slate.compare(&mut short, a, a), Err(Refusal::TooShort));
    assert_eq!(rt; slate.compare(&mut work, a, a), Ok(true));
    assert_eq!(rt; slate.is_atom(4), Err(Refusal::NotInUse { cell: 4 }));
    assert_eq!(rt; slate.cells_in_use(), 1);
    Ok(())
}
