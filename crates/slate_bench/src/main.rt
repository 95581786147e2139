// Times equate and compare over growing terms. It prints nothing unless it is called with the word `times`.
#![tactic(auto)]

use anyhow::{anyhow, bail};
use leaf::accession_number::AccessionNumber;
use slate::cell::{Cell, Content};
use slate::refusal::Refusal;
use slate::slate::Slate;
use std::alloc::Global;
use std::env;
use std::time::Instant;

type Terms = Slate<AccessionNumber>;

// Why a term could not be built or timed.
fn refused(refusal: Refusal) -> anyhow::Error {
    match refusal {
        Refusal::NoCell | Refusal::NoCellAfter { .. } => anyhow!("the slate is full"),
        _ => anyhow!("a call was refused"),
    }
}

// A wiped slate on 2,048 cells.
fn wiped(heap: Global) -> anyhow::Result<Terms> {
    let cells = vec![in heap; Cell::from(Content::Open); 2048]?;
    Ok(Slate::new(cells))
}

// So many nodes, each over the one before.
fn chain(slate: &mut Terms, first: u16, nodes: u16) -> anyhow::Result<u16> {
    let mut last = first;
    for _ in 0..nodes {
        last = slate.node(1, &[last]).map_err(refused)?;
    }
    Ok(last)
}

// A list of so many cells.
fn list(slate: &mut Terms, cells: u16) -> anyhow::Result<u16> {
    let end = slate.leaf(AccessionNumber(7)).map_err(refused)?;
    chain(slate, end, cells.saturating_sub(1))
}

// A cycle of so many nodes.
fn cycle(slate: &mut Terms, work: &mut [u16], nodes: u16) -> anyhow::Result<u16> {
    let first = slate.open().map_err(refused)?;
    let last = chain(slate, first, nodes)?;
    slate.equate(work, first, last).map_err(refused)?;
    Ok(first)
}

// A balanced tree over so many leaves, which is a power of two.
fn tree(heap: Global, slate: &mut Terms, leaves: u16) -> anyhow::Result<u16> {
    let mut row = Vec::new(heap);
    for _ in 0..leaves {
        row.push(slate.leaf(AccessionNumber(7)).map_err(refused)?)?;
    }
    for _ in 0..leaves.trailing_zeros() {
        row = paired(heap, slate, &row)?;
    }
    row.first().copied().ok_or_else(|| anyhow!("no leaves"))
}

// A node over each two cells of a row; a row of one stays.
fn paired(heap: Global, slate: &mut Terms, row: &[u16]) -> anyhow::Result<Vec<u16>> {
    let mut above = Vec::new(heap);
    for pair in row.chunks(2) {
        let cell = match pair {
            [one] => *one,
            _ => slate.node(2, pair).map_err(refused)?,
        };
        above.push(cell)?;
    }
    Ok(above)
}

// Builds two terms on a new slate, compares and then equates them, and prints the times.
fn trial<B: FnOnce(&mut Terms, &mut [u16]) -> anyhow::Result<(u16, u16)>>(
    rt: &HostRuntime,
    name: &str,
    cells: u16,
    build: B,
) -> anyhow::Result<()>
    requires { B.IsAlwaysCallable build }
{
    let mut slate = wiped(rt.alloc())?;
    let mut work = vec![in rt.alloc(); 0u16; 18432]?;
    let (left, right) = build(&mut slate, &mut work)?;
    let start = Instant::now(rt)?;
    let equal = slate.compare(&mut work, left, right);
    let compared = start.elapsed(rt)?;
    let start = Instant::now(rt)?;
    let accepted = slate.equate(&mut work, left, right);
    let equated = start.elapsed(rt)?;
    if equal.is_err() || accepted.is_err() {
        bail!("a call was refused");
    }
    println!(rt; "{name} of {cells} cells: compare {compared:?}, equate {equated:?}")?;
    Ok(())
}

// The second cycle of a pair is one node longer, so that their lengths are coprime.
fn run(rt: &HostRuntime) -> anyhow::Result<()> {
    if !env::args(rt)?.any(|word| word.as_str() == "times") {
        return Ok(());
    }
    for cells in [128, 256, 512, 1023] {
        trial(
            rt,
            "list",
            cells,
            |slate, _| Ok((list(slate, cells)?, list(slate, cells)?)),
        )?;
        trial(rt, "cycle", cells, |slate, work| {
            Ok((
                cycle(slate, work, cells - 2)?,
                cycle(slate, work, cells - 1)?,
            ))
        })?;
    }
    for cells in [128, 256, 512, 1024] {
        trial(rt, "tree", cells, |slate, _| {
            let heap = rt.alloc();
            Ok((tree(heap, slate, cells / 2)?, tree(heap, slate, cells / 2)?))
        })?;
    }
    Ok(())
}

fn main(rt: HostRuntime) -> anyhow::Result<()> {
    run(&rt)
}
