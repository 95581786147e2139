// One line of a script.
use crate::fault::LineFault;
use crate::lent::Lent;
use crate::words::Words;
use calls::call::Call;
use leaf::accession_number::AccessionNumber;
use std::alloc::Global;

// What a line says: how many cells the slate has, how long a list is from here on, or a call.
#[derive(Drop)]
pub enum Statement {
    Slate { cells: usize },
    Work { length: usize },
    Frames { length: usize },
    Call(Call<AccessionNumber>),
}

// The line is empty or a comment.
pub fn is_passed_over(line: &[u8]) -> bool {
    matches!(line, [] | [b'#', ..])
}

// What the line says, where calls are lent lists of these lengths.
pub fn read_line(heap: Global, line: &[u8], lent: Lent) -> Result<Statement, LineFault> {
    let mut words = Words::of(heap, line);
    match words.next()? {
        b"slate" => Ok(Statement::Slate {
            cells: words.only_length()?,
        }),
        b"work" => Ok(Statement::Work {
            length: words.only_length()?,
        }),
        b"frames" => Ok(Statement::Frames {
            length: words.only_length()?,
        }),
        name => Ok(Statement::Call(call(name, words, lent)?)),
    }
}

// The call of that name, with the words behind it. Names come as text, so a `match` tells them apart.
fn call(name: &[u8], words: Words, lent: Lent) -> Result<Call<AccessionNumber>, LineFault> {
    match name {
        b"open" => open(words),
        b"leaf" => leaf(words),
        b"node" => node(words),
        b"equate" => {
            let (left, right) = words.two_cells()?;
            let work = lent.work;
            Ok(Call::Equate { left, right, work })
        }
        b"compare" => {
            let (left, right) = words.two_cells()?;
            let work = lent.work;
            Ok(Call::Compare { left, right, work })
        }
        b"solve" => solve(words, lent),
        b"check" => check(words, lent),
        _ => Err(LineFault::NotOfTheForm),
    }
}

fn open(words: Words) -> Result<Call<AccessionNumber>, LineFault> {
    words.end()?;
    Ok(Call::Open)
}

fn leaf(mut words: Words) -> Result<Call<AccessionNumber>, LineFault> {
    let value = words.number()?;
    words.end()?;
    Ok(Call::Leaf(AccessionNumber(value)))
}

fn node(mut words: Words) -> Result<Call<AccessionNumber>, LineFault> {
    let symbol = words.number()?;
    let args = words.cells()?;
    Ok(Call::Node { symbol, args })
}

fn solve(mut words: Words, lent: Lent) -> Result<Call<AccessionNumber>, LineFault> {
    let budget = words.number()?;
    let room = words.length()?;
    let goals = words.cells()?;
    let Lent { work, frames } = lent;
    Ok(Call::Solve {
        goals,
        budget,
        room,
        work,
        frames,
    })
}

fn check(mut words: Words, lent: Lent) -> Result<Call<AccessionNumber>, LineFault> {
    let goals = words.cells_to_colon()?;
    let steps = words.steps()?;
    let Lent { work, frames } = lent;
    Ok(Call::Check {
        goals,
        steps,
        work,
        frames,
    })
}
