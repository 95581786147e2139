// A script: the calls of a sitting.
use crate::fault::{LineFault, ScriptError};
use crate::lent::Lent;
use crate::pieces::Pieces;
use crate::statement::{Statement, is_passed_over, read_line};
use calls::call::Call;
use leaf::accession_number::AccessionNumber;
use std::alloc::Global;

// How many cells the slate is supplied with, and the calls in their order.
#[derive(Drop)]
pub struct Script {
    pub cells: usize,
    pub calls: Vec<Call<AccessionNumber>>,
}

// What was read so far: the cells of the slate once they are known, the lengths lent, and the calls.
#[derive(Drop)]
struct Draft {
    cells: Option<usize>,
    lent: Lent,
    calls: Vec<Call<AccessionNumber>>,
}

impl Draft {
    // Takes in one more line.
    fn take(&mut self, heap: Global, line: &[u8]) -> Result<(), LineFault> {
        if is_passed_over(line) {
            return Ok(());
        }
        match (read_line(heap, line, self.lent)?, self.cells) {
            (Statement::Slate { cells }, None) => {
                self.cells = Some(cells);
                self.lent = Lent::first(cells);
            }
            (Statement::Work { length }, Some(_)) => self.lent.work = length,
            (Statement::Frames { length }, Some(_)) => self.lent.frames = length,
            (Statement::Call(call), Some(_)) => self.calls.push(call)?,
            _ => return Err(LineFault::NotOfTheForm),
        }
        Ok(())
    }
}

// Reads a script, or says which line is not of the form. A script without a line `slate` is faulty in its last.
pub fn parse(heap: Global, text: &[u8]) -> Result<Script, ScriptError> {
    let mut draft = Draft {
        cells: None,
        lent: Lent::first(0),
        calls: Vec::new(heap),
    };
    let mut number: usize = 0;
    for line in Pieces::of(text, b'\n') {
        number = number.saturating_add(1);
        draft.take(heap, line).map_err(|fault| fault.at(number))?;
    }
    let Draft { cells, calls, .. } = draft;
    let cells = cells.ok_or(ScriptError::Line { number })?;
    Ok(Script { cells, calls })
}
