// The words of a line, read as what a call takes.
ghost use Rattle.std.specs.Prelude.{IfOk, Ok};
ghost use Rattle.script.specs.Numbers.{IsNumber, value_after};

use crate::fault::LineFault;
use crate::number::decimal;
use crate::pieces::{Pieces, cut};
use calls::step::Step;
use std::alloc::Global;
use std::num::TryFromIntError;

// The longest list that can be asked for, and the largest slate.
const MOST_LENGTH: u32 = 65536;

// The word as a number that its type can hold.
fn number<N: TryFrom<u32, Error = TryFromIntError>>(word: &[u8]) -> Result<N, LineFault>
    ensures { IfOk result (λ n. IsNumber 4294967295 word.now × N.TryFrom.try_from_gives (value_after 0 word.now) (Ok n)) }
{
    let value = decimal(word, u32::MAX).ok_or(LineFault::NotOfTheForm)?;
    Ok(N::try_from(value)?)
}

// The word as a step: its mode, a comma and its number.
fn read_step(word: &[u8]) -> Result<Step, LineFault> {
    let (mode, Some(rest)) = cut(word, b',') else {
        return Err(LineFault::NotOfTheForm);
    };
    Ok(Step {
        mode: number(mode)?,
        number: number(rest)?,
    })
}

// The words of a line that are still to be read, and the heap that lists are made on.
#[derive(Drop)]
pub struct Words<'a> {
    rest: Pieces<'a>,
    heap: Global,
}

impl<'a> Words<'a> {
    // The words of the line.
    pub fn of(heap: Global, line: &'a [u8]) -> Words<'a> {
        let rest = Pieces::of(line, b' ');
        Words { rest, heap }
    }

    // The next word, which must be there.
    pub fn next(&mut self) -> Result<&'a [u8], LineFault> {
        self.rest.next().ok_or(LineFault::NotOfTheForm)
    }

    // The next word as a number that its type can hold.
    pub fn number<N: TryFrom<u32, Error = TryFromIntError>>(&mut self) -> Result<N, LineFault> {
        number(self.next()?)
    }

    // The next word as the length of a list, or the number of a slate's cells.
    pub fn length(&mut self) -> Result<usize, LineFault> {
        let length = decimal(self.next()?, MOST_LENGTH).ok_or(LineFault::NotOfTheForm)?;
        Ok(length as usize)
    }

    // No word is left. Here a word is the fault, and `ok_or` makes one of its absence, so it stays a match.
    pub fn end(mut self) -> Result<(), LineFault> {
        match self.rest.next() {
            Some(_) => Err(LineFault::NotOfTheForm),
            None => Ok(()),
        }
    }

    // One length and no more.
    pub fn only_length(mut self) -> Result<usize, LineFault> {
        let length = self.length()?;
        self.end()?;
        Ok(length)
    }

    // Two cells and no more.
    pub fn two_cells(mut self) -> Result<(u16, u16), LineFault> {
        let left = self.number()?;
        let right = self.number()?;
        self.end()?;
        Ok((left, right))
    }

    // The words that are left, as cells.
    pub fn cells(self) -> Result<Vec<u16>, LineFault> {
        self.rest.map(number::<u16>).try_collect(self.heap)
    }

    // The words before a colon, as cells.
    pub fn cells_to_colon(&mut self) -> Result<Vec<u16>, LineFault> {
        let mut cells = Vec::new(self.heap);
        while let Some(word) = self.rest.next() {
            match word {
                b":" => return Ok(cells),
                _ => cells.push(number(word)?)?,
            }
        }
        Err(LineFault::NotOfTheForm)
    }

    // The words that are left, as steps.
    pub fn steps(self) -> Result<Vec<Step>, LineFault> {
        self.rest.map(read_step).try_collect(self.heap)
    }
}
