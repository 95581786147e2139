// What a call tests of its input.
ghost use Rattle.slate.specs.Slates.{InUse, AllInUse, LongEnough};

use crate::limits::{MOST_CELLS, WORK_PER_CELL};
use crate::refusal::Refusal;

// Refuses a cell that is not in use.
pub(crate) fn in_use(used: usize, cell: u16) -> Result<(), Refusal>
    ensures { InUse used cell result }
{
    if used <= cell as usize {
        return Err(Refusal::NotInUse { cell });
    }
    Ok(())
}

// Refuses the first cell that is not in use.
pub fn all_in_use(used: usize, cells: &[u16]) -> Result<(), Refusal>
    ensures { AllInUse used cells.now result }
{
    for cell in cells {
        in_use(used, *cell)?;
    }
    Ok(())
}

// Refuses a work list of fewer than nine numbers for each cell of the slate.
pub fn long_enough(cells: usize, work: usize) -> Result<(), Refusal>
    ensures { LongEnough cells work result }
{
    if work < WORK_PER_CELL * cells.min(MOST_CELLS) {
        return Err(Refusal::TooShort);
    }
    Ok(())
}
