// Equating and comparing terms.
ghost use Rattle.std.specs.Prelude.{◌≡◌, length};
ghost use Rattle.theory.specs.Calls.{equate as equating, compare as comparing};

use crate::input::{all_in_use, long_enough};
use crate::refusal::Refusal;
use crate::slate::Slate;
use cells::unifier::{compare, unify};
use leaf::kind::Leaf;

impl<L: Leaf> Slate<L> {
    ghost use Rattle.slate.specs.Slates.{in_use, Kept, CarriesOn, accepted_or, same_or, Admits};

    // Refuses two terms that are not both in use, and a work list that is too short.
    fn admit(&self, work: usize, left: u16, right: u16) -> Result<(), Refusal>
        ensures { Admits self.now work left right result }
    {
        all_in_use(self.used, &[left, right])?;
        long_enough(self.cells.len(), work)
    }

    // Makes two terms equal, where some reading allows it.
    pub fn equate(&mut self, work: &mut [u16], left: u16, right: u16) -> Result<(), Refusal>
        ensures kept { Kept self.old self.new
            (equating left right (length work.old)) (accepted_or result) }
        ensures carries { CarriesOn self.old self.new
            (equating left right (length work.old)) (accepted_or result) }
    {
        self.admit(work.len(), left, right)?;
        let used = self.used;
        // how many cells were joined is of no use here, so a match is as plain as `map` and `ok_or`
        match unify(self.cells.as_mut_slice(), used, work, left, right) {
            Some(_) => Ok(()),
            None => Err(Refusal::Clash),
        }
    }

    // Says whether two terms are equal, that is, have the same tree in every reading.
    pub fn compare(&mut self, work: &mut [u16], left: u16, right: u16) -> Result<bool, Refusal>
        ensures kept { Kept self.old self.new
            (comparing left right (length work.old)) (same_or result) }
        ensures carries { CarriesOn self.old self.new
            (comparing left right (length work.old)) (same_or result) }
        ensures unaltered { in_use self.new ≡ in_use self.old }
    {
        self.admit(work.len(), left, right)?;
        let used = self.used;
        Ok(compare(self.cells.as_mut_slice(), used, work, left, right))
    }
}
