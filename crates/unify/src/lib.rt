// The theorems over solved forms and the unifier. Each function does nothing: its contract is the theorem, and the check
// proves it.
#![tactic(auto)]

ghost use Rattle.unify.specs.Theorems.{SolvedCellsHaveReadings, UnifyIsRight};
ghost use Rattle.unify.specs.Theorems.{CompareIsRight, AtomsAreNodes};
ghost use Rattle.unify.specs.Meaning.{MeaningIsKept};
ghost use Rattle.unify.specs.Cases.{WorkedCases};
ghost use Rattle.unify.specs.Writing.{WritingKeepsSolved};

// No cells are solved, and a new cell keeps them so.
pub fn writing_keeps_solved<L>()
    ensures { WritingKeepsSolved L }
{}

// Solved cells have a reading for every choice of trees at the open roots.
pub fn solved_cells_have_readings<L>()
    ensures { SolvedCellsHaveReadings L }
{}

// Where the unifier goes well, just the readings that give the two terms one tree are left; else there are none.
pub fn unify_is_right<L>()
    ensures { UnifyIsRight L }
{}

// The comparison says whether every reading gives the two terms one tree; if not, one tells them apart.
pub fn compare_is_right<L>()
    ensures { CompareIsRight L }
{}

// A term is a node, or joined to one, exactly when a node stands at its root.
pub fn atoms_are_nodes<L>()
    ensures { AtomsAreNodes L }
{}

// Whatever equations cells mean: writing adds to them, unifying adds the new one where that leaves a reading,
// comparing says what they entail, and roots say which terms are atoms.
pub fn meaning_is_kept<L>()
    ensures { MeaningIsKept L }
{}

// Loops with the same tree are equal; open cells differ until they are equated; argument counts clash.
pub fn worked_cases()
    ensures { WorkedCases }
{}
