// The theorems over the executable search, check and sittings. Each function does nothing: its contract is the
// theorem, and the check proves it.
#![tactic(auto)]

ghost use Rattle.std.specs.Prelude.{◌≡◌, [], map, Some};
ghost use Rattle.std.specs.List.{AllByRecursion};
ghost use Rattle.theory.specs.Entries.{BookRules};
ghost use Rattle.theory.specs.Sittings.{Right};
ghost use Rattle.searching.specs.Theorems.{SearchIsRight, CheckIsRight};
ghost use Rattle.searching.specs.Theorems.{AnswersAreRight, SittingsAreRight, TurnsSuffice};
ghost use Rattle.searching.specs.Theorems.{EverySittingComesOut};
ghost use Rattle.searching.specs.Table.{executed, table};

// Whatever the executable search comes to is what the definition of searches gives, and after a grant its cells
// mean what is known then.
pub fn search_is_right<V>()
    ensures { SearchIsRight V }
{}

// The executable check gives the verdict that the definition of check gives.
pub fn check_is_right<V>()
    ensures { CheckIsRight V }
{}

// The answer of every call that is executed over cells is the defined one, and the cells that the call leaves mean
// what is known after it.
pub fn answers_are_right<V>()
    ensures { AnswersAreRight V }
{}

// A sitting that is executed from a wiped slate on is right.
pub fn sittings_are_right<V>()
    ensures { SittingsAreRight V }
{}

// Where a search has two turns for each try of its budget, and one more, every call comes to an answer.
pub fn turns_suffice<V>()
    ensures { TurnsSuffice V }
{}

// Whatever calls are made, over any kind of leaf whose sameness is tested, some right sitting has just these calls.
pub fn every_sitting_comes_out<V>()
    ensures { EverySittingComesOut V }
{}

// Every worked case comes out as the table states: executed call by call it gives the stated answers, so each of
// them is the defined one.
pub fn worked_cases_come_out()
    ensures executed { map executed table ≡ map (λ c. Some c.sitting) table }
    ensures right { AllByRecursion (λ c. BookRules c.book × Right c.book c.supplied c.sitting) table }
{}
