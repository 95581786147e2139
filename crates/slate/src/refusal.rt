// Why a call is refused.
ghost use Rattle.std.specs.Prelude.{◌≡◌, Some};
ghost use Rattle.theory.specs.Calls.{number as number_of};
ghost use Rattle.slate.specs.Refusals.{refusal_of, rule_number};
ghost use Rattle.slate.specs.RefusalTexts.{text_of_refusal};

use std::error::Error;
use std::fmt;

// What a record must keep. The numbers are those of the rules.
#[derive(Clone, Copy, PartialEq, Eq, Debug)]
pub enum Rule {
    // a step has a pending goal and one of the three modes
    GoalAndMode = 2,
    // mode 1 takes a clause for an outer goal
    ClauseForOuter = 3,
    // mode 2 closes a loop of an outer goal with a step on its path
    LoopOfOuter = 4,
    // mode 3 takes any entry for an inner goal
    EntryForInner = 5,
    // at the record's end no goal is pending
    NonePending = 6,
    // the equations keep a reading
    Reading = 7,
}

impl Rule {
    // The number that stands for the rule.
    pub fn number(self) -> u8
        ensures { result ≡ rule_number self }
    {
        self as u8
    }
}

// A refusal, with what it carries: the first bad cell, the first bad step and the number of its rule, or a search's count.
// Whoever prints a refusal may have it from elsewhere, so the rule is a number, and no `Rule`: that would ask more.
#[derive(Clone, Copy, PartialEq, Eq, Debug)]
pub enum Refusal {
    NotInUse { cell: u16 },
    TooManyArguments,
    NotAnAtom { cell: u16 },
    TooLong,
    TooShort,
    Unlawful { step: u16, rule: u8 },
    NoCell,
    Clash,
    NoCellAfter { count: u32 },
    SpentAfter { count: u32 },
    FullAfter { count: u32 },
}

impl Refusal {
    // The number that stands for the refusal. Two refusals share 20, so it is no discriminant.
    pub fn number(self) -> u8
        ensures { result ≡ number_of (refusal_of self) }
    {
        match self {
            Refusal::NotInUse { .. } => 1,
            Refusal::TooManyArguments => 2,
            Refusal::NotAnAtom { .. } => 3,
            Refusal::TooLong => 4,
            Refusal::TooShort => 5,
            Refusal::Unlawful { .. } => 6,
            Refusal::NoCell | Refusal::NoCellAfter { .. } => 20,
            Refusal::Clash => 21,
            Refusal::SpentAfter { .. } => 22,
            Refusal::FullAfter { .. } => 23,
        }
    }
}

// The refusal's number, and what it carries.
impl fmt::Display for Refusal {
    ghost output = { λ r. Some (text_of_refusal (refusal_of r)) };

    fn fmt<W: fmt::Write>(&self, f: &mut fmt::Formatter<W>) -> fmt::Result {
        let number = self.number();
        match self {
            Refusal::NotInUse { cell } | Refusal::NotAnAtom { cell } => {
                write!(f, "{number} cell {cell}")
            }
            Refusal::Unlawful { step, rule } => write!(f, "{number} step {step} rule {rule}"),
            Refusal::NoCellAfter { count }
            | Refusal::SpentAfter { count }
            | Refusal::FullAfter { count } => write!(f, "{number} tries {count}"),
            _ => write!(f, "{number}"),
        }
    }
}

impl Error for Refusal {}
