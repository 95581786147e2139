// What can be wrong with a script.
ghost use Rattle.std.specs.Prelude.{◌≡◌, Some};
ghost use Rattle.script.specs.declared.fault.LineFault.TheVariants as line;
ghost use Rattle.script.specs.Faults.{fault_at};
ghost use Rattle.script.specs.Messages.{text_of_error};

use std::alloc::{AllocError, AllocFailed};
use std::error::Error;
use std::fmt;
use std::num::TryFromIntError;

// Why a line was not read: it is not of the form, or memory ran out.
#[derive(Clone, Copy, PartialEq, Eq, Debug)]
pub enum LineFault {
    NotOfTheForm,
    NoMemory,
}

impl From<AllocError> for LineFault {
    ghost from_gives = { λ _ r. r ≡ line.NoMemory };

    fn from(_e: AllocError) -> LineFault {
        LineFault::NoMemory
    }
}

impl<T: Drop> From<AllocFailed<T>> for LineFault {
    ghost from_gives = { λ _ r. r ≡ line.NoMemory };

    fn from(_e: AllocFailed<T>) -> LineFault {
        LineFault::NoMemory
    }
}

// A number that its type cannot hold is not of the form.
impl From<TryFromIntError> for LineFault {
    ghost from_gives = { λ _ r. r ≡ line.NotOfTheForm };

    fn from(_e: TryFromIntError) -> LineFault {
        LineFault::NotOfTheForm
    }
}

// Why a script was not read: a line is not of the form, counted from 1, or memory ran out.
#[derive(Clone, Copy, PartialEq, Eq, Debug)]
pub enum ScriptError {
    Line { number: usize },
    NoMemory,
}

impl fmt::Display for ScriptError {
    ghost output = { λ e. Some (text_of_error e) };

    fn fmt<W: fmt::Write>(&self, f: &mut fmt::Formatter<W>) -> fmt::Result {
        match self {
            ScriptError::Line { number } => write!(f, "line {number} is not a call"),
            ScriptError::NoMemory => write!(f, "out of memory"),
        }
    }
}

impl Error for ScriptError {}

impl LineFault {
    // The same fault, of the line with that number.
    pub fn at(self, number: usize) -> ScriptError
        ensures { result ≡ fault_at self number }
    {
        match self {
            LineFault::NotOfTheForm => ScriptError::Line { number },
            LineFault::NoMemory => ScriptError::NoMemory,
        }
    }
}
