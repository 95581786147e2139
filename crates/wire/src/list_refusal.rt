ghost use Rattle.std.specs.Prelude.{◌≡◌};
ghost use Rattle.wire.specs.Listings.{list_number};
ghost use Rattle.wire.specs.declared.list_refusal.ListRefusal.TheVariants.{NoMemory, ShortOutput};

use leaf::output::TooShort;
use std::alloc::AllocError;

// Why a listing was not written.
#[derive(Clone, Copy, PartialEq, Eq, Debug)]
pub enum ListRefusal {
    // the output is shorter than the listing
    ShortOutput,
    // there was no memory to read the book or to make the text
    NoMemory,
}

impl ListRefusal {
    // The number of a refusal that the input causes; want of memory has none, so the numbers are no discriminants.
    pub fn number(self) -> Option<u8>
        ensures { result ≡ list_number self }
    {
        match self {
            ListRefusal::ShortOutput => Some(14),
            ListRefusal::NoMemory => None,
        }
    }
}

impl From<AllocError> for ListRefusal {
    ghost from_gives = { λ _ e. e ≡ NoMemory };

    fn from(_error: AllocError) -> ListRefusal {
        ListRefusal::NoMemory
    }
}

impl From<TooShort> for ListRefusal {
    ghost from_gives = { λ _ e. e ≡ ShortOutput };

    fn from(_error: TooShort) -> ListRefusal {
        ListRefusal::ShortOutput
    }
}
