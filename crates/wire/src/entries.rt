// The entries of a book, read one after another.
ghost use Rattle.std.specs.Prelude.{◌≡◌, ◌+◌, ◌<◌, ◌≤◌, length, IfOk, IfSome, MatchResult};
ghost use Rattle.form.specs.declared.fault.Cause.TheVariants.{TooMuch};
ghost use Rattle.form.specs.Meanings.{row_fault};
ghost use Rattle.wire.specs.Reads.{RowStep};

use crate::cursor::Entries;
use crate::good_entry::GoodEntry;
use crate::inspect::MOST_BYTES;
use crate::read_entry::test_entry;
use crate::split::split;
use crate::spot::Spot;
use form::fault::{Cause, Fault};
use leaf::kind::WireLeaf;

// No `Iterator`: what it leaves after a fault would have to be said too, and both readers end there.
impl<'a> Entries<'a> {
    // The entries of these bytes, unless they are more than a book has.
    pub fn of(bytes: &'a [u8]) -> Result<Entries<'a>, Fault>
        ensures { MatchResult result (λ e. (length bytes.now ≤ 65535) × (e.rest.now ≡ bytes.now) × (e.spot ≡ record { place = 0; «entry» = 0 })) (λ f. (65535 < length bytes.now) × (f ≡ row_fault TooMuch 0 0)) }
    {
        let spot = Spot { place: 0, entry: 0 };
        if bytes.len() > MOST_BYTES {
            return Err(spot.in_row(Cause::TooMuch));
        }
        Ok(Entries { rest: bytes, spot })
    }

    // The next entry, tested; none at the end.
    pub fn next<L: WireLeaf>(&mut self) -> Result<Option<GoodEntry<'a>>, Fault>
        ensures shorter { IfOk result (λ o. IfSome o (λ _. length self.new.rest.now < length self.old.rest.now)) }
        ensures means { RowStep L.WireLeaf.wide L.WireLeaf.reading self.old self.new result }
    {
        if self.rest.is_empty() {
            return Ok(None);
        }
        let field = split(self.rest).ok_or(self.spot.in_row(Cause::PastEnd))?;
        let entry = test_entry::<L>(&field, self.spot)?;
        self.spot.place += self.rest.len() - field.rest.len();
        self.spot.entry += 1;
        self.rest = field.rest;
        Ok(Some(entry))
    }
}
