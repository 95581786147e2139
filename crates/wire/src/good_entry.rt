ghost use Rattle.std.specs.Prelude.{◌+◌, ◌≤◌, length};

use crate::item::Goals;
use crate::spot::Spot;
use book::entry::EntryKind;

// An entry that was tested and found good: its kind, its goals, and its bytes with where they stand.
#[derive(Clone, Copy)]
pub struct GoodEntry<'a> {
    pub kind: EntryKind,
    pub goals: Goals,
    pub spot: Spot,
    pub contents: &'a [u8],
    ghost fits: { spot.place + length contents.now ≤ 65535 },
}
