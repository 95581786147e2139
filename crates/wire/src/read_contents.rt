// The contents of an entry, tested.
ghost use Rattle.std.specs.Prelude.{◌+◌, ◌≤◌, length};
ghost use Rattle.wire.specs.Reads.{ContentsMean};

use crate::cursor::Fields;
use crate::item::{Goals, Item};
use crate::spot::Spot;
use form::fault::Fault;
use leaf::kind::WireLeaf;

// Tests the contents of an entry, and gives its goals; none where the contents end without them.
pub(crate) fn test_contents<L: WireLeaf>(
    contents: &[u8],
    spot: Spot,
) -> Result<Option<Goals>, Fault>
    requires { spot.place + length contents.now ≤ 65535 }
    ensures { ContentsMean L.WireLeaf.wide L.WireLeaf.reading spot contents.now result }
{
    let mut fields = Fields::of(contents, spot);
    while let Some(item) = fields.next::<L>()? {
        if let Item::Goals(goals) = item {
            fields.close()?;
            return Ok(Some(goals));
        }
    }
    Ok(None)
}
