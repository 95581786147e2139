ghost use Rattle.std.specs.Prelude.{◌≡◌, false, MatchOption};
ghost use Rattle.form.specs.Fields.{whole};
ghost use Rattle.wire.specs.Reads.{SplitOf};

use crate::field::Split;

// The field that the bytes begin with; none where they hold no whole field.
pub fn split(bytes: &[u8]) -> Option<Split<'_>>
    ensures { MatchOption result (whole bytes.now ≡ false) (SplitOf bytes.now) }
{
    let [tag, hi, lo, rest @ ..] = bytes else {
        return None;
    };
    let size = usize::from(u16::from_be_bytes([*hi, *lo]));
    let (contents, rest) = rest.split_at_checked(size)?;
    Some(Split {
        tag: *tag,
        contents,
        rest,
    })
}
