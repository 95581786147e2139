ghost use Rattle.std.specs.Result.{MatchResult};
ghost use Rattle.leaf.specs.Outputs.{Fills, Short};

// The output has fewer bytes than are to be written. Nothing was written.
#[derive(Clone, Copy, PartialEq, Eq, Debug)]
pub struct TooShort;

// Writes the bytes into the first of the output and says how many they are.
pub fn put(out: &mut [u8], bytes: &[u8]) -> Result<usize, TooShort>
    ensures { MatchResult result (Fills out.old out.new bytes.now) (λ _. Short out.old out.new bytes.now) }
{
    let count = bytes.len();
    if out.len() < count {
        return Err(TooShort);
    }
    out[0..count].copy_from_slice(bytes);
    Ok(count)
}
