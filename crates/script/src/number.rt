// Numbers as decimal digits.
ghost use Rattle.std.specs.Prelude.{◌≡◌, ◌+◌, ◌-◌, ◌*◌, ◌<◌, ◌≤◌, ◌⊎◌, MatchOption};
ghost use Rattle.script.specs.Numbers.{Reads};

// The value of a decimal number up to the largest that is allowed: one digit or more, and nothing else (`parse` takes a
// sign too). Leading
// zeros add nothing to it.
pub fn decimal(word: &[u8], most: u32) -> Option<u32>
    ensures { Reads most word.now result }
{
    if word.is_empty() {
        return None;
    }
    let mut value = 0;
    for byte in word {
        value = with_digit(value, *byte, most)?;
    }
    Some(value)
}

// The value with one digit more, unless the byte is no digit or the number is then too large.
fn with_digit(value: u32, byte: u8, most: u32) -> Option<u32>
    ensures { MatchOption result ((byte < 48) ⊎ (57 < byte) ⊎ (most < value * 10 + (byte - 48))) (λ n. (48 ≤ byte) × (byte ≤ 57) × (n ≡ value * 10 + (byte - 48)) × (n ≤ most)) }
{
    if !byte.is_ascii_digit() {
        return None;
    }
    let digit = u32::from(byte - b'0');
    let next = value.checked_mul(10)?.checked_add(digit)?;
    (next <= most).then_some(next)
}
