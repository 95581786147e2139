ghost use Rattle.std.specs.Prelude.{◌≡◌, ℕ, ◌≤◌, Bool, not, List, length, is_some, Some, Decides, Option, MatchResult};
ghost use Rattle.leaf.specs.Bytes.{Bytes};
ghost use Rattle.leaf.specs.Outputs.{Fills, Short};

use crate::output::TooShort;

// A kind of leaf. The meaning of a leaf is its value, and the one question is whether two values are the same: `==` says
// just that.
pub trait Leaf: Copy + Eq {
    ghost decides: { (x y : Self) → Decides (Self.eq x y) (x ≡ y) };
}

// A kind of leaf that can be written as bytes, always as many as the kind is wide.
pub trait WireLeaf: Leaf {
    // how many bytes a value takes
    ghost wide: { ℕ };

    // the bytes of a value
    ghost written: { Self → List ℕ };

    // the value of some bytes, if they have one
    ghost reading: { List ℕ → Option Self };

    // the bytes that the kind names as no value's
    ghost refuses: { List ℕ → Bool };

    // How many bytes a value takes, from 1 to 16.
    fn width() -> usize
        ensures { result ≡ wide };

    // The value that the bytes stand for, or none.
    fn read(from: &[u8]) -> Option<Self>
        ensures { result ≡ reading from.now };

    // Writes the value into the first bytes of the output and says how many they are.
    fn write(&self, out: &mut [u8]) -> Result<usize, TooShort>
        ensures { MatchResult result (Fills out.old out.new (written self.now)) (λ _. Short out.old out.new (written self.now)) };

    ghost narrow: { (1 ≤ wide) × (wide ≤ 16) };

    ghost even: { (v : Self) → length (written v) ≡ wide };

    // reading what was written gives the value
    ghost rereads: { (v : Self) → reading (written v) ≡ Some v };

    // writing what was read gives the bytes
    ghost rewrites: { (bs : List ℕ) (v : Self) → Bytes bs → reading bs ≡ Some v → written v ≡ bs };

    // reading refuses, of as many bytes as the kind is wide, those that it names and no others
    ghost named: { (bs : List ℕ) → length bs ≡ wide → is_some (reading bs) ≡ not (refuses bs) };
}
