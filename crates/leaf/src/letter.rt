ghost use Rattle.std.specs.Prelude.{◌≡◌, Some, None};
ghost use Rattle.std.specs.Result.{MatchResult};
ghost use Rattle.leaf.specs.ShelfMarks.{code, letter_of};

// A capital letter. As a case of its own it needs no rule about which bytes are letters.
#[derive(Clone, Copy, PartialEq, Eq, Debug)]
pub enum Letter {
    A = 65,
    B,
    C,
    D,
    E,
    F,
    G,
    H,
    I,
    J,
    K,
    L,
    M,
    N,
    O,
    P,
    Q,
    R,
    S,
    T,
    U,
    V,
    W,
    X,
    Y,
    Z,
}

// The letters in their order.
const LETTERS: [Letter; 26] = [
    Letter::A,
    Letter::B,
    Letter::C,
    Letter::D,
    Letter::E,
    Letter::F,
    Letter::G,
    Letter::H,
    Letter::I,
    Letter::J,
    Letter::K,
    Letter::L,
    Letter::M,
    Letter::N,
    Letter::O,
    Letter::P,
    Letter::Q,
    Letter::R,
    Letter::S,
    Letter::T,
    Letter::U,
    Letter::V,
    Letter::W,
    Letter::X,
    Letter::Y,
    Letter::Z,
];

// A byte that is no capital letter's code.
#[derive(Clone, Copy, PartialEq, Eq, Debug)]
pub struct NoLetter;

// The letter's ASCII code, from 65 to 90.
impl From<Letter> for u8 {
    ghost from_gives = { λ letter byte. byte ≡ code letter };

    fn from(letter: Letter) -> u8 {
        letter as u8
    }
}

// The letter whose code the byte is.
impl TryFrom<u8> for Letter {
    type Error = NoLetter;

    ghost try_from_gives = { λ byte read. MatchResult read (λ letter. letter_of byte ≡ Some letter) (λ _. letter_of byte ≡ None) };

    fn try_from(byte: u8) -> Result<Letter, NoLetter> {
        match byte {
            65..=90 => Ok(LETTERS[(byte - 65) as usize]),
            _ => Err(NoLetter),
        }
    }
}
