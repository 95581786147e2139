// The modes of steps, and the numbers by which records name them.
ghost use Rattle.std.specs.Prelude.{◌≡◌, ◌↔◌, IsTrue};
ghost use Rattle.frames.specs.Modes.{mode_number, ReadsMode};

use calls::step::Step;

// What a step does: it takes a clause, for an outer goal, closes a loop, or takes any entry, for an inner goal.
#[derive(Clone, Copy, PartialEq, Eq, Debug)]
pub enum Mode {
    Clause = 1,
    Loop,
    Entry,
}

// A number that names no mode.
#[derive(Clone, Copy, PartialEq, Eq, Debug)]
pub struct UnknownMode;

impl From<Mode> for u8 {
    ghost from_gives = { λ mode number. number ≡ mode_number mode };

    fn from(mode: Mode) -> u8 {
        mode as u8
    }
}

impl TryFrom<u8> for Mode {
    type Error = UnknownMode;

    ghost try_from_gives = { ReadsMode };

    fn try_from(number: u8) -> Result<Mode, UnknownMode> {
        match number {
            1 => Ok(Mode::Clause),
            2 => Ok(Mode::Loop),
            3 => Ok(Mode::Entry),
            _ => Err(UnknownMode),
        }
    }
}

// Whether a step closes a loop.
pub fn closes_loop(step: Step) -> bool
    ensures { IsTrue result ↔ (step.mode ≡ 2) }
{
    step.mode == u8::from(Mode::Loop)
}
