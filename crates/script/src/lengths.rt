// The longest lists that some call of a script is lent, so that each list is supplied once.
ghost use Rattle.std.specs.Prelude.{◌≡◌};
ghost use Rattle.script.specs.Lengths.{Finds, largest, work_of, frames_of, room_of};

use crate::script::Script;
use calls::call::Call;
use leaf::accession_number::AccessionNumber;

// The length of the work list that the call is lent. This and the next two differ in the calls that have such a length.
fn work(call: &Call<AccessionNumber>) -> usize
    ensures { result ≡ work_of call.now }
{
    match call {
        Call::Equate { work, .. }
        | Call::Compare { work, .. }
        | Call::Solve { work, .. }
        | Call::Check { work, .. } => *work,
        _ => 0,
    }
}

// How many frames the call is lent.
fn frames(call: &Call<AccessionNumber>) -> usize
    ensures { result ≡ frames_of call.now }
{
    match call {
        Call::Solve { frames, .. } | Call::Check { frames, .. } => *frames,
        _ => 0,
    }
}

// The length of the record list that the call is lent.
fn room(call: &Call<AccessionNumber>) -> usize
    ensures { result ≡ room_of call.now }
{
    match call {
        Call::Solve { room, .. } => *room,
        _ => 0,
    }
}

// The largest of these lengths of the calls, or 0 if there is no call.
fn largest_of<F: Fn(&Call<AccessionNumber>) -> usize>(
    calls: &[Call<AccessionNumber>],
    length: F,
) -> usize
    requires { (state : F) (x : _) → F.pre state x }
    ensures { Finds F.Fn length calls.now result }
{
    calls.iter().map(length).max().unwrap_or(0)
}

impl Script {
    // The length of the longest work list that a call is lent.
    pub fn most_work(&self) -> usize
        ensures { result ≡ largest work_of self.now.calls.items }
    {
        largest_of(self.calls.as_slice(), work)
    }

    // The most frames that a call is lent.
    pub fn most_frames(&self) -> usize
        ensures { result ≡ largest frames_of self.now.calls.items }
    {
        largest_of(self.calls.as_slice(), frames)
    }

    // The length of the longest record list that a call is lent.
    pub fn most_room(&self) -> usize
        ensures { result ≡ largest room_of self.now.calls.items }
    {
        largest_of(self.calls.as_slice(), room)
    }
}
