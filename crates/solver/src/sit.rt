// A whole sitting in one call.
ghost use Rattle.std.specs.Prelude.{◌≡◌, map, length};
ghost use Rattle.slate.specs.Slates.{supplied, on_slate};
ghost use Rattle.solver.specs.Sitting.{lent, Sat, listed};

use crate::make::make_call;
use book::interface::Book;
use calls::answer::Answer;
use calls::call::Call;
use calls::step::Step;
use frames::frame::Frame;
use leaf::kind::Leaf;
use slate::slate::Slate;
use std::alloc::{AllocError, Global};

// Makes the calls one after another, from a wiped slate on, refused ones too, and collects every answer. Each is lent as
// much of the record list, the work list and the frames as it asks for, but no more than there is.
// The lists stay parameters, and no struct, since a sitting lends parts of them to each call (see `make_solve`).
pub fn sit<L: Leaf, B: Book<L>>(
    heap: Global,
    slate: &mut Slate<L>,
    book: &B,
    calls: &[Call<L>],
    steps: &mut [Step],
    work: &mut [u16],
    frames: &mut [Frame],
) -> Result<Vec<Answer>, AllocError>
    ensures sat { Sat (B.Book.entries book.now) (supplied slate.old)
        (map (lent (length steps.old) (length work.old) (length frames.old))
        calls.now) (on_slate slate.new) (listed result) }
    ensures as_many { supplied slate.new ≡ supplied slate.old }
{
    slate.wipe();
    let mut answers = Vec::new(heap);
    for call in calls {
        let answer = make_call(heap, slate, book, call, steps, work, frames)?;
        answers.push(answer)?;
    }
    Ok(answers)
}
