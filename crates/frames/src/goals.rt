// Finding the goal that is to be taken next.
ghost use Rattle.std.specs.Prelude.{◌≡◌, ◌<◌, ◌≤◌, length};
ghost use Rattle.frames.specs.Goals.{goal_left, listed_goal, Pending, NextGoal};

use crate::frame::{Frame, Goal};
use crate::mode::closes_loop;
use book::interface::Book;
use calls::step::Step;
use leaf::kind::Leaf;

// The goal at a place among those that a step leaves: the body goals of its instance or, where it closes a loop, its
// own goal, which is now inner.
fn goal_of_step<L: Leaf, B: Book<L>>(book: &B, step: u16, frame: &Frame, place: u8) -> Option<Goal>
    requires { frame.now.used ≤ 2048 }
    ensures { result ≡ goal_left (B.Book.entries book.now) step frame.now place }
{
    if closes_loop(frame.step) {
        if place > 0 {
            return None;
        }
        return Some(Goal {
            cell: frame.goal.cell,
            inner: true,
            parent: Some(step),
            place,
        });
    }
    let part = book.goal(frame.step.number as usize, place as usize)?;
    Some(Goal {
        cell: frame.used + u16::from(part),
        inner: frame.goal.inner,
        parent: Some(step),
        place,
    })
}

// The goal at a place of the list.
fn goal_of_list(goals: &[u16], place: u8) -> Option<Goal>
    ensures { result ≡ listed_goal goals.now place }
{
    let cell = *goals.get(place as usize)?;
    Some(Goal {
        cell,
        inner: false,
        parent: None,
        place,
    })
}

// The first goal from a place on: after the last goal of a step come those after the goal that the step took.
pub fn next_goal<L: Leaf, B: Book<L>>(
    book: &B,
    goals: &[u16],
    frames: &[Frame],
    from: Option<u16>,
    place: u8,
) -> Option<Goal>
    requires { Pending (B.Book.entries book.now) goals.now frames.now from place }
    ensures { NextGoal (B.Book.entries book.now) goals.now frames.now
        from place result }
{
    // The frames are the caller's, and each names the step that left its goal: the walk follows these names.
    let mut parent = from;
    let mut at = place;
    while let Some(step) = parent {
        let frame = frames[step as usize];
        if let Some(goal) = goal_of_step(book, step, &frame, at) {
            return Some(goal);
        }
        parent = frame.goal.parent;
        at = frame.goal.place + 1;
    }
    goal_of_list(goals, at)
}
