// The tries of a goal, in their order.
ghost use Rattle.std.specs.Prelude.{◌≡◌, ◌<◌, length};
ghost use Rattle.frames.specs.Tries.{IsClause, MayTry, NextEntry, NextTry, Chained, OnPath, cursor_after, Named};

use crate::frame::{Cursor, Frame};
use crate::mode::{Mode, closes_loop};
use book::entry::EntryKind;
use book::interface::Book;
use calls::step::Step;
use leaf::kind::Leaf;

// Whether the entry is a clause.
pub fn is_clause<L: Leaf, B: Book<L>>(book: &B, entry: usize) -> bool
    ensures { IsClause (B.Book.entries book.now) «entry» result }
{
    matches!(book.outline(entry), Some(outline) if outline.kind == EntryKind::Clause)
}

// Whether a goal may try an entry: any for an inner goal, a clause for an outer one.
fn may_try<L: Leaf, B: Book<L>>(book: &B, inner: bool, entry: usize) -> bool
    ensures { MayTry (B.Book.entries book.now) inner «entry» result }
{
    inner || is_clause(book, entry)
}

// The first entry from a number on that a goal may try.
fn next_entry<L: Leaf, B: Book<L>>(book: &B, inner: bool, from: u16) -> Option<u16>
    ensures { NextEntry (B.Book.entries book.now) inner from result }
{
    let number = (from as usize..book.len()).find(|&entry| may_try(book, inner, entry))?;
    Some(number as u16)
}

// The next try of a goal, if one is left.
pub fn next_try<L: Leaf, B: Book<L>>(book: &B, inner: bool, cursor: Cursor) -> Option<Step>
    ensures { NextTry (B.Book.entries book.now) inner cursor result }
{
    if let Some(step) = cursor.path {
        return Some(Step {
            mode: Mode::Loop.into(),
            number: step,
        });
    }
    let number = next_entry(book, inner, cursor.entry)?;
    let mode = if inner { Mode::Entry } else { Mode::Clause };
    Some(Step {
        mode: mode.into(),
        number,
    })
}

// Whether a step is on the path of a goal, which begins with the step that left the goal.
pub fn on_path(frames: &[Frame], from: Option<u16>, number: u16) -> bool
    requires { Chained frames.now from }
    ensures { OnPath frames.now from number result }
{
    // The frames are the caller's, and each names the step that left its goal: the walk follows these names.
    let mut next = from;
    while let Some(step) = next {
        if step == number {
            return true;
        }
        next = frames[step as usize].goal.parent;
    }
    false
}

// Which tries are left after one.
pub fn after(frames: &[Frame], step: Step) -> Cursor
    requires { Named (length frames.now) step }
    ensures { result ≡ cursor_after frames.now step }
{
    if closes_loop(step) {
        let frame = frames[step.number as usize];
        return Cursor {
            path: frame.goal.parent,
            entry: 0,
        };
    }
    Cursor {
        path: None,
        entry: step.number + 1,
    }
}
