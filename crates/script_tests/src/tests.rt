use calls::answer::Answer;
use calls::step::Step;
use form::fault::{Cause, Fault, Layer};
use script::answer_line::answer_line;
use script::fault::ScriptError;
use script::message::{book_message, script_message};
use script::script::parse;
use slate::refusal::Refusal;
use std::alloc::Global;
use std::process::Abort;
use std::test::Fail;

// The script's calls are printed as these lines.
fn reads_as(
    rt: &impl Abort,
    heap: Global,
    text: &[u8],
    cells: usize,
    lines: &[&str],
) -> Result<(), Fail> {
    let script = parse(heap, text)?;
    assert_eq!(rt; script.cells, cells);
    assert_eq!(rt; script.calls.len(), lines.len());
    for (call, line) in script.calls.iter().zip(lines.iter()) {
        let shown = format!(in heap; "{call:?}")?;
        assert_eq!(rt; shown.as_str(), *line);
    }
    Ok(())
}

// The script is faulty at that line.
fn fails_at(rt: &impl Abort, heap: Global, text: &[u8], number: usize) -> Result<(), Fail> {
    assert_eq!(rt; error_of(heap, text)?, ScriptError::Line { number });
    Ok(())
}

// The error of a text that is no script.
fn error_of(heap: Global, text: &[u8]) -> Result<ScriptError, Fail> {
    parse(heap, text)
        .err()
        .ok_or_else(|| Fail::new("the script was read"))
}

// The answer is printed as that line.
fn prints(rt: &impl Abort, heap: Global, answer: Answer, line: &str) -> Result<(), Fail> {
    let shown = answer_line(heap, &answer)?;
    assert_eq!(rt; shown.as_str(), line);
    Ok(())
}

#[test]
fn writes_and_questions_are_read(rt: HostRuntime) -> Result<(), Fail> {
    let text =
        b"slate 3\nopen\nleaf 4294967295\nnode 65535\nnode 7 0 1 2 3 65535\nequate 0 1\ncompare 2 65535";
    reads_as(
        &rt,
        rt.alloc(),
        text,
        3,
        &[
            "Open",
            "Leaf(AccessionNumber(4294967295))",
            "Node { symbol: 65535, args: [] }",
            "Node { symbol: 7, args: [0, 1, 2, 3, 65535] }",
            "Equate { left: 0, right: 1, work: 27 }",
            "Compare { left: 2, right: 65535, work: 27 }",
        ],
    )
}

#[test]
fn searches_and_checks_are_read(rt: HostRuntime) -> Result<(), Fail> {
    let text =
        b"slate 2\nsolve 6 4 1\nsolve 4294967295 65536\ncheck 1 0 : 1,1 255,65535\ncheck :\n";
    reads_as(
        &rt,
        rt.alloc(),
        text,
        2,
        &[
            "Solve { goals: [1], budget: 6, room: 4, work: 18, frames: 4096 }",
            "Solve { goals: [], budget: 4294967295, room: 65536, work: 18, frames: 4096 }",
            "Check { goals: [1, 0], steps: [Step { mode: 1, number: 1 }, Step { mode: 255, number: 65535 }], work: 18, frames: 4096 }",
            "Check { goals: [], steps: [], work: 18, frames: 4096 }",
        ],
    )
}

// More goals than a search takes are of the form.
#[test]
fn nine_goals_are_of_the_form(rt: HostRuntime) -> Result<(), Fail> {
    reads_as(
        &rt,
        rt.alloc(),
        b"slate 1\nsolve 1 1 0 1 2 3 4 5 6 7 8",
        1,
        &[
            "Solve { goals: [0, 1, 2, 3, 4, 5, 6, 7, 8], budget: 1, room: 1, work: 9, frames: 4096 }",
        ],
    )
}

// Lengths hold from their line on, and a large slate is lent no longer a work list than 2,048 cells need.
#[test]
fn lengths_change_on_the_way(rt: HostRuntime) -> Result<(), Fail> {
    let heap = rt.alloc();
    let text =
        b"slate 65536\nequate 0 0\nwork 65536\nframes 5\nsolve 1 70\nwork 0\ncheck :\ncompare 0 0";
    reads_as(
        &rt,
        heap,
        text,
        65536,
        &[
            "Equate { left: 0, right: 0, work: 18432 }",
            "Solve { goals: [], budget: 1, room: 70, work: 65536, frames: 5 }",
            "Check { goals: [], steps: [], work: 0, frames: 5 }",
            "Compare { left: 0, right: 0, work: 0 }",
        ],
    )?;
    let script = parse(heap, text)?;
    assert_eq!(rt; script.most_work(), 65536);
    assert_eq!(rt; script.most_frames(), 5);
    assert_eq!(rt; script.most_room(), 70);
    Ok(())
}

// Empty lines and comments are passed over and counted; leading zeros add nothing.
#[test]
fn comments_are_passed_over(rt: HostRuntime) -> Result<(), Fail> {
    let heap = rt.alloc();
    let text = b"# a slate\n\nslate 007\n#\nleaf 00000000000000000012\n\n";
    reads_as(&rt, heap, text, 7, &["Leaf(AccessionNumber(12))"])?;
    reads_as(&rt, heap, b"slate 0", 0, &[])?;
    fails_at(&rt, heap, b"# a slate\n\nslate 7\n# \n#open\n open", 6)
}

// The first line must say how many cells there are, and no other may.
#[test]
fn slates_come_first_and_once(rt: HostRuntime) -> Result<(), Fail> {
    let heap = rt.alloc();
    fails_at(&rt, heap, b"", 1)?;
    fails_at(&rt, heap, b"\n# none\n", 3)?;
    fails_at(&rt, heap, b"open", 1)?;
    fails_at(&rt, heap, b"\nwork 4\nslate 1", 2)?;
    fails_at(&rt, heap, b"frames 4\nslate 1", 1)?;
    fails_at(&rt, heap, b"slate 1\nopen\nslate 1\n", 3)?;
    fails_at(&rt, heap, b"slate", 1)?;
    fails_at(&rt, heap, b"slate 65537", 1)?;
    fails_at(&rt, heap, b"slate 1 1", 1)
}

// Each line alone is not of the form, behind a first line that is.
#[test]
fn bad_lines_are_found(rt: HostRuntime) -> Result<(), Fail> {
    let heap = rt.alloc();
    let lines = [
        "opens",
        "Open",
        "open ",
        " open",
        "open 1",
        "leaf",
        "leaf ",
        "leaf x",
        "leaf -1",
        "leaf +1",
        "leaf 1.",
        "leaf 4294967296",
        "leaf 99999999999999999999",
        "leaf 1 2",
        "leaf  1",
        "leaf 1 ",
        "leaf\t1",
        "node",
        "node 65536",
        "node 1 65536",
        "node 1  2",
        "node 1 2 ",
        "node 1 x",
        "equate 1",
        "equate 1 2 3",
        "equate 1 65536",
        "compare 1",
        "compare",
        "compare 1 2 ",
        "work",
        "work 65537",
        "work x",
        "work 1 2",
        "frames",
        "frames 65537",
        "frames 1 2",
        "solve",
        "solve 1",
        "solve 4294967296 1",
        "solve 1 65537",
        "solve 1 1 65536",
        "solve 1 1 ",
        "check",
        "check 1",
        "check 1:",
        "check 1 : ",
        "check 1 : 1",
        "check : 1,",
        "check : ,1",
        "check : 256,1",
        "check : 1,65536",
        "check : 1,1,1",
        "check : 1,1 :",
        "check : 1, 1",
        "open\r",
    ];
    for line in lines {
        let text = format!(in heap; "slate 1\n{line}\nopen")?;
        let error = error_of(heap, text.as_bytes())?;
        assert_eq!(rt; error, ScriptError::Line { number: 2 }, "{line}");
    }
    Ok(())
}

#[test]
fn answers_are_printed(rt: HostRuntime) -> Result<(), Fail> {
    let heap = rt.alloc();
    prints(&rt, heap, Answer::Wrote { cell: 2047 }, "cell 2047")?;
    prints(&rt, heap, Answer::Accepted, "accepted")?;
    prints(&rt, heap, Answer::Same, "equal")?;
    prints(&rt, heap, Answer::Different, "different")?;
    prints(&rt, heap, Answer::Passed, "passed")?;
    prints(
        &rt,
        heap,
        Answer::Failed { count: 4294967295 },
        "failed 4294967295",
    )?;
    let steps = vec![in heap;
        Step { mode: 1, number: 1 },
        Step {
            mode: 2,
            number: 65535
        },
    ]?;
    prints(
        &rt,
        heap,
        Answer::Granted { count: 6, steps },
        "granted 6 steps 1,1 2,65535",
    )?;
    let steps = Vec::new(heap);
    prints(
        &rt,
        heap,
        Answer::Granted { count: 0, steps },
        "granted 0 steps",
    )
}

#[test]
fn refusals_are_printed(rt: HostRuntime) -> Result<(), Fail> {
    let heap = rt.alloc();
    let lines = [
        (Refusal::NotInUse { cell: 65535 }, "refused 1 cell 65535"),
        (Refusal::TooManyArguments, "refused 2"),
        (Refusal::NotAnAtom { cell: 3 }, "refused 3 cell 3"),
        (Refusal::TooLong, "refused 4"),
        (Refusal::TooShort, "refused 5"),
        (
            Refusal::Unlawful {
                step: 4096,
                rule: 7,
            },
            "refused 6 step 4096 rule 7",
        ),
        (Refusal::NoCell, "refused 20"),
        (Refusal::Clash, "refused 21"),
        (Refusal::NoCellAfter { count: 5 }, "refused 20 tries 5"),
        (Refusal::SpentAfter { count: 0 }, "refused 22 tries 0"),
        (
            Refusal::FullAfter { count: 4294967295 },
            "refused 23 tries 4294967295",
        ),
    ];
    for (refusal, line) in lines {
        prints(&rt, heap, Answer::Refused(refusal), line)?;
    }
    Ok(())
}

#[test]
fn files_are_named(rt: HostRuntime) -> Result<(), Fail> {
    let heap = rt.alloc();
    let fault = Fault {
        cause: Cause::PastEnd,
        place: 0,
        entry: 0,
        layer: Layer::Book,
    };
    let line = book_message(heap, "BOOK", fault)?;
    assert_eq!(rt; line.as_str(), "BOOK: fault 7 place 0 entry 0 layer book\n");
    let line = script_message(heap, "SCRIPT", ScriptError::Line { number: 3 })?;
    assert_eq!(rt; line.as_str(), "SCRIPT: line 3 is not a call\n");
    let line = script_message(heap, "SCRIPT", ScriptError::NoMemory)?;
    assert_eq!(rt; line.as_str(), "SCRIPT: out of memory\n");
    Ok(())
}
