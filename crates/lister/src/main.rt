// Lists a book of accession leaves that comes on standard input.
#![tactic(auto)]

ghost use Rattle.std.specs.Prelude.{◌≤◌, length, IfOk};

use anyhow::anyhow;
use leaf::accession_number::AccessionNumber;
use leaf::kind::WireLeaf;
use std::io;
use std::io::{Read, Write};
use wire::list_refusal::ListRefusal;
use wire::listing::list;

// Reads until the input ends or the buffer is full, and says how many bytes came.
fn fill(input: &mut impl Read, buffer: &mut [u8]) -> io::Result<usize>
    ensures { IfOk result (λ n. n ≤ length buffer.old) }
{
    let mut count = 0;
    while count < buffer.len() {
        match input.read(&mut buffer[count..])? {
            0 => break,
            more => count += more,
        }
    }
    Ok(count)
}

fn run(rt: &HostRuntime) -> anyhow::Result<()> {
    // one byte more than a book may have, so that a longer book is noticed
    let mut input = [0; 65536];
    let count = fill(&mut rt.stdin(), &mut input)?;
    // a listing is refused if it is longer
    let mut output = [0; 65536];
    match list::<AccessionNumber>(rt.alloc(), &input[0..count], &mut output) {
        Ok(length) => rt.stdout().write_all(&output[0..length])?,
        Err(ListRefusal::ShortOutput) => return Err(anyhow!(
            "the listing is longer than 65536 bytes"
        )),
        Err(ListRefusal::NoMemory) => return Err(anyhow!("out of memory")),
    }
    Ok(())
}

fn main(rt: HostRuntime) -> anyhow::Result<()> {
    run(&rt)
}
