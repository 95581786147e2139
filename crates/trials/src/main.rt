// Lists many books, good and damaged. Each line of the input has the leaf kind, `number` or `mark`, and the book in words:
// hexadecimal bytes, or such a word with `*N` behind it for N of them in a row.
#![tactic(auto)]

use anyhow::anyhow;
use book::interface::Book;
use leaf::accession_number::AccessionNumber;
use leaf::kind::WireLeaf;
use leaf::shelf_mark::ShelfMark;
use std::alloc::Global;
use std::io;
use wire::byte_book::ByteBook;
use wire::inspect::inspect;
use wire::lines::last_text;
use wire::writer::write;

// The value of a hexadecimal digit. The library's decoders take capital letters too, which are no digits here.
fn digit(byte: u8) -> anyhow::Result<u8> {
    match byte {
        b'0'..=b'9' => Ok(byte - b'0'),
        b'a'..=b'f' => Ok(byte - b'a' + 10),
        _ => Err(anyhow!("not a hexadecimal digit")),
    }
}

// Adds the bytes that the digits write.
fn push_bytes(digits: &str, bytes: &mut Vec<u8>) -> anyhow::Result<()> {
    for pair in digits.as_bytes().chunks(2) {
        let [high, low] = pair else {
            return Err(anyhow!("half a byte"));
        };
        bytes.push((digit(*high)? & 15) * 16 + (digit(*low)? & 15))?;
    }
    Ok(())
}

// The bytes of a book in words.
fn expand(heap: Global, words: &str) -> anyhow::Result<Vec<u8>> {
    let mut bytes = Vec::new(heap);
    for word in words.split(' ') {
        match word.split_once('*') {
            Some((digits, times)) => {
                for _ in 0..times.parse::<u32>()? {
                    push_bytes(digits, &mut bytes)?;
                }
            }
            None => push_bytes(word, &mut bytes)?,
        }
    }
    Ok(bytes)
}

// Whether the writer gives back the bytes before the first fault, and all of them where there is none.
fn writes_back<L: WireLeaf>(
    heap: Global,
    book: &ByteBook<L>,
    bytes: &[u8],
) -> anyhow::Result<bool> {
    let mut out = vec![in heap; 0; bytes.len()]?;
    let whole = book.fault().is_none();
    let written = write::<L, ByteBook<L>>(book, &mut out);
    Ok(written.is_ok_and(|count| {
        count <= bytes.len()
            && out.as_slice().starts_with(&bytes[0..count])
            && (!whole || count == bytes.len())
    }))
}

// Lists one book, and holds what `inspect` says and what the writer writes against it.
fn trial<L: WireLeaf>(rt: &HostRuntime, number: usize, bytes: &[u8]) -> anyhow::Result<()> {
    let book = ByteBook::<L>::open(rt.alloc(), bytes)?;
    let fault = book.fault();
    if inspect::<L>(bytes) != fault {
        return Err(anyhow!("inspect disagrees with the book"));
    }
    if !writes_back::<L>(rt.alloc(), &book, bytes)? {
        return Err(anyhow!("the writer does not give the bytes back"));
    }
    let count = book.len();
    let last = last_text(rt.alloc(), count, fault)?;
    print!(rt; "{number}: {count} lines, {last}")?;
    Ok(())
}

fn run(rt: &HostRuntime) -> anyhow::Result<()> {
    let text = io::read_to_string(rt.alloc(), rt.stdin())?;
    for (number, line) in text.lines().enumerate() {
        let (kind, words) = line
            .split_once(' ')
            .ok_or_else(|| anyhow!("a line without a leaf kind"))?;
        let bytes = expand(rt.alloc(), words)?;
        match kind {
            "number" => trial::<AccessionNumber>(rt, number, &bytes)?,
            "mark" => trial::<ShelfMark>(rt, number, &bytes)?,
            _ => return Err(anyhow!("no such leaf kind")),
        }
    }
    let count = text.lines().count();
    println!(rt; "books {count}")?;
    Ok(())
}

fn main(rt: HostRuntime) -> anyhow::Result<()> {
    run(&rt)
}
