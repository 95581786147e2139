use book::annex::Annex;
use book::interface::Book;
use leaf::accession_number::AccessionNumber;
use std::test::Fail;
use wire::byte_book::ByteBook;
use wire::list_refusal::ListRefusal;
use wire::listing::list;
use wire::writer::{WriteRefusal, write};

// A co-fact of a variable and a node over it.
const SAMPLE: [u8; 16] = [2, 0, 13, 16, 0, 0, 18, 0, 3, 0, 1, 0, 19, 0, 1, 1];

type Sample = ByteBook<AccessionNumber>;

#[test]
fn listings_fit_or_are_refused(rt: HostRuntime) {
    let mut out = [b'.'; 25];
    assert_eq!(rt;
        list::<AccessionNumber>(rt.alloc(), &SAMPLE, &mut out),
        Ok(23)
    );
    assert!(rt; &out[0..25] == b"0 cofact 2 0\nentries 1\n..".as_slice());
    let mut short = [b'.'; 22];
    assert_eq!(rt;
        list::<AccessionNumber>(rt.alloc(), &SAMPLE, &mut short),
        Err(ListRefusal::ShortOutput)
    );
    assert!(rt; &short[0..22] == b"......................".as_slice());
    assert_eq!(rt; ListRefusal::ShortOutput.number(), Some(14));
}

#[test]
fn forms_fit_or_are_refused(rt: HostRuntime) -> Result<(), Fail> {
    let book = Sample::open(rt.alloc(), &SAMPLE)?;
    let mut out = [7; 18];
    assert_eq!(rt;
        write::<AccessionNumber, ByteBook<AccessionNumber>>(&book, &mut out),
        Ok(16)
    );
    assert!(rt; out[0..16] == SAMPLE[0..16] && out[16] == 7 && out[17] == 7);
    let mut short = [7; 15];
    assert_eq!(rt;
        write::<AccessionNumber, ByteBook<AccessionNumber>>(&book, &mut short),
        Err(WriteRefusal::ShortOutput)
    );
    assert!(rt; short[0..15] == [7; 15]);
    assert_eq!(rt; WriteRefusal::ShortOutput.number(), 14);
    Ok(())
}

// The bytes of as many clauses of 64 leaves or nodes as a book has room for.
fn long_book(rt: &HostRuntime) -> Result<Vec<u8>, Fail> {
    let mut bytes = Vec::new(rt.alloc());
    for _ in 0..143 {
        bytes.extend_from_slice(&[1, 1, 198])?;
        for _ in 0..63 {
            bytes.extend_from_slice(&[17, 0, 4, 0, 0, 0, 9])?;
        }
        bytes.extend_from_slice(&[18, 0, 5, 0, 7, 0, 1, 2, 19, 0, 2, 63, 63])?;
    }
    Ok(bytes)
}

#[test]
fn annexes_too_long_for_bytes_are_refused(rt: HostRuntime) -> Result<(), Fail> {
    let bytes = long_book(&rt)?;
    let book = Annex {
        first: Sample::open(rt.alloc(), &bytes)?,
        second: Sample::open(rt.alloc(), &bytes)?,
    };
    assert_eq!(rt; book.len(), 286);
    let mut out = [7; 3];
    assert_eq!(rt;
        write::<AccessionNumber, Annex<ByteBook<AccessionNumber>, ByteBook<AccessionNumber>>>(
            &book, &mut out
        ),
        Err(WriteRefusal::TooMuch)
    );
    assert!(rt; out[0..3] == [7; 3]);
    assert_eq!(rt; WriteRefusal::TooMuch.number(), 13);
    Ok(())
}
