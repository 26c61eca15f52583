//! Books read by hand.
use hop_records::{Book, BookFault};
use std::alloc::Global;
use std::test::Fail;

// The records, and a bar behind each.
fn listed(alloc: Global, book: &Book) -> Result<Vec<u8>, Fail> {
    let mut text = Vec::new(alloc);
    for k in 0..book.records() {
        text.extend_from_slice(book.record(k))?;
        text.push(b'|')?;
    }
    Ok(text)
}

#[test]
fn records_of_small_texts(rt: HostRuntime) -> Result<(), Fail> {
    let table: [(&[u8], &[u8]); 7] = [
        (b"", b""),
        (b"\n", b"|"),
        (b"x", b"x|"),
        (b"x\n", b"x|"),
        (b"x\n\n", b"x||"),
        (b"a\r\n", b"a\r|"),
        (b"a b\nb c\na a\n", b"a b|b c|a a|"),
    ];
    for (text, wanted) in table {
        assert!(rt; text.len() < 100);
        let book = Book::read(rt.alloc(), text, 1)?;
        assert_eq!(rt; listed(rt.alloc(), &book)?.as_slice(), wanted);
    }
    Ok(())
}

// The records of each split, and a bar behind each split.
fn shown(alloc: Global, book: &Book) -> Result<Vec<u8>, Fail> {
    let mut text = Vec::new(alloc);
    for split in 0..book.splits() {
        for k in 0..book.len(split) {
            text.extend_from_slice(book.record_at(split, k))?;
        }
        text.push(b'|')?;
    }
    Ok(text)
}

#[test]
fn splits_and_spills(rt: HostRuntime) -> Result<(), Fail> {
    let alloc = rt.alloc();
    let book = Book::from_vec(alloc, Vec::from_slice(alloc, b"a\nb\nc\nd\ne")?, 2)?;
    assert_eq!(rt; shown(alloc, &book)?.as_slice(), b"ab|cd|e|".as_slice());
    assert_eq!(rt; [book.spills(1), book.spills(2), book.spills(9)], [5, 3, 3]);
    Ok(())
}

#[test]
fn refused_books(rt: HostRuntime) -> Result<(), Fail> {
    let alloc = rt.alloc();
    let mut text = vec![in alloc; b'x'; 65_537]?;
    text[0] = b'\n';
    assert_eq!(rt;
        Book::read(alloc, &text, 1).err(),
        Some(BookFault::RecordTooLong { index: 1 })
    );
    text[1] = b'\n';
    assert_eq!(rt; Book::read(alloc, &text, 3)?.records(), 3);
    let lines = vec![in alloc; b'\n'; 1_025]?;
    assert_eq!(rt;
        Book::read(alloc, &lines, 1).err(),
        Some(BookFault::TooManySplits { count: 1_025 })
    );
    assert_eq!(rt; Book::read(alloc, &lines[1..], 1)?.splits(), 1_024);
    Ok(())
}
