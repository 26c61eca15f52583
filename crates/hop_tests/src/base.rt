//! Each call once, where memory is there, and the limits of a blob.
use hop_base::limits::MAX_BLOB;
use hop_base::{Blob, BlobFault, Lens, Marks, Pair, Sheet, Text, Texts, Val, Words};
use std::alloc::Global;
use std::test::Fail;

fn pair(alloc: Global, key: &[u8], n: u64, text: &[u8]) -> Result<Pair, BlobFault> {
    let key = Blob::from_slice(alloc, key)?;
    let s = Blob::from_slice(alloc, text)?;
    Ok(Pair {
        key,
        val: Val { n, s },
    })
}

#[test]
fn blobs_end_at_their_limit(rt: HostRuntime) -> Result<(), Fail> {
    let alloc = rt.alloc();
    let bytes = vec![in alloc; b'x'; MAX_BLOB]?;
    let longest = Blob::from_slice(alloc, bytes.as_slice())?;
    assert_eq!(rt; longest.copy()?, longest);
    let bytes = vec![in alloc; b'x'; MAX_BLOB + 1]?;
    let too_long = Blob::from_slice(alloc, bytes.as_slice());
    assert_eq!(rt; too_long.err(), Some(BlobFault::TooLong { len: 131_072 }));
    Ok(())
}

// Three pairs, out of order.
fn three_pairs(alloc: Global) -> Result<Vec<Pair>, Fail> {
    let mut pairs = Vec::new(alloc);
    pairs.push(pair(alloc, b"b", 1, b"")?)?;
    pairs.push(pair(alloc, b"a", 2, b"y")?)?;
    pairs.push(pair(alloc, b"a", 2, b"x")?)?;
    Ok(pairs)
}

// The same in order.
fn in_order(alloc: Global) -> Result<Vec<Pair>, Fail> {
    let mut pairs = Vec::new(alloc);
    pairs.push(pair(alloc, b"a", 2, b"x")?)?;
    pairs.push(pair(alloc, b"a", 2, b"y")?.copy()?)?;
    pairs.push(pair(alloc, b"b", 1, b"")?)?;
    Ok(pairs)
}

#[test]
fn sheets_are_in_order(rt: HostRuntime) -> Result<(), Fail> {
    let sheet = Sheet::from_pairs(three_pairs(rt.alloc())?);
    assert_eq!(rt; sheet.as_slice().len(), 3);
    let copied = sheet.copy()?.into_vec();
    assert!(rt; copied == in_order(rt.alloc())?);
    Ok(())
}

#[test]
fn words_are_told(rt: HostRuntime) -> Result<(), Fail> {
    let mut words = Words::new(rt.alloc());
    words.push("run")?;
    assert!(rt; words.len() == 1);
    assert_eq!(rt; words.word(0), "run");
    Ok(())
}

#[test]
fn numbers_are_told(rt: HostRuntime) -> Result<(), Fail> {
    let mut lens = Lens::new(rt.alloc());
    lens.push(7)?;
    assert_eq!(rt; lens.as_slice(), [7].as_slice());
    let mut marks = Marks::new(rt.alloc());
    marks.push(5)?;
    let marks = marks.copy()?.into_vec();
    assert_eq!(rt; marks.as_slice(), [5].as_slice());
    Ok(())
}

#[test]
fn texts_are_told(rt: HostRuntime) -> Result<(), Fail> {
    let mut texts = Texts::new(rt.alloc());
    texts.push(Text::from_slice(rt.alloc(), b"a")?.copy()?)?;
    assert_eq!(rt; texts.as_slice().len(), 1);
    assert_eq!(rt; texts.as_slice()[0].as_slice(), b"a".as_slice());
    Ok(())
}
