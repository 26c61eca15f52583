//! The vector of the format with its variants, and what is read written again.
use hop_base::{FlatSheet, Pair};
use hop_spill::{Spill, SpillFault, decode, decode_flat, encode, encode_flat};
use std::alloc::Global;
use std::test::Fail;

// Split 0, attempt 0, records 0 to 1, one reducer, and one pair: the key `a`, the number 1, no text.
const VECTOR: [u8; 45] = [
    0x48, 0x53, 0x50, 0x31, 0, 0, 0, 0, 0, 0, 0, 0, 0, 0, 0, 0, 0, 0, 0, 1, 0, 0, 0, 1, 0, 0, 0, 1,
    0, 0, 0, 1, 0x61, 0, 0, 0, 0, 0, 0, 0, 1, 0, 0, 0, 0,
];

// Where the bytes are damaged, if they are.
fn damage(alloc: Global, bytes: &[u8]) -> Result<Option<u64>, Fail> {
    match decode(alloc, bytes) {
        Ok(_spill) => Ok(None),
        Err(SpillFault::Damaged { place }) => Ok(Some(place)),
        Err(SpillFault::NoMemory) => Err(Fail::from("no memory")),
    }
}

// The only pair of a spill of one sheet.
fn only_pair(spill: &Spill) -> Option<&Pair> {
    let [sheet] = spill.sheets.as_slice() else {
        return None;
    };
    let [pair] = sheet.as_slice() else {
        return None;
    };
    Some(pair)
}

#[test]
fn reads_the_vector(rt: HostRuntime) -> Result<(), Fail> {
    let spill = decode(rt.alloc(), &VECTOR)?;
    assert_eq!(rt;
        (spill.split, spill.attempt, spill.from, spill.to),
        (0, 0, 0, 1)
    );
    let Some(pair) = only_pair(&spill) else {
        return Err(Fail::from("it is not one pair"));
    };
    let shown = (pair.key.as_slice(), pair.val.n, pair.val.s.as_slice());
    assert_eq!(rt; shown, (b"a".as_slice(), 1, b"".as_slice()));
    Ok(())
}

#[test]
fn writes_the_vector(rt: HostRuntime) -> Result<(), Fail> {
    let text = encode(rt.alloc(), &decode(rt.alloc(), &VECTOR)?)?;
    assert_eq!(rt; text.as_slice(), VECTOR.as_slice());
    Ok(())
}

#[test]
fn flat_sheets_are_written_alike(rt: HostRuntime) -> Result<(), Fail> {
    let flat = decode_flat(rt.alloc(), &VECTOR)?;
    let text = encode_flat(rt.alloc(), &flat)?;
    assert_eq!(rt; text.as_slice(), VECTOR.as_slice());
    let spill = decode(rt.alloc(), &VECTOR)?;
    let ([sheet], [bytes]) = (spill.sheets.as_slice(), flat.sheets.as_slice()) else {
        return Err(Fail::from("it is not one sheet"));
    };
    assert_eq!(rt;
        FlatSheet::from_sheet(rt.alloc(), sheet)?.bytes(),
        bytes.bytes()
    );
    Ok(())
}

// Where reading fails in the first `len` bytes of the vector: at the first field that isn't whole.
fn place_in_prefix(len: usize) -> u64 {
    match len {
        0..=3 => 0,
        4..=7 => 4,
        8..=11 => 8,
        12..=15 => 12,
        16..=19 => 16,
        20..=23 => 20,
        24..=27 => 24,
        28..=31 => 28,
        32 => 32,
        33..=40 => 33,
        _ => 41,
    }
}

#[test]
fn names_the_place_in_each_prefix(rt: HostRuntime) -> Result<(), Fail> {
    for len in 0..VECTOR.len() {
        let place = damage(rt.alloc(), &VECTOR[..len])?;
        assert_eq!(rt; place, Some(place_in_prefix(len)), "at {len}");
    }
    Ok(())
}

#[test]
fn names_the_place_in_each_variant(rt: HostRuntime) -> Result<(), Fail> {
    let alloc = rt.alloc();
    // The byte that differs, what it is, and the place: a letter, the split, the attempt, `from`, `to`,
    // the reducers, and the lengths of the key and of the text.
    let variants: [(usize, u8, u64); 11] = [
        (3, 0x32, 0),
        (6, 4, 4),
        (11, 16, 8),
        (12, 1, 12),
        (19, 0, 16),
        (16, 2, 16),
        (23, 0, 20),
        (23, 9, 20),
        (23, 2, 28),
        (29, 2, 28),
        (44, 1, 45),
    ];
    for (at, byte, place) in variants {
        let mut bytes = VECTOR;
        if let Some(changed) = bytes.get_mut(at) {
            *changed = byte;
        }
        assert_eq!(rt; damage(alloc, &bytes)?, Some(place), "byte {at} is {byte}");
    }
    let mut longer = Vec::from_slice(alloc, &VECTOR)?;
    longer.push(0)?;
    assert_eq!(rt; damage(alloc, &longer)?, Some(45));
    Ok(())
}

#[test]
fn takes_pairs_in_order_alone(rt: HostRuntime) -> Result<(), Fail> {
    // The vector with a second pair of another key behind its own.
    let cases = [(b'a', None), (b'b', None), (b'A', Some(45))];
    for (key, place) in cases {
        let mut bytes = Vec::from_slice(rt.alloc(), &VECTOR[..24])?;
        bytes.extend_from_slice(&[0, 0, 0, 2])?;
        bytes.extend_from_slice(&VECTOR[28..])?;
        bytes.extend_from_slice(&[0, 0, 0, 1, key])?;
        bytes.extend_from_slice(&VECTOR[33..])?;
        assert_eq!(rt; damage(rt.alloc(), &bytes)?, place, "the key {key}");
    }
    Ok(())
}
