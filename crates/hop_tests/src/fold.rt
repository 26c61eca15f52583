//! Tests of the blocking job, with a job of the caller's own.
ghost use Rattle.std.specs.Prelude.{◌≤◌, length};

use hop_base::{Blob, NoMemory, Pair, Text, Texts, Val};
use hop_fold::{block, block_lines, block_short_lines};
use hop_jobs::{Sum, Top, Wc};
use hop_laws::Job;
use hop_records::{Book, BookFault};
use std::alloc::Global;
use std::test::Fail;

// Counts records by their first byte.
#[derive(Clone, Copy, Debug)]
struct Initials;

impl Job for Initials {
    ghost use Rattle.hop_tests.specs.Initials.{initials_meaning, initials_lawful};

    ghost meaning = { λ _. initials_meaning };

    ghost lawful = { λ _. initials_lawful };

    fn name(&self, alloc: Global) -> Result<Blob, NoMemory> {
        Blob::from_short(alloc, b"initials")
    }

    fn map(&self, alloc: Global, line: &[u8]) -> Result<Vec<Pair>, NoMemory> {
        let (first, _) = line.split_at(line.len().min(1));
        let key = Blob::from_short(alloc, first)?;
        let s = Blob::from_short(alloc, b"")?;
        let val = Val { n: 1, s };
        let mut pairs = Vec::new(alloc);
        pairs.push(Pair { key, val })?;
        Ok(pairs)
    }

    fn combine(&self, alloc: Global, key: &Blob, vals: Vec<Val>) -> Result<Vec<Val>, NoMemory> {
        Sum.combine(alloc, key, vals)
    }

    fn reduce(
        &self,
        alloc: Global,
        key: &Blob,
        vals: &[Val],
        out: &mut Vec<u8>,
    ) -> Result<(), NoMemory> {
        Sum.reduce(alloc, key, vals, out)
    }
}

// The texts of the blocking job, each behind the number of its partition and a colon.
fn blocked<J: Job>(alloc: Global, job: &J, input: &[u8], r: u8) -> Result<Vec<u8>, BookFault>
    requires few { length input.now ≤ 16777216 }
    requires some { 1 ≤ r }
    requires most { r ≤ 8 }
{
    let book = Book::read(alloc, input, 16_777_216)?;
    match block(alloc, job, &book, r) {
        Ok(texts) => labelled(alloc, &texts),
        Err(NoMemory) => Err(BookFault::NoMemory),
    }
}

fn labelled(alloc: Global, texts: &Texts) -> Result<Vec<u8>, BookFault> {
    let mut all = Vec::new(alloc);
    for text in texts.as_slice() {
        if all.push(b':').is_err() || all.extend_from_slice(text.as_slice()).is_err() {
            return Err(BookFault::NoMemory);
        }
    }
    Ok(all)
}

#[test]
fn blocks_by_a_job_of_the_callers_own(rt: HostRuntime) -> Result<(), Fail> {
    let alloc = rt.alloc();
    let text = blocked(alloc, &Initials, b"ab\nb\n\nax", 1)?;
    assert_eq!(rt; text.as_slice(), b":\t1\na\t2\nb\t1\n".as_slice());
    Ok(())
}

#[test]
fn blocks_the_lines_of_texts(rt: HostRuntime) -> Result<(), Fail> {
    let alloc = rt.alloc();
    let mut texts = Texts::new(alloc);
    texts.push(Text::from_slice(alloc, b"b\t2\n")?)?;
    texts.push(Text::from_slice(alloc, b"a\t3\nc\t3\n")?)?;
    let out = block_lines(alloc, &Top::new(2), &texts, 2)?;
    assert_eq!(rt;
        labelled(alloc, &out)?.as_slice(),
        b":a\t3\nc\t3\n:".as_slice()
    );
    Ok(())
}

// A line of 65,556 bytes is read, and one of a byte more is left out. The line is one word; its text has a colon before it here, and a tab, a number and a line feed behind it.
#[test]
fn leaves_out_lines_that_are_too_long(rt: HostRuntime) -> Result<(), Fail> {
    let alloc = rt.alloc();
    for (len, written) in [(65_556, 65_560), (65_557, 1)] {
        let mut line = vec![in alloc; b'x'; len]?;
        line.push(b'\n')?;
        let mut texts = Texts::new(alloc);
        texts.push(Text::from_vec(line))?;
        let out = block_short_lines(alloc, &Wc, &texts, 1)?;
        assert_eq!(rt; labelled(alloc, &out)?.len(), written);
    }
    Ok(())
}

// Keys about as long as the part of a key that stands in an entry, and keys that end in zero bytes.
#[test]
fn tells_keys_apart_by_what_follows_their_heads(rt: HostRuntime) -> Result<(), Fail> {
    let alloc = rt.alloc();
    let input =
        b"abcdefghijklmnopq a\0 abcdefghijklmno abcdefghijklmn\0 a\0\0 abcdefghijklmn\nabcdefghijklmnop a abcdefghijklmno\0 a\0";
    let text = blocked(alloc, &Wc, input, 1)?;
    assert_eq!(rt;
        text.as_slice(),
        b":a\t1\na\0\t2\na\0\0\t1\nabcdefghijklmn\t1\nabcdefghijklmn\0\t1\nabcdefghijklmno\t1\nabcdefghijklmno\0\t1\nabcdefghijklmnop\t1\nabcdefghijklmnopq\t1\n".as_slice()
    );
    Ok(())
}
