//! Worked runs of the whole call over folders in memory, and what follows from its contract alone.
ghost use Rattle.std.specs.Prelude.{◌≡◌, ◌≢◌, ◌⊎◌, None, Some, IfOk, vec_len};
ghost use Rattle.hop_base.specs.Files.{Files};
ghost use Rattle.hop_ports.specs.Clean.{clean_view};
ghost use Rattle.hop_words.specs.Options.{AskedOptions, asked};
ghost use Rattle.hop_top.specs.Reading.{AreReadable, reads_of};

use hop_base::{NoMemory, Part, Words};
use hop_ports::{CleanFolder, Folder, GetFault, MemFolder, MemSink, OpenGate, Sink};
use hop_top::{File, Handed, Outcome, Refusal, fault_line, hop, hop_plain, status};
use std::alloc::{AllocError, Global};
use std::test::Fail;

// Eight spill folders.
fn eight(alloc: Global) -> Result<Vec<CleanFolder>, AllocError>
    ensures { IfOk result (λ spills. vec_len spills ≡ 8) }
{
    let mut spills = Vec::new(alloc);
    for _ in 0..8u8 {
        spills.push(CleanFolder::new(alloc))?;
    }
    Ok(spills)
}

fn words(alloc: Global, line: &[&str]) -> Result<Words, NoMemory> {
    let mut words = Words::new(alloc);
    for word in line {
        words.push(word)?;
    }
    Ok(words)
}

// One failing call, or none.
fn failing(alloc: Global, call: Option<u64>) -> Result<Vec<u64>, NoMemory> {
    let mut fails = Vec::new(alloc);
    if let Some(call) = call {
        fails.push(call)?;
    }
    Ok(fails)
}

// The call over this folder.
fn ran<F: Folder + Drop>(
    alloc: Global,
    line: &[&str],
    folder: F,
    out: &mut MemSink,
) -> Result<Handed<Outcome, F, CleanFolder>, Fail> {
    let words = words(alloc, line)?;
    Ok(hop_plain(alloc, &words, folder, eight(alloc)?, out))
}

// The first two parts in a folder.
fn parts<F: Folder>(alloc: Global, folder: &mut F) -> Result<(Vec<u8>, Vec<u8>), Fail> {
    let first = held(alloc, folder, "part-0")?;
    let second = held(alloc, folder, "part-1")?;
    Ok((first, second))
}

// The answer of a call, with the two parts that it left.
fn left_by<F: Folder + Drop>(
    alloc: Global,
    line: &[&str],
    folder: F,
    out: &mut MemSink,
) -> Result<(Outcome, Vec<u8>, Vec<u8>), Fail> {
    let Handed {
        answer,
        mut folder,
        ..
    } = ran(alloc, line, folder, out)?;
    let (first, second) = parts(alloc, &mut folder)?;
    Ok((answer, first, second))
}

// A folder that holds this input under the name `in`.
fn with_input(alloc: Global, input: &[u8]) -> Result<CleanFolder, Fail> {
    let mut folder = CleanFolder::new(alloc);
    folder.put("in", input)?;
    Ok(folder)
}

// The bytes under a name, none where there is no such file.
fn held<F: Folder>(alloc: Global, folder: &mut F, name: &str) -> Result<Vec<u8>, GetFault> {
    match folder.get(name, 1_000) {
        Ok(bytes) => Ok(bytes),
        Err(GetFault::Missing) => Ok(Vec::new(alloc)),
        Err(fault) => Err(fault),
    }
}

// These bytes, and so many `x` behind them.
fn followed_by(alloc: Global, bytes: &[u8], len: usize) -> Result<Vec<u8>, AllocError> {
    let mut input = Vec::from_slice(alloc, bytes)?;
    let long = vec![in alloc; b'x'; len]?;
    input.extend_from_slice(&long)?;
    Ok(input)
}

// Over a folder that can't fail, no failed put is answered.
fn over_clean(
    alloc: Global,
    words: &Words,
    folder: CleanFolder,
    spills: Vec<CleanFolder>,
    out: &mut MemSink,
) -> Outcome
    requires { vec_len spills ≡ 8 }
    ensures { result ≢ Outcome.FolderFailed }
{
    hop_plain(alloc, words, folder, spills, out).answer
}

// Words that ask for nothing are answered by Usage or by want of memory.
fn usage<F: Folder + Drop>(
    alloc: Global,
    words: &Words,
    folder: F,
    spills: Vec<CleanFolder>,
    out: &mut MemSink,
) -> Outcome
    requires { vec_len spills ≡ 8 }
    ensures { asked words.now ≡ None → (result ≡ Outcome.Usage) ⊎ (result ≡ Outcome.NoMemory) }
{
    hop_plain(alloc, words, folder, spills, out).answer
}

// A file that is there is read, where no get fails.
fn over_clean_present(
    alloc: Global,
    words: &Words,
    folder: CleanFolder,
    spills: Vec<CleanFolder>,
    out: &mut MemSink,
) -> Outcome
    requires { vec_len spills ≡ 8 }
    ensures { (options : AskedOptions) (files : Files) (file : File) → asked words.now ≡ Some options → (clean_view folder).held ≡ Some files
        → AreReadable files (reads_of options) → result ≢ Outcome.InputFailed file }
{
    hop_plain(alloc, words, folder, spills, out).answer
}

// A command line and the input, and then part 0, part 1 and the summary that come of them.
const WORKED: [(&[&str], &[u8], &str, &str, &str); 9] = [
    (
        &["block", "wc", "in"],
        b"a b\nb c\na a\n",
        "a\t3\nb\t2\nc\t1\n",
        "",
        "done records=3 parts=1\n",
    ),
    (
        &["block", "wc", "in", "--reducers", "2"],
        b"a b\nb c\na a\n",
        "b\t2\n",
        "a\t3\nc\t1\n",
        "done records=3 parts=2\n",
    ),
    (
        &["block", "wc", "in"],
        b"x",
        "x\t1\n",
        "",
        "done records=1 parts=1\n",
    ),
    (
        &["block", "wc", "in"],
        b"x\n\n",
        "x\t1\n",
        "",
        "done records=2 parts=1\n",
    ),
    (
        &["block", "wc", "in"],
        b"",
        "",
        "",
        "done records=0 parts=1\n",
    ),
    (
        &["block", "sum", "in"],
        b"k\t18446744073709551615\nk\t1\nk\t18446744073709551616\nk\t\nk\n",
        "k\t18446744073709551615\n",
        "",
        "done records=5 parts=1\n",
    ),
    (
        &["block", "top", "in", "--k", "2"],
        b"b\t3\na\t3\nc\t5\nb\t3\n",
        "c\t5\na\t3\n",
        "",
        "done records=4 parts=1\n",
    ),
    (
        &["--k=4", "block", "top", "in"],
        b"b\t3\na\t3\nc\t5\nb\t3\n",
        "c\t5\na\t3\nb\t3\nb\t3\n",
        "",
        "done records=4 parts=1\n",
    ),
    (
        &["block", "max", "--", "in"],
        b"b\t3\na\t3\nc\t5\nb\t3\n",
        "a\t3\nb\t3\nc\t5\n",
        "",
        "done records=4 parts=1\n",
    ),
];

#[test]
fn gives_the_worked_texts(rt: HostRuntime) -> Result<(), Fail> {
    for (line, input, first, second, summary) in WORKED {
        let mut out = MemSink::new(rt.alloc(), Vec::new(rt.alloc()));
        let folder = with_input(rt.alloc(), input)?;
        let left = left_by(rt.alloc(), line, folder, &mut out)?;
        assert_eq!(rt; left.0, Outcome::Done, "at {line:?}");
        let texts = [left.1.as_slice(), left.2.as_slice(), out.taken()];
        let wanted = [first.as_bytes(), second.as_bytes(), summary.as_bytes()];
        assert_eq!(rt; texts, wanted, "at {line:?}");
    }
    Ok(())
}

// The answer of a call, and whether call 2 of the folder, which fails, was left over: call 1 put the input,
// so then nothing was read.
fn unread(alloc: Global, line: &[&str], out: &mut MemSink) -> Result<(Outcome, bool), Fail> {
    let mut folder = MemFolder::new(alloc, failing(alloc, Some(2))?);
    folder.put("in", b"a b\nb c\na a\n")?;
    let Handed {
        answer,
        mut folder,
        ..
    } = ran(alloc, line, folder, out)?;
    let next = folder.get("part-0", 20);
    Ok((answer, next.err() == Some(GetFault::Failed)))
}

#[test]
fn reads_nothing_where_words_are_not_understood(rt: HostRuntime) -> Result<(), Fail> {
    let lines: [&[&str]; 5] = [
        &[],
        &["run", "wc", "in", "--k", "0"],
        &["run", "wc"],
        &["block", "wc", "in", "--marks", "5"],
        &["run", "wc", "in", "--marks", "5,5"],
    ];
    for line in lines {
        let mut out = MemSink::new(rt.alloc(), Vec::new(rt.alloc()));
        let (answer, unread) = unread(rt.alloc(), line, &mut out)?;
        assert_eq!(rt; answer, Outcome::Usage, "at {line:?}");
        assert!(rt; unread, "at {line:?}");
        assert!(rt; out.taken().is_empty(), "at {line:?}");
    }
    Ok(())
}

// The answer of a call over an input of these bytes and so many `x` behind them, with the first part.
fn counted(
    alloc: Global,
    before: &[u8],
    len: usize,
    out: &mut MemSink,
) -> Result<(Outcome, Vec<u8>), Fail> {
    let input = followed_by(alloc, before, len)?;
    let folder = with_input(alloc, &input)?;
    let Handed {
        answer,
        mut folder,
        ..
    } = ran(alloc, &["block", "wc", "in"], folder, out)?;
    match folder.get("part-0", 100_000) {
        Ok(part) => Ok((answer, part)),
        Err(GetFault::Missing) => Ok((answer, Vec::new(alloc))),
        Err(fault) => Err(Fail::from(fault)),
    }
}

#[test]
fn takes_a_record_of_the_greatest_length(rt: HostRuntime) -> Result<(), Fail> {
    let mut out = MemSink::new(rt.alloc(), Vec::new(rt.alloc()));
    let (answer, part) = counted(rt.alloc(), b"", 65_535, &mut out)?;
    assert_eq!(rt; answer, Outcome::Done);
    assert_eq!(rt; part.len(), 65_538);
    assert!(rt; part.as_slice().ends_with(b"x\t1\n"));
    assert_eq!(rt; out.taken(), b"done records=1 parts=1\n".as_slice());
    Ok(())
}

#[test]
fn refuses_what_is_too_long(rt: HostRuntime) -> Result<(), Fail> {
    let first = Refusal::RecordTooLong { index: 0 };
    let second = Refusal::RecordTooLong { index: 1 };
    let whole = Refusal::TooLong { file: File::Input };
    let cases: [(&[u8], usize, Refusal); 3] = [
        (b"", 65_536, first),
        (b"y\n", 65_536, second),
        (b"", 16_777_217, whole),
    ];
    for (before, len, refusal) in cases {
        let mut out = MemSink::new(rt.alloc(), Vec::new(rt.alloc()));
        let (answer, part) = counted(rt.alloc(), before, len, &mut out)?;
        assert_eq!(rt; answer, Outcome::InputRefused(refusal));
        assert!(rt; part.is_empty());
        assert!(rt; out.taken().is_empty());
    }
    Ok(())
}

// A call on words and a list of three records, with two reducers.
const TWO_PARTS: [&str; 5] = ["block", "wc", "in", "--reducers", "2"];

// The answer of a call that meets these faults, with the two parts that it left, and the answer of the
// same call once more on the same folder, which then has none.
fn met(
    alloc: Global,
    call: Option<u64>,
    write: Option<u64>,
) -> Result<(Outcome, Vec<u8>, Vec<u8>, Outcome), Fail> {
    let mut folder = MemFolder::new(alloc, failing(alloc, call)?);
    folder.put("in", b"a b\nb c\na a\n")?;
    let mut out = MemSink::new(alloc, failing(alloc, write)?);
    let Handed {
        answer,
        mut folder,
        ..
    } = ran(alloc, TWO_PARTS.as_slice(), folder, &mut out)?;
    let (first, second) = parts(alloc, &mut folder)?;
    let again = ran(alloc, TWO_PARTS.as_slice(), folder, &mut out)?;
    Ok((answer, first, second, again.answer))
}

#[test]
fn leaves_what_it_says_after_each_fault(rt: HostRuntime) -> Result<(), Fail> {
    let absent = Outcome::InputFailed { file: File::Input };
    let cases: [(Option<u64>, Option<u64>, Outcome, &str, &str); 5] = [
        (Some(2), None, absent, "", ""),
        (Some(3), None, Outcome::FolderFailed, "", ""),
        (Some(4), None, Outcome::FolderFailed, "b\t2\n", ""),
        (None, Some(1), Outcome::SayFailed, "b\t2\n", "a\t3\nc\t1\n"),
        (None, None, Outcome::Done, "b\t2\n", "a\t3\nc\t1\n"),
    ];
    for (call, write, wanted, first, second) in cases {
        let left = met(rt.alloc(), call, write)?;
        assert_eq!(rt;
            [left.0, left.3],
            [wanted, Outcome::Done],
            "at {call:?} {write:?}"
        );
        let texts = [left.1.as_slice(), left.2.as_slice()];
        assert_eq!(rt; texts, [first.as_bytes(), second.as_bytes()]);
    }
    Ok(())
}

#[test]
fn passes_a_gate(rt: HostRuntime) -> Result<(), Fail> {
    let alloc = rt.alloc();
    let words = words(alloc, &["block", "wc", "none"])?;
    let folder = MemFolder::new(alloc, Vec::new(alloc));
    let spills = eight(alloc)?;
    let mut out = MemSink::new(alloc, Vec::new(alloc));
    let handed = hop(&rt, alloc, &words, folder, spills, &mut out, &OpenGate);
    assert_eq!(rt; handed.answer, Outcome::InputFailed { file: File::Input });
    Ok(())
}

#[test]
fn says_how_a_run_ended(rt: HostRuntime) -> Result<(), Fail> {
    let at = Part {
        split: 0,
        attempt: 0,
        from: 2,
        to: 3,
    };
    let worker = 1;
    let file = File::Turns;
    let damaged = Outcome::SpillDamaged {
        worker,
        at,
        kept: [0; 32],
        found: [1; 32],
    };
    let place = 41;
    let splits = Refusal::TooManySplits { count: 1025 };
    let spills = Refusal::TooManySpills { count: 65_537 };
    let line = Outcome::ScriptRefused { file, line: 12 };
    let collides = Outcome::SpillCollides { worker, at, place };
    let cases: [(Outcome, u8, &str); 7] = [
        (
            Outcome::InputRefused(splits),
            3,
            "hop: 1025 splits are too many\n",
        ),
        (
            Outcome::InputRefused(spills),
            3,
            "hop: 65537 spills are too many\n",
        ),
        (line, 4, "hop: line 12 of the turn list is not understood\n"),
        (
            Outcome::RetriesSpent { split: 3 },
            5,
            "hop: split 3 has spent its attempts\n",
        ),
        (
            Outcome::SpillFailed { worker },
            7,
            "hop: spill folder 1 failed\n",
        ),
        (damaged, 8, "hop: a spill of worker 1 is damaged\n"),
        (collides, 8, "hop: a spill of worker 1 is no spill\n"),
    ];
    for (outcome, number, line) in cases {
        assert_eq!(rt; status(&outcome), number);
        assert_eq!(rt;
            fault_line(rt.alloc(), &outcome)?.as_slice(),
            line.as_bytes()
        );
    }
    Ok(())
}

#[test]
fn says_how_it_ended(rt: HostRuntime) -> Result<(), Fail> {
    let absent = Outcome::InputFailed { file: File::Input };
    let turns = Refusal::TooLong { file: File::Turns };
    let record = Refusal::RecordTooLong { index: 7 };
    let cases: [(Outcome, u8, &str); 8] = [
        (Outcome::Done, 0, ""),
        (Outcome::Usage, 1, "hop: the words are not understood\n"),
        (absent, 2, "hop: cannot read the input\n"),
        (
            Outcome::InputRefused(turns),
            3,
            "hop: the turn list is too long\n",
        ),
        (
            Outcome::InputRefused(record),
            3,
            "hop: record 7 is too long\n",
        ),
        (Outcome::FolderFailed, 6, "hop: the job folder failed\n"),
        (Outcome::NoMemory, 9, "hop: no memory\n"),
        (Outcome::SayFailed, 11, "hop: cannot write the summary\n"),
    ];
    for (outcome, number, line) in cases {
        assert_eq!(rt; status(&outcome), number);
        assert_eq!(rt;
            fault_line(rt.alloc(), &outcome)?.as_slice(),
            line.as_bytes()
        );
    }
    Ok(())
}

#[test]
fn laws_hold_at_a_call(rt: HostRuntime) -> Result<(), Fail> {
    let alloc = rt.alloc();
    let mut out = MemSink::new(alloc, Vec::new(alloc));
    let asks = words(alloc, &["block", "wc", "in"])?;
    let answer = over_clean(
        alloc,
        &asks,
        with_input(alloc, b"a\n")?,
        eight(alloc)?,
        &mut out,
    );
    assert_eq!(rt; answer, Outcome::Done);
    let answer = over_clean_present(
        alloc,
        &asks,
        with_input(alloc, b"a\n")?,
        eight(alloc)?,
        &mut out,
    );
    assert_eq!(rt; answer, Outcome::Done);
    let answer = usage(
        alloc,
        &words(alloc, &["block"])?,
        with_input(alloc, b"a\n")?,
        eight(alloc)?,
        &mut out,
    );
    assert_eq!(rt; answer, Outcome::Usage);
    Ok(())
}
