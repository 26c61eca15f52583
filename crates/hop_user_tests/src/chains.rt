//! Worked chains over folders in memory, with all files that they put, and a fault at each of these puts.
use crate::runs::{eight, failing};
use hop_base::{NoMemory, Words};
use hop_ports::{Folder, GetFault, MemFolder, MemSink};
use hop_top::{File, Handed, Outcome, hop_plain};
use std::alloc::Global;
use std::test::Fail;

/// The first calls of a chain over its folder: the test puts the input, and the chain gets it.
const GET_CALL: u64 = 2;

// The words, the input, and the names and texts of the files in the order in which they are put.
type Chain<'a> = (&'a [&'a str], &'a str, &'a [[&'a str; 2]]);

// Half of the input is cut, by each of two reducers.
const HALF: Chain = (
    &[
        "chain",
        "wc",
        "top",
        "in",
        "--k",
        "2",
        "--reducers",
        "2",
        "--split",
        "2",
        "--workers",
        "1",
        "--marks",
        "5000",
    ],
    "a b\na a\nb c\nc c\n",
    &[
        [
            "snap-5000-0",
            "hop-snapshot 1\njob wc\nmark 5000\nreducer 0 of 2\nprogress 5000\nsplit 0 attempt 0 records 2 of 2 tentative\nsplit 1 none\n--\nb\t1\n",
        ],
        [
            "snap-5000-1",
            "hop-snapshot 1\njob wc\nmark 5000\nreducer 1 of 2\nprogress 5000\nsplit 0 attempt 0 records 2 of 2 tentative\nsplit 1 none\n--\na\t3\n",
        ],
        [
            "j2-snap-5000-0",
            "hop-chain-snapshot 1\nstage 2\njob top:2\nmark 5000\nreducer 0 of 2\n--\na\t3\nb\t1\n",
        ],
        [
            "j2-snap-5000-1",
            "hop-chain-snapshot 1\nstage 2\njob top:2\nmark 5000\nreducer 1 of 2\n--\n",
        ],
        ["part-0", "b\t2\n"],
        ["part-1", "a\t3\nc\t3\n"],
        [
            "trace",
            "hop-trace 1\njob wc\nsplits 2\nreducers 2\nbegun 0 1\nbegun 1 1\nreducer 0\narrive 0 0 0 2 s0\nwon 0 0\narrive 1 0 0 2 s0\nwon 1 0\nfinish\nreducer 1\narrive 0 0 0 2 s0\nwon 0 0\narrive 1 0 0 2 s0\nwon 1 0\nfinish\nend\n",
        ],
        ["j2-part-0", "a\t3\nc\t3\n"],
        ["j2-part-1", ""],
    ],
);

// Two marks: the best of the later job is another one at the second.
const TWO_MARKS: Chain = (
    &[
        "chain",
        "wc",
        "top",
        "in",
        "--k",
        "1",
        "--marks",
        "5000,10000",
        "--split",
        "1",
        "--workers",
        "1",
    ],
    "a\nb b\n",
    &[
        [
            "snap-5000-0",
            "hop-snapshot 1\njob wc\nmark 5000\nreducer 0 of 1\nprogress 5000\nsplit 0 attempt 0 records 1 of 1 tentative\nsplit 1 none\n--\na\t1\n",
        ],
        [
            "j2-snap-5000-0",
            "hop-chain-snapshot 1\nstage 2\njob top:1\nmark 5000\nreducer 0 of 1\n--\na\t1\n",
        ],
        [
            "snap-10000-0",
            "hop-snapshot 1\njob wc\nmark 10000\nreducer 0 of 1\nprogress 10000\nsplit 0 attempt 0 records 1 of 1 committed\nsplit 1 attempt 0 records 1 of 1 tentative\n--\na\t1\nb\t2\n",
        ],
        [
            "j2-snap-10000-0",
            "hop-chain-snapshot 1\nstage 2\njob top:1\nmark 10000\nreducer 0 of 1\n--\nb\t2\n",
        ],
        ["part-0", "a\t1\nb\t2\n"],
        [
            "trace",
            "hop-trace 1\njob wc\nsplits 2\nreducers 1\nbegun 0 1\nbegun 1 1\nreducer 0\narrive 0 0 0 1 s0\nwon 0 0\narrive 1 0 0 1 s0\nwon 1 0\nfinish\nend\n",
        ],
        ["j2-part-0", "b\t2\n"],
    ],
);

// What each prints at its end.
const WORKED: [(Chain, &str); 2] = [
    (
        HALF,
        "done records=4 splits=2 parts=2 snapshots=2 attempts=2 pulled=0 settled=4 jobs=2\n",
    ),
    (
        TWO_MARKS,
        "done records=2 splits=2 parts=1 snapshots=2 attempts=2 pulled=0 settled=2 jobs=2\n",
    ),
];

fn words_of(alloc: Global, line: &[&str]) -> Result<Words, NoMemory> {
    let mut words = Words::new(alloc);
    for word in line {
        words.push(word)?;
    }
    Ok(words)
}

// The answer of the chain, with the folder that it left. Of the calls of the folder, this one fails.
fn chained(
    alloc: Global,
    chain: Chain,
    call: Option<u64>,
    out: &mut MemSink,
) -> Result<(Outcome, MemFolder), Fail> {
    let (line, input, _) = chain;
    let words = words_of(alloc, line)?;
    let mut folder = MemFolder::new(alloc, failing(alloc, call)?);
    folder.put("in", input.as_bytes())?;
    let spills = eight(alloc, None)?;
    let Handed { answer, folder, .. } = hop_plain(alloc, &words, folder, spills, out);
    Ok((answer, folder))
}

// Whether the folder holds this text under the name; nothing where it has no such file.
fn is_held(folder: &mut MemFolder, file: &[&str; 2]) -> Result<Option<bool>, GetFault> {
    let [name, text] = file;
    match folder.get(name, 1_000) {
        Ok(bytes) => Ok(Some(bytes.as_slice() == text.as_bytes())),
        Err(GetFault::Missing) => Ok(None),
        Err(fault) => Err(fault),
    }
}

// Whether the first files are there, so many of them and with their texts, and none of the others.
fn has_first(folder: &mut MemFolder, files: &[[&str; 2]], count: usize) -> Result<bool, GetFault> {
    for (k, file) in files.iter().enumerate() {
        let wanted = if k < count { Some(true) } else { None };
        if is_held(folder, file)? != wanted {
            return Ok(false);
        }
    }
    Ok(true)
}

#[test]
fn gives_the_worked_chains(rt: HostRuntime) -> Result<(), Fail> {
    for (chain, summary) in WORKED {
        let mut out = MemSink::new(rt.alloc(), Vec::new(rt.alloc()));
        let (answer, mut folder) = chained(rt.alloc(), chain, None, &mut out)?;
        assert_eq!(rt; answer, Outcome::Done, "at {summary}");
        assert_eq!(rt; out.taken(), summary.as_bytes());
        let (_, _, files) = chain;
        for file in files {
            assert_eq!(rt; is_held(&mut folder, file)?, Some(true), "at {file:?}");
        }
    }
    Ok(())
}

// The answer where the put behind so many puts of the chain fails, whether just the files of those are there, and how many bytes were
// written.
fn met(alloc: Global, chain: Chain, count: usize) -> Result<(Outcome, bool, usize), Fail> {
    let call = GET_CALL.saturating_add(1).saturating_add(count as u64);
    let mut out = MemSink::new(alloc, Vec::new(alloc));
    let (answer, mut folder) = chained(alloc, chain, Some(call), &mut out)?;
    let (_, _, files) = chain;
    let is_right = has_first(&mut folder, files, count)?;
    Ok((answer, is_right, out.taken().len()))
}

#[test]
fn puts_the_files_before_a_failed_put(rt: HostRuntime) -> Result<(), Fail> {
    for (chain, summary) in WORKED {
        let (_, _, files) = chain;
        for count in 0..files.len() {
            let (answer, is_right, written) = met(rt.alloc(), chain, count)?;
            assert_eq!(rt; answer, Outcome::FolderFailed, "at {count} of {summary}");
            assert_eq!(rt; (is_right, written), (true, 0), "at {count} of {summary}");
        }
    }
    Ok(())
}

#[test]
fn puts_nothing_where_the_input_of_a_chain_is_not_read(rt: HostRuntime) -> Result<(), Fail> {
    let mut out = MemSink::new(rt.alloc(), Vec::new(rt.alloc()));
    let (answer, mut folder) = chained(rt.alloc(), TWO_MARKS, Some(GET_CALL), &mut out)?;
    assert_eq!(rt; answer, Outcome::InputFailed { file: File::Input });
    let (_, _, files) = TWO_MARKS;
    assert_eq!(rt; has_first(&mut folder, files, 0)?, true);
    assert!(rt; out.taken().is_empty());
    Ok(())
}
