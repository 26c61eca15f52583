//! Worked runs by turn lists, over folders in memory, with their traces and their snapshots.
ghost use Rattle.std.specs.Prelude.{◌≡◌, IfOk, vec_len};

use hop_base::{NoMemory, Words};
use hop_ports::{Folder, GetFault, MemFolder, MemSink, PutFault};
use hop_top::{File, Handed, Outcome, hop_plain};
use std::alloc::{AllocError, Global};
use std::test::Fail;

/// One failing call, or none.
pub fn failing(alloc: Global, call: Option<u64>) -> Result<Vec<u64>, AllocError> {
    let mut fails = Vec::new(alloc);
    if let Some(call) = call {
        fails.push(call)?;
    }
    Ok(fails)
}

/// Eight spill folders. Of the first this call fails.
pub fn eight(alloc: Global, call: Option<u64>) -> Result<Vec<MemFolder>, AllocError>
    ensures { IfOk result (λ spills. vec_len spills ≡ 8) }
{
    let fails = failing(alloc, call)?;
    let mut spills = Vec::new(alloc);
    spills.push(MemFolder::new(alloc, fails))?;
    for _ in 0..7u8 {
        spills.push(MemFolder::new(alloc, Vec::new(alloc)))?;
    }
    Ok(spills)
}

// A replay by the turn list `t`, with the script `s`, one worker and spills of one record.
fn words(alloc: Global, more: &[&str]) -> Result<Words, NoMemory> {
    let mut words = Words::new(alloc);
    for word in [
        "replay",
        "wc",
        "in",
        "--turns",
        "t",
        "--script",
        "s",
        "--spill",
        "1",
        "--workers",
        "1",
    ] {
        words.push(word)?;
    }
    for word in more {
        words.push(word)?;
    }
    Ok(words)
}

// The bytes under a name, none where there is no such file.
fn held(alloc: Global, folder: &mut MemFolder, name: &str) -> Result<Vec<u8>, GetFault> {
    match folder.get(name, 1_000) {
        Ok(bytes) => Ok(bytes),
        Err(GetFault::Missing) => Ok(Vec::new(alloc)),
        Err(fault) => Err(fault),
    }
}

// The input, the script and the turn list.
type Files<'a> = [&'a str; 3];

// A folder that holds these. Of its calls behind the three puts, this one fails.
fn with_files(alloc: Global, files: Files, call: Option<u64>) -> Result<MemFolder, Fail> {
    let [input, script, turns] = files;
    let fails = failing(alloc, call)?;
    let mut folder = MemFolder::new(alloc, fails);
    folder.put("in", input.as_bytes())?;
    folder.put("s", script.as_bytes())?;
    folder.put("t", turns.as_bytes())?;
    Ok(folder)
}

// What a replay left: the first part, the trace, and the snapshot of this name.
#[derive(Drop)]
struct Left {
    part: Vec<u8>,
    trace: Vec<u8>,
    snapshot: Vec<u8>,
}

// The answer of the replay, with what it left.
fn left_by(
    alloc: Global,
    files: Files,
    more: &[&str],
    name: &str,
    out: &mut MemSink,
) -> Result<(Outcome, Left), Fail> {
    let words = words(alloc, more)?;
    let folder = with_files(alloc, files, None)?;
    let spills = eight(alloc, None)?;
    let Handed {
        answer,
        mut folder,
        ..
    } = hop_plain(alloc, &words, folder, spills, out);
    let part = held(alloc, &mut folder, "part-0")?;
    let trace = held(alloc, &mut folder, "trace")?;
    let snapshot = held(alloc, &mut folder, name)?;
    Ok((
        answer,
        Left {
            part,
            trace,
            snapshot,
        },
    ))
}

// The files, more words, the first part, the summary, the trace, and the name and the text of the snapshot, if there is one.
const WORKED: [(Files, &[&str], &str, &str, &str, [&str; 2]); 8] = [
    (
        ["", "", ""],
        &["--marks", "5000"],
        "",
        "done records=0 splits=0 parts=1 snapshots=1 attempts=0 pulled=0 settled=0\n",
        "hop-trace 1\njob wc\nsplits 0\nreducers 1\nreducer 0\nfinish\nend\n",
        [
            "snap-5000-0",
            "hop-snapshot 1\njob wc\nmark 5000\nreducer 0 of 1\nprogress 10000\n--\n",
        ],
    ),
    (
        ["a\nb\na\nc\n", "", "m0 3\nr0 2\n"],
        &["--split", "2", "--marks", "5000"],
        "a\t2\nb\t1\nc\t1\n",
        "done records=4 splits=2 parts=1 snapshots=1 attempts=2 pulled=0 settled=2\n",
        "hop-trace 1\njob wc\nsplits 2\nreducers 1\nbegun 0 1\nbegun 1 1\nreducer 0\narrive 0 0 0 1 w0\narrive 0 0 1 2 w0\nwon 0 0\narrive 1 0 0 1 s0\narrive 1 0 1 2 s0\nwon 1 0\nfinish\nend\n",
        [
            "snap-5000-0",
            "hop-snapshot 1\njob wc\nmark 5000\nreducer 0 of 1\nprogress 5000\nsplit 0 attempt 0 records 2 of 2 tentative\nsplit 1 none\n--\na\t1\nb\t1\n",
        ],
    ),
    (
        [
            "a\nb\na\nc\n",
            "fail 0 0 1\n",
            "m0 2\nr0\nm0\nr0\nm0 3\nr0 2\nm0\nr0\nm0 3\nr0 2\nm0\nr0\n",
        ],
        &["--split", "2", "--marks", "2500"],
        "a\t2\nb\t1\nc\t1\n",
        "done records=4 splits=2 parts=1 snapshots=1 attempts=3 pulled=0 settled=0\n",
        "hop-trace 1\njob wc\nsplits 2\nreducers 1\nbegun 0 2\nbegun 1 1\nreducer 0\narrive 0 0 0 1 w0\nrevoked 0 0\narrive 0 1 0 1 w0\narrive 0 1 1 2 w0\nwon 0 1\narrive 1 0 0 1 w0\narrive 1 0 1 2 w0\nwon 1 0\nfinish\nend\n",
        [
            "snap-2500-0",
            "hop-snapshot 1\njob wc\nmark 2500\nreducer 0 of 1\nprogress 2500\nsplit 0 attempt 0 records 1 of 2 tentative\nsplit 1 none\n--\na\t1\n",
        ],
    ),
    (
        [
            "a\nb\na\nc\n",
            "fail 0 0 1\n",
            "m0 2\nr0\nm0\nr0\nm0 3\nr0 2\nm0\nr0\nm0 3\nr0 2\nm0\nr0\n",
        ],
        &["--split", "2", "--marks", "2500", "--tentative", "no"],
        "a\t2\nb\t1\nc\t1\n",
        "done records=4 splits=2 parts=1 snapshots=1 attempts=3 pulled=0 settled=0\n",
        "hop-trace 1\njob wc\nsplits 2\nreducers 1\nbegun 0 2\nbegun 1 1\nreducer 0\narrive 0 0 0 1 w0\nrevoked 0 0\narrive 0 1 0 1 w0\narrive 0 1 1 2 w0\nwon 0 1\narrive 1 0 0 1 w0\narrive 1 0 1 2 w0\nwon 1 0\nfinish\nend\n",
        [
            "snap-2500-0",
            "hop-snapshot 1\njob wc\nmark 2500\nreducer 0 of 1\nprogress 5000\nsplit 0 attempt 1 records 2 of 2 committed\nsplit 1 none\n--\na\t1\nb\t1\n",
        ],
    ),
    (
        ["a\nb\n", "fail 0 0 2\n", ""],
        &["--split", "2"],
        "a\t1\nb\t1\n",
        "done records=2 splits=1 parts=1 snapshots=0 attempts=2 pulled=0 settled=4\n",
        "hop-trace 1\njob wc\nsplits 1\nreducers 1\nbegun 0 2\nreducer 0\narrive 0 0 0 1 s0\narrive 0 0 1 2 s0\nrevoked 0 0\narrive 0 1 0 1 s0\narrive 0 1 1 2 s0\nwon 0 1\nfinish\nend\n",
        ["none", ""],
    ),
    (
        ["a\nb\na\nc\n", "", "m0 6\n"],
        &["--split", "4", "--lane", "1"],
        "a\t2\nb\t1\nc\t1\n",
        "done records=4 splits=1 parts=1 snapshots=0 attempts=1 pulled=0 settled=3\n",
        "hop-trace 1\njob wc\nsplits 1\nreducers 1\nbegun 0 1\nreducer 0\narrive 0 0 0 1 s0\narrive 0 0 1 2 s0\narrive 0 0 2 4 s0\nwon 0 0\nfinish\nend\n",
        ["none", ""],
    ),
    (
        ["a\nb\nc\n", "restart 0 2\n", "m0 3\nr0 2\nm0\nr0 2\n"],
        &["--split", "3", "--marks", "6000"],
        "a\t1\nb\t1\nc\t1\n",
        "done records=3 splits=1 parts=1 snapshots=1 attempts=1 pulled=1 settled=0\n",
        "hop-trace 1\njob wc\nsplits 1\nreducers 1\nbegun 0 1\nreducer 0\narrive 0 0 0 1 w0\narrive 0 0 1 2 w0\nrestart\nignore 0 0 2 3 w0 0\nwon 0 0\narrive 0 0 0 3 pull\nfinish\nend\n",
        [
            "snap-6000-0",
            "hop-snapshot 1\njob wc\nmark 6000\nreducer 0 of 1\nprogress 6666\nsplit 0 attempt 0 records 2 of 3 tentative\n--\na\t1\nb\t1\n",
        ],
    ),
    (
        ["a\nb\nc\n", "restart 0 2\n", "m0 3\nr0 3\nc\nm0 2\nr0 2\n"],
        &["--split", "3"],
        "a\t1\nb\t1\nc\t1\n",
        "done records=3 splits=1 parts=1 snapshots=0 attempts=1 pulled=1 settled=0\n",
        "hop-trace 1\njob wc\nsplits 1\nreducers 1\nbegun 0 1\nreducer 0\narrive 0 0 0 1 w0\narrive 0 0 1 2 w0\nrestart\narrive 0 0 0 2 pull\narrive 0 0 2 3 w0\nwon 0 0\nfinish\nend\n",
        ["none", ""],
    ),
];

#[test]
fn gives_the_worked_traces_and_snapshots(rt: HostRuntime) -> Result<(), Fail> {
    for (files, more, part, summary, trace, [name, snapshot]) in WORKED {
        let mut out = MemSink::new(rt.alloc(), Vec::new(rt.alloc()));
        let (answer, left) = left_by(rt.alloc(), files, more, name, &mut out)?;
        assert_eq!(rt; answer, Outcome::Done, "at {files:?}");
        let texts = [
            left.part.as_slice(),
            out.taken(),
            left.trace.as_slice(),
            left.snapshot.as_slice(),
        ];
        let wanted = [
            part.as_bytes(),
            summary.as_bytes(),
            trace.as_bytes(),
            snapshot.as_bytes(),
        ];
        assert_eq!(rt; texts, wanted, "at {files:?}");
    }
    Ok(())
}

// A run whose first attempt fails, with two attempts of the first split.
const RETRIED: Files = [
    "a\nb\na\nc\n",
    "fail 0 0 1\n",
    "m0 2\nr0\nm0\nr0\nm0 3\nr0 2\nm0\nr0\nm0 3\nr0 2\nm0\nr0\n",
];

// How many of the three files are there, up to the first that isn't.
fn put_first(alloc: Global, folder: &mut MemFolder) -> Result<u8, GetFault> {
    let mut count = 0u8;
    for name in ["snap-2500-0", "part-0", "trace"] {
        if held(alloc, folder, name)?.is_empty() {
            return Ok(count);
        }
        count = count.saturating_add(1);
    }
    Ok(count)
}

// Its answer where these calls fail, of the job folder, of the first spill folder and of the sink, with how many files are there, of the snapshot, the part and the trace, in
// this order, and the answer of the same run once more on the same folders.
fn met(
    alloc: Global,
    job: Option<u64>,
    spill: Option<u64>,
    write: Option<u64>,
) -> Result<(Outcome, u8, Outcome), Fail> {
    let words = words(alloc, &["--split", "2", "--marks", "2500"])?;
    let folder = with_files(alloc, RETRIED, job)?;
    let spills = eight(alloc, spill)?;
    let mut out = MemSink::new(alloc, failing(alloc, write)?);
    let Handed {
        answer,
        mut folder,
        spills,
    } = hop_plain(alloc, &words, folder, spills, &mut out);
    let count = put_first(alloc, &mut folder)?;
    let again = hop_plain(alloc, &words, folder, spills, &mut out);
    Ok((answer, count, again.answer))
}

#[test]
fn answers_each_fault_of_the_outside(rt: HostRuntime) -> Result<(), Fail> {
    let input = Outcome::InputFailed { file: File::Input };
    let script = Outcome::InputFailed { file: File::Script };
    let turns = Outcome::InputFailed { file: File::Turns };
    let spilled = Outcome::SpillFailed { worker: 0 };
    let done = Outcome::Done;
    let put = Outcome::FolderFailed;
    let said = Outcome::SayFailed;
    let cases: [(Option<u64>, Option<u64>, Option<u64>, Outcome, u8, Outcome); 13] = [
        (Some(4), None, None, input, 0, done),
        (Some(5), None, None, script, 0, done),
        (Some(6), None, None, turns, 0, done),
        (Some(7), None, None, put, 0, done),
        (Some(8), None, None, put, 1, done),
        (Some(9), None, None, put, 2, done),
        (None, Some(1), None, spilled, 0, done),
        (None, Some(2), None, spilled, 0, done),
        (None, Some(3), None, spilled, 0, done),
        (None, Some(4), None, spilled, 0, done),
        (None, Some(5), None, spilled, 0, done),
        (None, Some(6), None, done, 3, spilled),
        (None, None, Some(1), said, 3, done),
    ];
    for (job, spill, write, wanted, count, again) in cases {
        let left = met(rt.alloc(), job, spill, write)?;
        assert_eq!(rt;
            [left.0, left.2],
            [wanted, again],
            "at {job:?} {spill:?} {write:?}"
        );
        assert_eq!(rt; left.1, count, "at {job:?} {spill:?} {write:?}");
    }
    Ok(())
}

// Where a split has no attempt left, nothing is put or written.
#[test]
fn puts_nothing_where_a_split_is_spent(rt: HostRuntime) -> Result<(), Fail> {
    let files: Files = ["a\nb\na\nc\n", "fail 0 0 0\n", ""];
    let spent = Outcome::RetriesSpent { split: 0 };
    let cases: [(&str, Outcome); 2] = [("1", spent), ("2", Outcome::Done)];
    for (attempts, wanted) in cases {
        let more = ["--split", "2", "--attempts", attempts];
        let mut out = MemSink::new(rt.alloc(), Vec::new(rt.alloc()));
        let (answer, left) = left_by(rt.alloc(), files, more.as_slice(), "none", &mut out)?;
        assert_eq!(rt; answer, wanted, "at {attempts}");
        let is_done = answer == Outcome::Done;
        assert_eq!(rt;
            [!left.part.is_empty(), !left.trace.is_empty()],
            [is_done, is_done]
        );
        assert_eq!(rt; !out.taken().is_empty(), is_done);
    }
    Ok(())
}

// A folder that doesn't tell what it holds, and alters a byte of it at each get.
#[derive(Drop)]
struct Altering {
    folder: MemFolder,
}

impl Folder for Altering {
    ghost use Rattle.hop_ports.specs.Disk.{untold};

    ghost seen = { λ _. untold 0 0 };

    fn get(&mut self, name: &str, max: u64) -> Result<Vec<u8>, GetFault> {
        let Ok(mut bytes) = self.folder.get(name, max) else {
            return Err(GetFault::NoMemory);
        };
        if let Some(byte) = bytes.get_mut(40) {
            *byte ^= 1;
        }
        Ok(bytes)
    }

    fn put(&mut self, name: &str, bytes: &[u8]) -> Result<(), PutFault> {
        match self.folder.put(name, bytes) {
            Ok(()) => Ok(()),
            Err(_) => Err(PutFault::NoMemory),
        }
    }
}

// An empty one.
fn spill_folder(alloc: Global) -> Altering {
    let folder = MemFolder::new(alloc, Vec::new(alloc));
    Altering { folder }
}

// Eight spill folders that do so.
fn eight_altering(alloc: Global) -> Result<Vec<Altering>, AllocError>
    ensures { IfOk result (λ spills. vec_len spills ≡ 8) }
{
    let mut spills = Vec::new(alloc);
    spills.push(spill_folder(alloc))?;
    for _ in 0..7u8 {
        spills.push(spill_folder(alloc))?;
    }
    Ok(spills)
}

// Records 2 to 4 wait behind a full lane, and are read back to be joined: the first of their two spills is not what was put.
#[test]
fn notices_an_altered_spill(rt: HostRuntime) -> Result<(), Fail> {
    let words = words(rt.alloc(), &["--split", "4", "--lane", "1"])?;
    let folder = with_files(rt.alloc(), ["a\nb\na\nc\n", "", "m0 6\n"], None)?;
    let spills = eight_altering(rt.alloc())?;
    let mut out = MemSink::new(rt.alloc(), Vec::new(rt.alloc()));
    let handed = hop_plain(rt.alloc(), &words, folder, spills, &mut out);
    match handed.answer {
        Outcome::SpillDamaged {
            worker,
            at,
            kept,
            found,
        } => {
            assert_eq!(rt; (worker, at.split, at.from, at.to), (0, 0, 2, 3));
            assert!(rt; kept != found);
            Ok(())
        }
        Outcome::NoMemory => Err(Fail::from("no memory")),
        _ => Err(Fail::from("the bytes are altered")),
    }
}
