//! The words of command lines, by a table of the forms and ranges.
use hop_base::{NoMemory, Text, Words};
use hop_jobs::Known;
use hop_laws::Job;
use hop_words::{Command, Options, WordsFault, read_words};
use std::alloc::{AllocError, Global};
use std::test::Fail;

fn words(alloc: Global, line: &[&str]) -> Result<Words, NoMemory> {
    let mut words = Words::new(alloc);
    for word in line {
        words.push(word)?;
    }
    Ok(words)
}

// The command, its job or jobs, its input and the number of reducers.
fn asked(alloc: Global, line: &[&str]) -> Result<String, Fail> {
    let words = words(alloc, line)?;
    match read_words(alloc, &words) {
        Ok(options) => command_shown(alloc, &options),
        Err(WordsFault::Usage) => Ok(String::new(alloc)),
        Err(WordsFault::NoMemory) => Err(NoMemory)?,
    }
}

fn command_shown(alloc: Global, options: &Options) -> Result<String, Fail> {
    let (word, jobs, input) = match &options.command {
        Command::Block { job, input } => ("block", job_shown(alloc, job)?, input),
        Command::Run { job, input } => ("run", job_shown(alloc, job)?, input),
        Command::Replay { job, input } => ("replay", job_shown(alloc, job)?, input),
        Command::Chain { jobs, input } => ("chain", jobs_shown(alloc, jobs.as_slice())?, input),
    };
    let input = text_of(input.as_slice());
    let reducers = options.settings.reducers;
    Ok(format!(in alloc; "{word}{jobs} {input} {reducers}")?)
}

// The name of a job, behind a space.
fn job_shown(alloc: Global, job: &Known) -> Result<String, Fail> {
    let name = job.name(alloc)?;
    let name = text_of(name.as_slice());
    Ok(format!(in alloc; " {name}")?)
}

// The names of jobs, each behind a space.
fn jobs_shown(alloc: Global, jobs: &[Known]) -> Result<String, Fail> {
    let mut names = String::new(alloc);
    for job in jobs {
        let name = job_shown(alloc, job)?;
        names.push_str(name.as_str())?;
    }
    Ok(names)
}

// The sizes of a run and its files.
fn sizes(alloc: Global, line: &[&str]) -> Result<String, Fail> {
    let words = words(alloc, line)?;
    match read_words(alloc, &words) {
        Ok(options) => sizes_shown(alloc, &options),
        Err(WordsFault::Usage) => Ok(String::new(alloc)),
        Err(WordsFault::NoMemory) => Err(NoMemory)?,
    }
}

fn sizes_shown(alloc: Global, options: &Options) -> Result<String, Fail> {
    let settings = &options.settings;
    let (split, spill, lane) = (settings.split, settings.spill, settings.lane);
    let (workers, attempts) = (settings.workers, settings.attempts);
    let marks = settings.marks.as_slice();
    let tentative = settings.tentative;
    let script = file_shown(&options.script);
    let turns = file_shown(&options.turns);
    Ok(format!(in alloc;
        "{split} {spill} {workers} {attempts} {lane} {marks:?} {tentative} {script} {turns}"
    )?)
}

fn file_shown(name: &Option<Text>) -> &str {
    match name {
        Some(name) => text_of(name.as_slice()),
        None => "-",
    }
}

fn text_of(bytes: &[u8]) -> &str {
    str::from_utf8(bytes).unwrap_or("?")
}

// A name of so many letters.
fn letters(alloc: Global, count: usize) -> Result<String, AllocError> {
    let mut name = String::new(alloc);
    for _ in 0..count {
        name.push('n')?;
    }
    Ok(name)
}

#[test]
fn reads_the_forms_of_block(rt: HostRuntime) -> Result<(), Fail> {
    let alloc = rt.alloc();
    let cases: [(&[&str], &str); 12] = [
        (&["block", "wc", "in.txt"], "block wc in.txt 1"),
        (&["block", "sum", "a_b-c.9"], "block sum a_b-c.9 1"),
        (&["block", "max", "_"], "block max _ 1"),
        (&["block", "top", "in"], "block top:10 in 1"),
        (&["block", "top", "in", "--k", "3"], "block top:3 in 1"),
        (&["block", "top", "in", "--k=1000"], "block top:1000 in 1"),
        (
            &["--reducers", "8", "block", "--k=1", "top", "in"],
            "block top:1 in 8",
        ),
        (
            &["block", "wc", "in", "--reducers=00000000000000000002"],
            "block wc in 2",
        ),
        (&["block", "wc", "--", "in"], "block wc in 1"),
        (&["--", "block", "wc", "in"], "block wc in 1"),
        (&["block", "wc", "in", "--"], "block wc in 1"),
        (&["block", "wc", "7"], "block wc 7 1"),
    ];
    for (line, wanted) in cases {
        assert_eq!(rt; asked(alloc, line)?.as_str(), wanted, "at {line:?}");
    }
    Ok(())
}

#[test]
fn reads_the_forms_of_runs(rt: HostRuntime) -> Result<(), Fail> {
    let alloc = rt.alloc();
    let cases: [(&[&str], &str, &str); 6] = [
        (
            &["run", "wc", "in"],
            "run wc in 1",
            "16384 1000 2 4 2 [] true - -",
        ),
        (
            &["run", "top", "in", "--k=3", "--reducers=8", "--script", "s"],
            "run top:3 in 8",
            "16384 1000 2 4 2 [] true s -",
        ),
        (
            &["run", "wc", "in", "--split=16777216", "--spill=65535"],
            "run wc in 1",
            "16777216 65535 2 4 2 [] true - -",
        ),
        (
            &[
                "run",
                "wc",
                "in",
                "--workers=8",
                "--attempts=16",
                "--lane=64",
            ],
            "run wc in 1",
            "16384 1000 8 16 64 [] true - -",
        ),
        (
            &[
                "--turns",
                "t",
                "replay",
                "sum",
                "in",
                "--split=1",
                "--spill=1",
                "--workers=1",
                "--attempts=1",
                "--lane=1",
                "--script=s",
            ],
            "replay sum in 1",
            "1 1 1 1 1 [] true s t",
        ),
        (
            &[
                "run",
                "wc",
                "in",
                "--marks=1,00500,10000",
                "--tentative",
                "no",
            ],
            "run wc in 1",
            "16384 1000 2 4 2 [1, 500, 10000] false - -",
        ),
    ];
    for (line, command, files) in cases {
        assert_eq!(rt; asked(alloc, line)?.as_str(), command, "at {line:?}");
        assert_eq!(rt; sizes(alloc, line)?.as_str(), files, "at {line:?}");
    }
    Ok(())
}

#[test]
fn reads_the_forms_of_chains(rt: HostRuntime) -> Result<(), Fail> {
    let alloc = rt.alloc();
    let cases: [(&[&str], &str, &str); 4] = [
        (
            &["chain", "wc", "top", "in"],
            "chain wc top:10 in 1",
            "16384 1000 2 4 2 [] true - -",
        ),
        (
            &["chain", "top", "max", "top", "in", "--k", "3"],
            "chain top:3 max top:3 in 1",
            "16384 1000 2 4 2 [] true - -",
        ),
        (
            &["chain", "wc", "sum", "wc", "max", "in"],
            "chain wc sum wc max in 1",
            "16384 1000 2 4 2 [] true - -",
        ),
        (
            &[
                "--reducers=8",
                "chain",
                "wc",
                "--split=1",
                "wc",
                "--spill=2",
                "in",
                "--workers=3",
                "--attempts=4",
                "--lane=5",
                "--marks=6,7",
                "--tentative=no",
                "--script=s",
            ],
            "chain wc wc in 8",
            "1 2 3 4 5 [6, 7] false s -",
        ),
    ];
    for (line, command, files) in cases {
        assert_eq!(rt; asked(alloc, line)?.as_str(), command, "at {line:?}");
        assert_eq!(rt; sizes(alloc, line)?.as_str(), files, "at {line:?}");
    }
    Ok(())
}

#[test]
fn refuses_what_is_no_chain(rt: HostRuntime) -> Result<(), Fail> {
    let alloc = rt.alloc();
    let cases: [&[&str]; 12] = [
        &["chain"],
        &["chain", "in"],
        &["chain", "wc", "in"],
        &["chain", "wc", "top", "sum", "max", "wc", "in"],
        &["chain", "wc", "sort", "in"],
        &["chain", "Wc", "top", "in"],
        &["chain", "wc", "top", ".in"],
        &["chain", "wc", "top", "in", "--turns", "t"],
        &["chain", "wc", "top", "in", "--k", "0"],
        &["run", "wc", "top", "in"],
        &["block", "wc", "top", "in"],
        &["replay", "wc", "top", "in", "--turns", "t"],
    ];
    for line in cases {
        assert_eq!(rt; asked(alloc, line)?.as_str(), "", "at {line:?}");
    }
    Ok(())
}

#[test]
fn refuses_what_is_no_command(rt: HostRuntime) -> Result<(), Fail> {
    let alloc = rt.alloc();
    let cases: [&[&str]; 24] = [
        &[],
        &["block"],
        &["block", "wc"],
        &["block", "wc", "in", "in"],
        &["block", "sort", "in"],
        &["Block", "wc", "in"],
        &["run", "wc"],
        &["run", "wc", "in", "--k", "0"],
        &["run", "wc", "in", "--turns", "t"],
        &["replay", "wc", "in"],
        &["block", "wc", "in", "--script", "s"],
        &["block", "wc", "in", "--tentative", "no"],
        &["gen", "1", "1", "g"],
        &["block", "wc", "in", "--marks", "5"],
        &["block", "wc", "in", "-k", "3"],
        &["block", "wc", "in", "-"],
        &["block", "wc", "-"],
        &["block", "wc", "--", "--k"],
        &["--help"],
        &["block", "wc", ""],
        &["block", "wc", "a/b"],
        &["block", "wc", ".in"],
        &["block", "wc", "in\u{e9}"],
        &["block", "wc", "in", "--\u{e9}", "3"],
    ];
    for line in cases {
        assert_eq!(rt; asked(alloc, line)?.as_str(), "", "at {line:?}");
    }
    Ok(())
}

#[test]
fn refuses_what_is_no_value(rt: HostRuntime) -> Result<(), Fail> {
    let alloc = rt.alloc();
    let cases: [&[&str]; 38] = [
        &["run", "wc", "in", "--split", "0"],
        &["run", "wc", "in", "--split", "16777217"],
        &["run", "wc", "in", "--spill", "65536"],
        &["run", "wc", "in", "--workers", "9"],
        &["run", "wc", "in", "--attempts", "17"],
        &["run", "wc", "in", "--lane", "65"],
        &["run", "wc", "in", "--marks", "5,5"],
        &["run", "wc", "in", "--marks", "5,4"],
        &["run", "wc", "in", "--marks", "0"],
        &["run", "wc", "in", "--marks", "10001"],
        &["run", "wc", "in", "--marks="],
        &["run", "wc", "in", "--marks", "5,"],
        &["run", "wc", "in", "--marks", "5,,6"],
        &["run", "wc", "in", "--marks", "5, 6"],
        &["run", "wc", "in", "--marks", "000000000000000000005"],
        &[
            "run",
            "wc",
            "in",
            "--marks",
            "1,2,3,4,5,6,7,8,9,10,11,12,13,14,15,16,17",
        ],
        &["run", "wc", "in", "--marks", "5", "--marks", "6"],
        &["run", "wc", "in", "--tentative", "Yes"],
        &["run", "wc", "in", "--tentative="],
        &["run", "wc", "in", "--tentative=no", "--tentative=no"],
        &["run", "wc", "in", "--script", ".s"],
        &["run", "wc", "in", "--script=s", "--script=s"],
        &["replay", "wc", "in", "--turns", ""],
        &["replay", "wc", "in", "--turns", "t", "--turns", "t"],
        &["replay", "wc", "in", "--turns", "t", "--lane", "0"],
        &["block", "wc", "in", "--k"],
        &["block", "wc", "in", "--k", "--reducers", "2"],
        &["block", "wc", "in", "--k", "--"],
        &["block", "wc", "in", "--k", "3", "--k", "3"],
        &["block", "wc", "in", "--k=3", "--k", "4"],
        &["block", "wc", "in", "--k", "0"],
        &["block", "wc", "in", "--k", "1001"],
        &["block", "wc", "in", "--k", "+3"],
        &["block", "wc", "in", "--k", "-3"],
        &["block", "wc", "in", "--k="],
        &["block", "wc", "in", "--k", "000000000000000000003"],
        &["block", "wc", "in", "--k", "18446744073709551619"],
        &["block", "wc", "in", "--reducers", "9"],
    ];
    for line in cases {
        assert_eq!(rt; asked(alloc, line)?.as_str(), "", "at {line:?}");
    }
    Ok(())
}

#[test]
fn takes_names_up_to_their_limit(rt: HostRuntime) -> Result<(), Fail> {
    let alloc = rt.alloc();
    for count in [1, 100, 101] {
        let name = letters(alloc, count)?;
        let found = asked(alloc, &["block", "wc", name.as_str()])?;
        assert_eq!(rt; found.is_empty(), count > 100, "at {count}");
    }
    Ok(())
}
