//! A demonstration: a small run over folders in memory. It shows the snapshot of half the input before the part, and the
//! trace behind. It calls `hop_plain` as any program may.
#![tactic(auto)]

ghost use Rattle.std.specs.Prelude.{◌≡◌, IfOk, vec_len};

use hop_base::{NoMemory, Words};
use hop_ports::{Folder, MemFolder, MemSink, PutFault};
use hop_top::{Handed, Outcome, hop_plain, status};
use std::alloc::Global;
use std::process::ExitCode;

const INPUT: &str = "the cat\nthe dog\na cat\nthe end\n";

// The first attempt of split 0 fails after one record.
const SCRIPT: &str = "fail 0 0 1\n";

// What the run is asked for.
fn words_of(alloc: Global) -> Result<Words, NoMemory> {
    let mut words = Words::new(alloc);
    for word in [
        "run",
        "wc",
        "in",
        "--split",
        "2",
        "--spill",
        "1",
        "--workers",
        "1",
        "--marks",
        "5000",
        "--script",
        "script",
    ] {
        words.push(word)?;
    }
    Ok(words)
}

// A folder in memory that holds nothing, and of which no call fails.
fn empty_folder(alloc: Global) -> MemFolder {
    MemFolder::new(alloc, Vec::new(alloc))
}

// The job folder, with the input and the script.
fn job_folder(alloc: Global) -> Result<MemFolder, PutFault> {
    let mut folder = empty_folder(alloc);
    folder.put("in", INPUT.as_bytes())?;
    folder.put("script", SCRIPT.as_bytes())?;
    Ok(folder)
}

// The spill folders of the eight workers.
fn spills_of(alloc: Global) -> Result<Vec<MemFolder>, NoMemory>
    ensures { IfOk result (λ spills. vec_len spills ≡ 8) }
{
    let mut spills = Vec::new(alloc);
    for _ in 0..8u8 {
        spills.push(empty_folder(alloc))?;
    }
    Ok(spills)
}

fn say(rt: &HostRuntime, text: &str) {
    let _ = rt.print(text);
}

// Shows a file of the folder, under a line that says what it is.
fn show(rt: &HostRuntime, folder: &mut MemFolder, name: &str, what: &str) {
    say(rt, "\n-- ");
    say(rt, name);
    say(rt, ": ");
    say(rt, what);
    say(rt, "\n");
    if let Ok(bytes) = folder.get(name, 100_000) {
        if let Ok(text) = str::from_utf8(bytes.as_slice()) {
            say(rt, text);
        }
    }
}

// Shows what the run left, in the order in which it came.
fn show_all(rt: &HostRuntime, folder: &mut MemFolder) {
    show(rt, folder, "in", "the input, two splits of two lines");
    show(rt, folder, "script", "the first attempt of split 0 fails");
    show(rt, folder, "snap-5000-0", "the answer over half the input");
    show(rt, folder, "part-0", "the answer over all of it");
    show(rt, folder, "trace", "what came to the reducer, in order");
}

// The run, and what it left.
fn demonstrate(rt: &HostRuntime) -> Outcome {
    let alloc = rt.alloc();
    let Ok(words) = words_of(alloc) else {
        return Outcome::NoMemory;
    };
    let Ok(folder) = job_folder(alloc) else {
        return Outcome::NoMemory;
    };
    let Ok(spills) = spills_of(alloc) else {
        return Outcome::NoMemory;
    };
    let mut out = MemSink::new(alloc, Vec::new(alloc));
    let Handed {
        answer,
        mut folder,
        ..
    } = hop_plain(alloc, &words, folder, spills, &mut out);
    show_all(rt, &mut folder);
    if let Ok(summary) = str::from_utf8(out.taken()) {
        say(rt, "\n");
        say(rt, summary);
    }
    answer
}

fn main(rt: HostRuntime) -> ExitCode {
    ExitCode::from(status(&demonstrate(&rt)))
}
