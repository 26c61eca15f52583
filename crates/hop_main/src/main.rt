//! The program `hop`: the current directory is the job folder, its subdirectories `spill-0` to
//! `spill-7` are the spill folders, and standard output takes the summary.
#![tactic(auto)]

ghost use Rattle.std.specs.Prelude.{◌≡◌, IfOk, vec_len};

use hop_base::{NoMemory, Words};
use hop_ports::{DiskFolder, OpenGate, StdSink};
use hop_top::{Outcome, fault_line, hop, status};
use std::env;
use std::io::ErrorKind;
use std::process::ExitCode;

// The words after the program's name. Where one of them is no text there are none, which is a faulty
// command line.
fn words_of(rt: &HostRuntime) -> Result<Words, NoMemory> {
    let mut words = Words::new(rt.alloc());
    match env::args(rt) {
        Ok(args) => {
            for word in args.skip(1) {
                words.push(word.as_str())?;
            }
            Ok(words)
        }
        Err(error) => {
            if error.kind() == ErrorKind::OutOfMemory {
                Err(NoMemory)
            } else {
                Ok(words)
            }
        }
    }
}

// The spill folders of the eight workers.
fn spills_of(rt: HostRuntime) -> Result<Vec<DiskFolder<HostRuntime>>, NoMemory>
    ensures { IfOk result (λ spills. vec_len spills ≡ 8) }
{
    let alloc = rt.alloc();
    let mut spills = Vec::new(alloc);
    for w in 0..8u8 {
        let path = format!(in alloc; "spill-{w}")?;
        spills.push(DiskFolder::new(rt, path.as_str())?)?;
    }
    Ok(spills)
}

// Says on standard error how the call ended, where there is something to say and memory to say it.
fn report(rt: &HostRuntime, answer: &Outcome) {
    if let Ok(line) = fault_line(rt.alloc(), answer) {
        if let Ok(text) = str::from_utf8(line.as_slice()) {
            let _ = rt.eprint(text);
        }
    }
}

// The end where there was no memory to begin with: the status alone, and nothing is printed.
fn without_memory() -> ExitCode {
    ExitCode::from(status(&Outcome::NoMemory))
}

fn main(rt: HostRuntime) -> ExitCode {
    let alloc = rt.alloc();
    let Ok(words) = words_of(&rt) else {
        return without_memory();
    };
    let Ok(folder) = DiskFolder::new(rt, ".") else {
        return without_memory();
    };
    let Ok(spills) = spills_of(rt) else {
        return without_memory();
    };
    let mut out = StdSink::new(rt);
    let handed = hop(&rt, alloc, &words, folder, spills, &mut out, &OpenGate);
    report(&rt, &handed.answer);
    ExitCode::from(status(&handed.answer))
}
