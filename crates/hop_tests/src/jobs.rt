//! Tests of the jobs.
ghost use Rattle.std.specs.Prelude.{◌≡◌, ◌≤◌, ◌∷◌, [], length, IfOk};

use hop_base::{Blob, NoMemory, Pair, Val};
use hop_jobs::{Known, Max, Sum, Top, Wc};
use hop_laws::Job;
use std::alloc::Global;
use std::test::Fail;

// What the job emits for a record, a line for each pair, and what it reduces each value of these to.
fn emitted<J: Job>(alloc: Global, job: &J, line: &[u8]) -> Result<Vec<u8>, NoMemory>
    requires { length line.now ≤ 131050 }
{
    let mut text = Vec::new(alloc);
    for pair in job.map(alloc, line)? {
        text.extend_from_slice(pair.key.as_slice())?;
        let number = pair.val.n;
        let shown = format!(in alloc; "\t{number}\n")?;
        text.extend_from_slice(shown.as_bytes())?;
    }
    Ok(text)
}

// A list of one value.
fn alone(alloc: Global, val: Val) -> Result<Vec<Val>, NoMemory>
    ensures { IfOk result (λ vals. vals.items ≡ val ∷ []) }
{
    let mut vals = Vec::new(alloc);
    vals.push(val)?;
    Ok(vals)
}

// Appends what each of these values alone is reduced to.
fn reduce_each<J: Job>(
    alloc: Global,
    job: &J,
    key: &Blob,
    vals: Vec<Val>,
    text: &mut Vec<u8>,
) -> Result<(), NoMemory> {
    for val in vals {
        job.reduce(alloc, key, &[val], text)?;
    }
    Ok(())
}

// What each value alone is combined and reduced to.
fn reduced<J: Job>(alloc: Global, job: &J, line: &[u8]) -> Result<Vec<u8>, NoMemory>
    requires { length line.now ≤ 131050 }
{
    let mut text = Vec::new(alloc);
    for Pair { key, val } in job.map(alloc, line)? {
        let vals = job.combine(alloc, &key, alone(alloc, val)?)?;
        reduce_each(alloc, job, &key, vals, &mut text)?;
    }
    Ok(text)
}

#[test]
fn reads_a_record_at_its_last_tab(rt: HostRuntime) -> Result<(), Fail> {
    let alloc = rt.alloc();
    let rows: [(&[u8], &[u8]); 12] = [
        (b"5", b""),
        (b"\t7", b"\t7\n"),
        (b"a\tb\t7", b"a\tb\t7\n"),
        (b"k\t00000000000000000007", b"k\t7\n"),
        (b"k\t000000000000000000007", b""),
        (b"k\t007", b"k\t7\n"),
        (b"k\t18446744073709551615", b"k\t18446744073709551615\n"),
        (b"k\t18446744073709551616", b""),
        (b"k\t", b""),
        (b"k\t+7", b""),
        (b"k\t-7", b""),
        (b"k\t7\r", b""),
    ];
    for (line, wanted) in rows {
        assert!(rt; line.len() <= 131_050);
        assert_eq!(rt; emitted(alloc, &Sum, line)?.as_slice(), wanted);
    }
    Ok(())
}

#[test]
fn jobs_through_their_bound(rt: HostRuntime) -> Result<(), Fail> {
    let cases: [(Known, &[u8], &[u8], &[u8]); 4] = [
        (Known::Wc(Wc), b"wc", b" b \ta\r b", b"b\t1\na\r\t1\nb\t1\n"),
        (Known::Sum(Sum), b"sum", b"b\t3", b"b\t3\n"),
        (Known::Max(Max), b"max", b"b\t3", b"b\t3\n"),
        (Known::Top(Top::new(1000)), b"top:1000", b"b\t3", b"b\t3\n"),
    ];
    for (job, name, line, text) in cases {
        assert_eq!(rt; job.name(rt.alloc())?.as_slice(), name);
        assert!(rt; line.len() <= 131_050);
        assert_eq!(rt; reduced(rt.alloc(), &job, line)?.as_slice(), text);
    }
    let top = Known::Top(Top::new(1));
    assert_eq!(rt;
        emitted(rt.alloc(), &top, b"b\t3")?.as_slice(),
        b"\t3\n".as_slice()
    );
    Ok(())
}
