//! The snapshot of one reducer, by hand.
ghost use Rattle.std.specs.Prelude.{◌≡◌, IfOk, length};

use hop_base::{Blob, Lens, Listed, Pair, Part, Sheet, Val};
use hop_cover::Declared;
use hop_cut::{Cut, SnapFault, cut_read, cut_text};
use hop_jobs::Wc;
use hop_run::Run;
use std::alloc::Global;
use std::test::Fail;

// The records `a` and `b` are split 0, of which both came, and two more are split 1, of which none came.
const SNAPSHOT: &[u8] =
    b"hop-snapshot 1\njob wc\nmark 5000\nreducer 0 of 1\nprogress 5000\nsplit 0 attempt 0 records 2 of 2 tentative\nsplit 1 none\n--\na\t1\nb\t1\n";

// A run of one record, which is the key.
fn run_of(alloc: Global, key: &[u8], from: u32) -> Result<Run, Fail> {
    let one = Val {
        n: 1,
        s: Blob::from_slice(alloc, b"")?,
    };
    let pair = Pair {
        key: Blob::from_slice(alloc, key)?,
        val: one,
    };
    let part = Part {
        split: 0,
        attempt: 0,
        from,
        to: from.saturating_add(1),
    };
    let mut pairs = Vec::new(alloc);
    pairs.push(pair)?;
    Ok(Run::of_sheet(alloc, Sheet::from_pairs(pairs), part)?)
}

fn half_covered(alloc: Global) -> Result<Cut, Fail>
    ensures { IfOk result (λ cut. length cut.declared ≡ 2) }
{
    let mut runs = Listed::new(alloc);
    runs.push(run_of(alloc, b"a", 0)?)?;
    runs.push(run_of(alloc, b"b", 1)?)?;
    let mut declared = Listed::new(alloc);
    declared.push(Some(Declared {
        attempt: 0,
        records: 2,
        committed: false,
    }))?;
    declared.push(None)?;
    Ok(Cut {
        mark: 5000,
        progress: 5000,
        declared,
        runs,
    })
}

#[test]
fn writes_a_snapshot(rt: HostRuntime) -> Result<(), Fail> {
    let mut lens = Lens::new(rt.alloc());
    lens.push(2)?;
    lens.push(2)?;
    let cut = half_covered(rt.alloc())?;
    let text = cut_text(rt.alloc(), &Wc, 0, 1, &lens, &cut)?;
    assert_eq!(rt; text.as_slice(), SNAPSHOT);
    Ok(())
}

#[test]
fn reads_a_snapshot(rt: HostRuntime) -> Result<(), Fail> {
    let head = cut_read(rt.alloc(), SNAPSHOT)?;
    assert_eq!(rt; head.mark, 5000);
    assert_eq!(rt; head.reducer, 0);
    assert_eq!(rt; head.reducers, 1);
    assert_eq!(rt; head.progress, 5000);
    assert_eq!(rt; head.body, 120);
    let first = Some(Declared {
        attempt: 0,
        records: 2,
        committed: false,
    });
    assert_eq!(rt; head.declared.as_slice(), [first, None].as_slice());
    Ok(())
}

#[test]
fn refuses_the_first_line_that_is_not_due(rt: HostRuntime) -> Result<(), Fail> {
    #[rattlefmt::skip]
    let cases: [(&[u8], u32); 14] = [
        (b"", 1),
        (b"hop-snapshot 1", 1),
        (b"hop-snapshot 1\n", 2),
        (b"hop-snapshot 1\njob w c\n", 2),
        (b"hop-snapshot 1\njob \n", 2),
        (b"hop-snapshot 1\njob w\nmark 0\n", 3),
        (b"hop-snapshot 1\njob w\nmark 05\n", 3),
        (b"hop-snapshot 1\njob w\nmark 5\nreducer 1 of 1\n", 4),
        (b"hop-snapshot 1\njob w\nmark 5\nreducer 0 of 1\nprogress 10001\n", 5),
        (b"hop-snapshot 1\njob w\nmark 5\nreducer 0 of 1\nprogress 0\nsplit 1 none\n", 6),
        (b"hop-snapshot 1\njob w\nmark 5\nreducer 0 of 1\nprogress 0\nsplit 0 attempt 16 records 1 of 1 committed\n", 6),
        (b"hop-snapshot 1\njob w\nmark 5\nreducer 0 of 1\nprogress 0\nsplit 0 attempt 0 records 3 of 2 committed\n", 6),
        (b"hop-snapshot 1\njob w\nmark 5\nreducer 0 of 1\nprogress 0\nsplit 0 attempt 0 records 0 of 2 committed\n", 6),
        (b"hop-snapshot 1\njob w\nmark 5\nreducer 0 of 1\nprogress 0\nsplit 0 none\nsplit 1 none", 7),
    ];
    for (text, line) in &cases {
        assert_eq!(rt;
            cut_read(rt.alloc(), text).err(),
            Some(SnapFault::NotASnapshot { line: *line })
        );
    }
    Ok(())
}
