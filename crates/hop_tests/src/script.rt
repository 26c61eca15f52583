//! Texts of both kinds that are read, and texts that are refused.
use hop_script::{LineFault, Script, Turn, TurnOf, Turns};
use std::test::Fail;

// The number of the first bad line, 0 where there is none.
fn bad_line<T: Drop>(read: Result<T, LineFault>) -> Option<u32> {
    match read {
        Ok(_) => Some(0),
        Err(LineFault::BadLine { line }) => Some(line),
        Err(LineFault::NoMemory) => None,
    }
}

#[test]
fn scripts_and_their_first_bad_lines(rt: HostRuntime) -> Result<(), Fail> {
    let alloc = rt.alloc();
    let table: [(&[u8], u32); 28] = [
        (b"", 0),
        (b"\n", 1),
        (b"fail 0 0 1\nfail 0 0 2\n", 2),
        (b"delay 7 10001\n", 1),
        (b"restart 0 1", 1),
        (b"fail 0 0\n", 1),
        (b"fail 0 0 0\nfail 0 1 0\nfail 1 0 0\n", 0),
        (b"fail 1023 15 16777216\n", 0),
        (b"fail 1024 15 16777216\n", 1),
        (b"fail 1023 16 16777216\n", 1),
        (b"fail 1023 15 16777217\n", 1),
        (b"restart 7 1000000\nrestart 7 1\nrestart 0 1\n", 0),
        (b"restart 8 1\n", 1),
        (b"restart 0 0\n", 1),
        (b"restart 0 1000001\n", 1),
        (b"restart 0 5\ndelay 0 5\nrestart 0 5\n", 3),
        (b"delay 7 10000\ndelay 0 1\n", 0),
        (b"delay 8 1\n", 1),
        (b"delay 0 0\n", 1),
        (b"delay 3 5\ndelay 3 6\n", 2),
        (b"delay 0 1\n\ndelay 1 1\n", 2),
        (b"delay 0 1\r\n", 1),
        (b"delay  0 1\n", 1),
        (b"delay 0 1 \n", 1),
        (b"delay 0 01\n", 1),
        (b"delay 00 1\n", 1),
        (b"delay 0 +1\n", 1),
        (b"delay 0 1\nDelay 1 1\n", 2),
    ];
    for (text, line) in table {
        assert!(rt; text.len() < 100);
        assert_eq!(rt;
            bad_line(Script::read(alloc, text)),
            Some(line),
            "{}",
            text.len()
        );
    }
    Ok(())
}

#[test]
fn what_a_script_says(rt: HostRuntime) -> Result<(), Fail> {
    let alloc = rt.alloc();
    let text = b"restart 1 9\nfail 3 1 7\ndelay 2 40\nrestart 1 2\nfail 3 0 0\nrestart 0 4\n";
    let script = Script::read(alloc, text)?;
    let places = [
        script.fails_at(3, 0),
        script.fails_at(3, 1),
        script.fails_at(1, 3),
    ];
    assert_eq!(rt; places, [Some(0), Some(7), None]);
    let restarts = [
        script.restarts(1),
        script.restarts(0),
        script.restarts(7),
        script.restarts(8),
    ];
    assert_eq!(rt;
        restarts,
        [
            [2, 9].as_slice(),
            [4].as_slice(),
            [].as_slice(),
            [].as_slice()
        ]
    );
    assert_eq!(rt; [script.delay(2), script.delay(0)], [40, 0]);
    Ok(())
}

#[test]
fn what_no_script_says(rt: HostRuntime) -> Result<(), Fail> {
    let none = Script::empty(rt.alloc());
    assert_eq!(rt; none.fails_at(0, 0), None);
    assert_eq!(rt; none.restarts(0).len(), 0);
    assert_eq!(rt; none.delay(0), 0);
    Ok(())
}

#[test]
fn turn_lists_and_their_first_bad_lines(rt: HostRuntime) -> Result<(), Fail> {
    let alloc = rt.alloc();
    let table: [(&[u8], u32); 20] = [
        (b"", 0),
        (b"r0 2\nm1\n", 2),
        (b"m0 999999\nm0 2\n", 2),
        (b"m0 999999\ns\n", 0),
        (b"m0 1000000\n", 0),
        (b"m0 1000001\n", 1),
        (b"m0 1000000\nc\n", 2),
        (b"m0 0\n", 1),
        (b"s\nc\nr0\nm0\n", 0),
        (b"r1\n", 1),
        (b"g0\n", 1),
        (b"m9\n", 1),
        (b"\n", 1),
        (b"s", 1),
        (b"s\ns 2", 2),
        (b"m0\r\n", 1),
        (b"m0  3\n", 1),
        (b"m0 3 \n", 1),
        (b"m00 3\n", 1),
        (b"m0 03\nq\n", 1),
    ];
    for (text, line) in table {
        assert!(rt; text.len() < 100);
        assert_eq!(rt;
            bad_line(Turns::read(alloc, text, 1, 1, 0)),
            Some(line),
            "{}",
            text.len()
        );
    }
    Ok(())
}

#[test]
fn what_a_turn_list_says(rt: HostRuntime) -> Result<(), Fail> {
    let alloc = rt.alloc();
    let turns = Turns::read(alloc, b"m7 3\nr0\ng3 12\ns\nc 2\n", 8, 1, 4)?;
    let expected = [
        (TurnOf::Mapper(7), 3),
        (TurnOf::Reducer(0), 1),
        (TurnOf::Merger(3), 12),
        (TurnOf::Writer, 1),
        (TurnOf::CatchUp, 2),
    ];
    assert_eq!(rt; turns.turns().len(), expected.len());
    for (turn, (actor, count)) in turns.turns().iter().zip(expected) {
        assert_eq!(rt; *turn, Turn { actor, count });
    }
    Ok(())
}
