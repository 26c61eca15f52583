//! What is kept of one split.
ghost use Rattle.std.specs.Prelude.{◌≡◌, ◌<◌, true, Some, length, map, slice_set};
ghost use Rattle.hop_cover.specs.Rows.{row_declared, tentative_of, cleared, cleared_try, try_at, IsRow};

use hop_event::Declared;

/// What is kept of one attempt: the records that are there, and whether it was revoked.
#[derive(Clone, Copy, Debug)]
pub struct Try {
    pub upto: u32,
    pub revoked: bool,
}

/// What is kept of one split: the attempt that won it, and its attempts.
#[derive(Clone, Copy, Debug)]
pub struct Row {
    pub winner: Option<u8>,
    pub tries: [Try; 16],
}

// The unrevoked attempt with the most records, the least at a tie.
fn leader(tries: &[Try]) -> Option<Declared>
    requires { length tries.now ≡ 16 }
    ensures { result ≡ tentative_of tries.now }
{
    let mut best: Option<Declared> = None;
    let mut most = 0;
    for (a, attempt) in tries.iter().enumerate() {
        if !attempt.revoked && attempt.upto > most {
            most = attempt.upto;
            best = Some(Declared {
                attempt: a as u8,
                records: attempt.upto,
                committed: false,
            });
        }
    }
    best
}

// What the split declares.
pub(crate) fn declared(row: &Row, tentative: bool) -> Option<Declared>
    requires { IsRow row.now }
    ensures { result ≡ row_declared tentative row.now }
{
    match row.winner {
        Some(attempt) => {
            let records = row.tries[attempt as usize].upto;
            if records == 0 {
                None
            } else {
                Some(Declared {
                    attempt,
                    records,
                    committed: true,
                })
            }
        }
        None => { if tentative { leader(&row.tries) } else { None } }
    }
}

// No records are there of these attempts.
fn clear_tries(tries: &mut [Try])
    ensures { tries.new ≡ map cleared_try tries.old }
{
    for attempt in tries.iter_mut() {
        attempt.upto = 0;
    }
}

// No records are there of any attempt of these splits.
fn clear_rows(rows: &mut [Row])
    ensures { rows.new ≡ map cleared rows.old }
{
    for row in rows.iter_mut() {
        clear_tries(&mut row.tries);
    }
}

// The same of a table.
pub(crate) fn clear(rows: &mut Vec<Row>)
    ensures { rows.new.items ≡ map cleared rows.old.items }
{
    clear_rows(rows);
}

// The attempt has its records up to `to`.
pub(crate) fn arrived(mut row: Row, attempt: u8, to: u32) -> Row
    requires attempt { attempt < 16 }
    requires whole { length row.tries ≡ 16 }
    ensures { result ≡ record row { tries = slice_set row.tries attempt (record (try_at row.tries attempt) { upto = to }) } }
{
    row.tries[attempt as usize].upto = to;
    row
}

// The attempt is the winner.
pub(crate) fn won(mut row: Row, attempt: u8) -> Row
    ensures { result ≡ record row { winner = Some attempt } }
{
    row.winner = Some(attempt);
    row
}

// The attempt is revoked, and its records are gone.
pub(crate) fn revoked(mut row: Row, attempt: u8) -> Row
    requires attempt { attempt < 16 }
    requires whole { length row.tries ≡ 16 }
    ensures { result ≡ record row { tries = slice_set row.tries attempt (record { upto = 0; revoked = true }) } }
{
    row.tries[attempt as usize] = Try {
        upto: 0,
        revoked: true,
    };
    row
}
