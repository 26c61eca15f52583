//! The fields of a spill's text.
ghost use Rattle.std.specs.Prelude.{◌≤◌, length, IfOk};
ghost use Rattle.std.specs.Int.{w32, w64};
ghost use Rattle.hop_spill.specs.Reading.{number_at, word_within, blob_at};
ghost use Rattle.hop_spill.specs.Answers.{Gives};

use crate::stop::Stop;
use hop_base::limits::MAX_BLOB;

// The letters HSP1, as a number.
pub const MAGIC: u32 = 0x4853_5031;

// The number of four bytes at the front, and what follows it.
pub fn word(bytes: &[u8]) -> Result<(u32, &[u8]), Stop>
    ensures { Gives (λ x. (x.0, x.1.now)) result (number_at w32 bytes.now) }
{
    if bytes.len() < 4 {
        return Err(Stop::Left(bytes.len()));
    }
    let (front, rest) = bytes.split_at(4);
    let number = u32::from_be_bytes([front[0], front[1], front[2], front[3]]);
    Ok((number, rest))
}

// The number of eight bytes at the front, and what follows it.
pub fn long(bytes: &[u8]) -> Result<(u64, &[u8]), Stop>
    ensures { Gives (λ x. (x.0, x.1.now)) result (number_at w64 bytes.now) }
{
    if bytes.len() < 8 {
        return Err(Stop::Left(bytes.len()));
    }
    let (front, rest) = bytes.split_at(8);
    let number = u64::from_be_bytes([
        front[0], front[1], front[2], front[3], front[4], front[5], front[6], front[7],
    ]);
    Ok((number, rest))
}

// The number of four bytes at the front, where it is one from `low` to `high`, and what follows it.
#[tactic(auto, unfolding(crate::specs::Reading::word_within))]
pub fn word_within(low: u32, high: u32, bytes: &[u8]) -> Result<(u32, &[u8]), Stop>
    ensures reading { Gives (λ x. (x.0, x.1.now)) result (word_within low high bytes.now) }
    ensures range { IfOk result (λ x. (low ≤ x.0) × (x.0 ≤ high)) }
{
    let (number, rest) = word(bytes)?;
    if number < low || high < number {
        return Err(Stop::Left(bytes.len()));
    }
    Ok((number, rest))
}

// The bytes behind their number at the front, and what follows them.
#[tactic(auto, unfolding(crate::specs::Reading::blob_at))]
pub fn counted(bytes: &[u8]) -> Result<(&[u8], &[u8]), Stop>
    ensures reading { Gives (λ x. (x.0.now, x.1.now)) result (blob_at bytes.now) }
    ensures short { IfOk result (λ x. length x.0.now ≤ 131071) }
{
    let (len, rest) = word_within(0, MAX_BLOB as u32, bytes)?;
    let len = len as usize;
    if rest.len() < len {
        return Err(Stop::Left(rest.len()));
    }
    Ok(rest.split_at(len))
}
