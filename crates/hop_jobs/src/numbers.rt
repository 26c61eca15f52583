//! Values that are numbers alone, and lines that end in a number.
ghost use Rattle.std.specs.Prelude.{◌≡◌, ◌<◌, ◌++◌, ◌∷◌, [], length, IfOk, OnOk, OnErr};
ghost use Rattle.hop_jobs.specs.Adding.{saturating_sum, number as number_value, number_line};

use hop_base::{Blob, NoMemory, Val};
use itoa::Buffer;
use std::alloc::Global;

// The sum of the numbers, which stops at the greatest.
pub(crate) fn sum(vals: &[Val]) -> u64
    ensures { result ≡ saturating_sum vals.now }
{
    let mut total: u64 = 0;
    for val in vals {
        total = total.saturating_add(val.n);
    }
    total
}

// A value of a number alone.
pub(crate) fn number(alloc: Global, n: u64) -> Result<Val, NoMemory>
    ensures { IfOk result (λ v. v ≡ number_value n) }
{
    let s = Blob::from_short(alloc, b"")?;
    Ok(Val { n, s })
}

// A list of one value of a number alone, in the memory of the first of these values.
pub(crate) fn one_number(mut vals: Vec<Val>, n: u64) -> Result<Vec<Val>, NoMemory>
    requires { 0 < length vals.items }
    ensures { IfOk result (λ one. one.items ≡ number_value n ∷ []) }
{
    vals.truncate(1);
    let first = &mut vals[0];
    first.n = n;
    first.s.set(b"")?;
    Ok(vals)
}

// Appends the text, a tab, the number in decimal and a line feed. Room for all of it is made first,
// so after `NoMemory` the text is as before.
pub(crate) fn append_line(out: &mut Vec<u8>, text: &[u8], n: u64) -> Result<(), NoMemory>
    ensures ok { OnOk result (out.new.items ≡ out.old.items ++ number_line text.now n) }
    ensures err { OnErr result (out.new.items ≡ out.old.items) }
{
    let mut buffer = Buffer::new();
    let digits = buffer.format(n).as_bytes();
    out.reserve(text.len() + digits.len() + 2)?;
    out.extend_from_slice(text)?;
    out.push(b'\t')?;
    out.extend_from_slice(digits)?;
    out.push(b'\n')?;
    Ok(())
}
