//! Where an attempt fails by the script, and which attempts of a split are revoked.
ghost use Rattle.std.specs.Prelude.{◌≡◌, ◌<◌, ◌≤◌, ◌^◌, Option};
ghost use Rattle.hop_machine.specs.actors.MapperTurns.{fails_by, is_full};

// Whether an attempt with so many records done fails before its next spill is whole, which ends there, or at the end of its split.
pub(crate) fn fails_by(line: Option<u32>, len: u32, done: u32, end: u32) -> bool
    ensures { result ≡ fails_by line len done end }
{
    match line {
        None => false,
        Some(at) => {
            let place = at.min(len);
            done == place || place < end
        }
    }
}

// Whether the mask has the bit of each attempt below the limit.
pub(crate) fn is_full(attempts: u8, mask: u16) -> bool
    requires { attempts ≤ 16 }
    ensures { result ≡ is_full attempts mask }
{
    for a in (0..attempts).rev() {
        if (mask >> a) % 2 != 1 {
            return false;
        }
    }
    true
}
