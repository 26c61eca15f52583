//! The heads of keys.
ghost use Rattle.std.specs.Prelude.{◌≡◌, ◌≤◌, length};
ghost use Rattle.hop_laws.specs.Heads.{head_of, head_bytes, spelled_bytes, padded};

// The first 15 bytes of a key, with zeros behind a shorter one, and its length up to 16, as two numbers of the
// most significant byte first. Keys are in the order of their heads; those of at most 15 bytes that have one head
// are the same.
#[derive(Clone, Copy)]
pub(crate) struct Head {
    pub(crate) first: u64,
    pub(crate) second: u64,
}

impl Head {
    // The head of a key.
    pub(crate) fn of(key: &[u8]) -> Head
        ensures { result ≡ head_of key.now }
    {
        let (front, rest) = key.split_at(key.len().min(8));
        let (back, _) = rest.split_at(rest.len().min(7));
        Head {
            first: word(front),
            second: word(back) + key.len().min(16) as u64,
        }
    }

    // Its bytes.
    pub(crate) fn bytes(self) -> [u8; 16]
        ensures { result ≡ head_bytes self }
    {
        let [a, b, c, d, e, f, g, h] = self.first.to_be_bytes();
        let [i, j, k, l, m, n, o, p] = self.second.to_be_bytes();
        [a, b, c, d, e, f, g, h, i, j, k, l, m, n, o, p]
    }
}

// The number that the bytes spell, with zeros behind them where they are fewer than eight.
fn word(bytes: &[u8]) -> u64
    requires { length bytes.now ≤ 8 }
    ensures { result ≡ spelled_bytes 0 (padded 8 bytes.now) }
{
    match bytes.len() {
        0 => 0,
        1 => u64::from_be_bytes([bytes[0], 0, 0, 0, 0, 0, 0, 0]),
        2 => u64::from_be_bytes([bytes[0], bytes[1], 0, 0, 0, 0, 0, 0]),
        3 => u64::from_be_bytes([bytes[0], bytes[1], bytes[2], 0, 0, 0, 0, 0]),
        4 => u64::from_be_bytes([bytes[0], bytes[1], bytes[2], bytes[3], 0, 0, 0, 0]),
        5 => u64::from_be_bytes([bytes[0], bytes[1], bytes[2], bytes[3], bytes[4], 0, 0, 0]),
        6 => u64::from_be_bytes([
            bytes[0], bytes[1], bytes[2], bytes[3], bytes[4], bytes[5], 0, 0,
        ]),
        7 => u64::from_be_bytes([
            bytes[0], bytes[1], bytes[2], bytes[3], bytes[4], bytes[5], bytes[6], 0,
        ]),
        _ => u64::from_be_bytes([
            bytes[0], bytes[1], bytes[2], bytes[3], bytes[4], bytes[5], bytes[6], bytes[7],
        ]),
    }
}
