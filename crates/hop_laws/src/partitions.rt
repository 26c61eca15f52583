//! The partition of a key.
ghost use Rattle.std.specs.Prelude.{◌≡◌, ◌<◌, ◌≤◌};
ghost use Rattle.hop_laws.specs.Partition.{partition_of};

/// The partition of a key among `r` reducers, 1 to 8 of them: 0 to `r` - 1. It is a hash of the key's
/// bytes modulo `r`: the hash starts at 0, and each byte b makes it 31 times itself plus b, modulo
/// 2^32.
pub fn partition(key: &[u8], r: u8) -> u8
    requires some { 1 ≤ r }
    requires few { r ≤ 8 }
    ensures value { result ≡ partition_of key.now r }
    ensures below { result < r }
{
    if r == 1 {
        return 0;
    }
    let mut hash: u64 = 0;
    for byte in key {
        hash = (31 * hash + u64::from(*byte)) % 0x1_0000_0000;
    }
    (hash % u64::from(r)) as u8
}
