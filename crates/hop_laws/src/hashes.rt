//! A hash of a key.
use crate::head::Head;

/// A number that keys seldom share. Nothing is said of it: any function of the key does.
pub fn key_hash(key: &[u8]) -> u64 {
    let head = Head::of(key);
    let mut hash = head
        .first
        .wrapping_mul(0x9e37_79b9_7f4a_7c15)
        .rotate_left(23)
        ^ head.second.wrapping_mul(0x517c_c1b7_2722_0a95);
    if key.len() > 15 {
        for byte in &key[15..] {
            hash = (hash.rotate_left(5) ^ u64::from(*byte)).wrapping_mul(0x517c_c1b7_2722_0a95);
        }
    }
    (hash ^ (hash >> 32)).wrapping_mul(0x9e37_79b9_7f4a_7c15)
}
