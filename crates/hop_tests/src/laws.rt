//! Tests of the partition.
use hop_laws::partition;

#[test]
fn partitions(rt: HostRuntime) {
    assert_eq!(rt; partition(b"a", 2), 1);
    assert_eq!(rt; partition(b"b", 2), 0);
    assert_eq!(rt; partition(b"c", 2), 1);
    assert_eq!(rt; partition(b"ab", 8), 1);
}
