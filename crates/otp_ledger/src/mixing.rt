//! Numbers that go with names.

use request_catalogue::Name;

/// A number that goes with a name (FNV-1a). No contract speaks of it: by it something is chosen that makes no
/// difference but in time.
pub fn mixed(name: &Name) -> u64 {
    let mut mixed = 0xcbf2_9ce4_8422_2325u64;
    for byte in name.as_slice() {
        mixed = (mixed ^ u64::from(*byte)).wrapping_mul(0x0100_0000_01b3);
    }
    mixed
}
