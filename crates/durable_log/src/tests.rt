ghost use Rattle.std.specs.Prelude.{◌<◌, ◌^◌};

use crate::tail::Tail;
use std::test::Fail;

/// Whether a record of 256 bytes fits after a gate.
fn fits(gate: u64) -> bool
    requires { gate < 2 ^ 32 }
{
    let mut tail = Tail {
        gate,
        stopped: false,
        refused: 0,
        buffer: [0; 259],
    };
    tail.begin(&[7; 256]).is_ok()
}

#[test]
fn a_record_ends_within_the_image(rt: HostRuntime) -> Result<(), Fail> {
    assert!(rt; fits(271_580_929));
    assert!(rt; !fits(271_580_930));
    Ok(())
}
