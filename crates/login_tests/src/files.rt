//! Users who get in and are served their files.

ghost use Rattle.std.specs.Prelude.{◌≤◌};

use super::welcomes::{all_get_in, bob, house_of};
use service_play::ONE;
use std::alloc::Global;
use std::sync::Wait;
use std::test::Fail as Fault;
use std::thread::Threads;
use welcome_rows::{House, Visit};

/// What bob's client says that writes a file and reads it.
const BOB: &[u8] = b"user bob
resp bb9e 6ae1 979d 8ff4
put notes hello
get notes
quit
";

/// Bob, whose client says so.
fn bob_with_files(alloc: Global) -> Result<Visit, Fault> {
    let mut visit = bob(alloc, BOB)?;
    visit.wants_files = true;
    Ok(visit)
}

/// Whether bob gets in at a house and is served the files that he wants.
fn bob_is_served_at<R: Threads + Wait + Sync>(
    rt: &R,
    alloc: Global,
    house: &House,
    piece: usize,
) -> Result<bool, Fault>
    requires { 1 ≤ piece }
{
    let mut visits = vec![in alloc; bob_with_files(alloc)?]?;
    all_get_in(rt, alloc, house, &mut visits, piece)
}

/// Whether bob gets in and is served the files that he wants.
fn bob_is_served<R: Threads + Wait + Sync>(
    rt: &R,
    alloc: Global,
    piece: usize,
) -> Result<bool, Fault>
    requires { 1 ≤ piece }
{
    bob_is_served_at(rt, alloc, &house_of(alloc, ONE)?, piece)
}

#[test]
fn bob_can_use_files(rt: HostRuntime) -> Result<(), Fault> {
    assert!(&rt; bob_is_served(&rt, rt.alloc(), 4_096)?);
    Ok(())
}

#[test]
fn bob_can_use_files_in_pieces(rt: HostRuntime) -> Result<(), Fault> {
    assert!(&rt; bob_is_served(&rt, rt.alloc(), 7)?);
    Ok(())
}
