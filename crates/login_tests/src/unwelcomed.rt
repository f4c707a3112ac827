//! Runs that miss a premise of the law that a user gets in.

use super::welcomes::{bob, bob_gets_in, house_of};
use service_play::ONE;
use std::alloc::Global;
use std::sync::Wait;
use std::test::Fail as Fault;
use std::thread::Threads;
use welcome_rows::{House, gets_in, log_in};

/// Whether bob is found to get in at a house, whose client says these lines.
fn is_shown_at<R: Threads + Wait + Sync>(
    rt: &R,
    alloc: Global,
    house: &House,
    client: &[u8],
) -> Result<bool, Fault> {
    let mut visits = vec![in alloc; bob(alloc, client)?]?;
    let served = log_in(rt, alloc, house, &mut visits, 4_096)?;
    Ok(gets_in(alloc, house, &visits, &served, 0)?)
}

/// Whether bob is found to get in, whose client says these lines.
fn is_shown<R: Threads + Wait + Sync>(rt: &R, alloc: Global, client: &[u8]) -> Result<bool, Fault> {
    is_shown_at(rt, alloc, &house_of(alloc, ONE)?, client)
}

#[test]
fn a_client_who_says_another_response_misses_one(rt: HostRuntime) -> Result<(), Fault> {
    let client = b"user bob\nresp bb9e 6ae1 979d 8ff5\nquit\n";
    assert!(&rt; !is_shown(&rt, rt.alloc(), client)?);
    Ok(())
}

#[test]
fn a_client_who_leaves_a_challenge_open_misses_one(rt: HostRuntime) -> Result<(), Fault> {
    let client = b"user alice\nuser bob\nresp bb9e 6ae1 979d 8ff4\nquit\n";
    assert!(&rt; !is_shown(&rt, rt.alloc(), client)?);
    Ok(())
}

#[test]
fn a_session_of_forty_requests_misses_one_byte_by_byte(rt: HostRuntime) -> Result<(), Fault> {
    let lines = "workers = 1\nrequests = 40";
    assert!(&rt; !bob_gets_in(&rt, rt.alloc(), lines, 1)?);
    Ok(())
}
