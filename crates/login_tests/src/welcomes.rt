//! Logins that meet all premises of the law that a user gets in.

ghost use Rattle.std.specs.Prelude.{◌≤◌};

use account_file::read_setup;
use otp_words::Dictionary;
use outside::Bytes;
use policy_model::Setup;
use request_catalogue::Name;
use service_play::{ONE, setup_with};
use std::alloc::Global;
use std::sync::Wait;
use std::test::Fail as Fault;
use std::thread::Threads;
use welcome_rows::{House, Visit, gets_in, log_in, visit_of};

/// The account of a second user, whose chain is at 1 (RFC 2289, `AbCdEfGhIjK`, MD5).
const ALICE: &str = "
    [[account]]
    name = \"alice\"
    uid = 1002
    algorithm = \"md5\"
    seed = \"alpha1\"
    sequence = 1
    password = \"7cd34c1040add14b\"
";

/// The setup of these bytes.
fn setup_of(alloc: Global, bytes: &[u8]) -> Result<Setup, Fault> {
    Ok(read_setup(alloc, bytes).ok().ok_or("a setup")?)
}

/// What a run serves by, of a setup of these bytes.
fn house_from(alloc: Global, bytes: &[u8]) -> Result<House, Fault> {
    let dictionary = Dictionary::plain(alloc)?;
    let setup = setup_of(alloc, bytes)?;
    Ok(House { setup, dictionary })
}

/// What a run serves by, of a setup that begins with these lines and has bob and alice.
pub(super) fn house_of(alloc: Global, lines: &str) -> Result<House, Fault> {
    let mut bytes = setup_with(alloc, lines)?;
    bytes.extend_from_slice(ALICE.as_bytes())?;
    house_from(alloc, &bytes)
}

/// Bob, whose client says these lines.
pub(super) fn bob(alloc: Global, client: &[u8]) -> Result<Visit, Fault> {
    let user = Name::of(b"bob").ok_or("a name")?;
    Ok(visit_of(alloc, user, 1_001, b"bb9e 6ae1 979d 8ff4", client)?)
}

/// What bob's client says.
const BOB: &[u8] = b"user bob
resp bb9e 6ae1 979d 8ff4
quit
";

/// What bob's client says that names a terminal and mistypes the response first.
const BOB_AGAIN: &[u8] = b"term vt220
user bob
resp bb9e 6ae1 979d 8ff5
user bob
resp bb9e 6ae1 979d 8ff4
quit
";

/// Bob, whose client says so.
fn bob_again(alloc: Global) -> Result<Visit, Fault> {
    let mut visit = bob(alloc, BOB_AGAIN)?;
    visit.mistyped = Bytes::of(alloc, b"bb9e 6ae1 979d 8ff5")?;
    Ok(visit)
}

/// Alice, who logs in.
fn alice(alloc: Global) -> Result<Visit, Fault> {
    let user = Name::of(b"alice").ok_or("a name")?;
    let client = b"user alice
resp 8706 6dd9 644b f206
quit
";
    Ok(visit_of(alloc, user, 1_002, b"8706 6dd9 644b f206", client)?)
}

/// Whether all of these visits get in.
pub(super) fn all_get_in<R: Threads + Wait + Sync>(
    rt: &R,
    alloc: Global,
    house: &House,
    visits: &mut [Visit],
    piece: usize,
) -> Result<bool, Fault>
    requires { 1 ≤ piece }
{
    let served = log_in(rt, alloc, house, visits, piece)?;
    for worker in 0..visits.len() {
        if !gets_in(alloc, house, visits, &served, worker)? {
            return Ok(false);
        }
    }
    Ok(true)
}

/// Whether bob gets in at a house.
fn bob_gets_in_at<R: Threads + Wait + Sync>(
    rt: &R,
    alloc: Global,
    house: &House,
    piece: usize,
) -> Result<bool, Fault>
    requires { 1 ≤ piece }
{
    let mut visits = vec![in alloc; bob(alloc, BOB)?]?;
    all_get_in(rt, alloc, house, &mut visits, piece)
}

/// Whether bob gets in by a setup that begins with these lines.
pub(super) fn bob_gets_in<R: Threads + Wait + Sync>(
    rt: &R,
    alloc: Global,
    lines: &str,
    piece: usize,
) -> Result<bool, Fault>
    requires { 1 ≤ piece }
{
    bob_gets_in_at(rt, alloc, &house_of(alloc, lines)?, piece)
}

/// Whether bob gets in at a house after a mistyped response.
fn bob_gets_in_again_at<R: Threads + Wait + Sync>(
    rt: &R,
    alloc: Global,
    house: &House,
    piece: usize,
) -> Result<bool, Fault>
    requires { 1 ≤ piece }
{
    let mut visits = vec![in alloc; bob_again(alloc)?]?;
    all_get_in(rt, alloc, house, &mut visits, piece)
}

/// Whether bob gets in after a mistyped response, by a setup that begins with these lines.
fn bob_gets_in_again<R: Threads + Wait + Sync>(
    rt: &R,
    alloc: Global,
    lines: &str,
    piece: usize,
) -> Result<bool, Fault>
    requires { 1 ≤ piece }
{
    bob_gets_in_again_at(rt, alloc, &house_of(alloc, lines)?, piece)
}

/// Whether bob and alice get in beside one another at a house.
fn both_get_in_at<R: Threads + Wait + Sync>(
    rt: &R,
    alloc: Global,
    house: &House,
) -> Result<bool, Fault> {
    let mut visits = vec![in alloc; bob(alloc, BOB)?, alice(alloc)?]?;
    all_get_in(rt, alloc, house, &mut visits, 4_096)
}

/// Whether bob and alice get in beside one another.
fn both_get_in<R: Threads + Wait + Sync>(rt: &R, alloc: Global) -> Result<bool, Fault> {
    let house = house_of(alloc, "workers = 2\nrequests = 64")?;
    both_get_in_at(rt, alloc, &house)
}

const WIDE: &str = "workers = 1
    frames = \"wide\"
    requests = 64";

#[test]
fn bob_can_get_in(rt: HostRuntime) -> Result<(), Fault> {
    assert!(&rt; bob_gets_in(&rt, rt.alloc(), ONE, 4_096)?);
    Ok(())
}

#[test]
fn bob_can_get_in_by_wide_frames(rt: HostRuntime) -> Result<(), Fault> {
    assert!(&rt; bob_gets_in(&rt, rt.alloc(), WIDE, 4_096)?);
    Ok(())
}

#[test]
fn bob_can_get_in_byte_by_byte(rt: HostRuntime) -> Result<(), Fault> {
    assert!(&rt; bob_gets_in(&rt, rt.alloc(), ONE, 1)?);
    Ok(())
}

#[test]
fn bob_can_get_in_byte_by_byte_by_wide_frames(rt: HostRuntime) -> Result<(), Fault> {
    assert!(&rt; bob_gets_in(&rt, rt.alloc(), WIDE, 1)?);
    Ok(())
}

#[test]
fn bob_can_get_in_after_a_mistyped_response(rt: HostRuntime) -> Result<(), Fault> {
    assert!(&rt; bob_gets_in_again(&rt, rt.alloc(), ONE, 4_096)?);
    Ok(())
}

#[test]
fn bob_can_get_in_after_a_mistyped_response_in_pieces(rt: HostRuntime) -> Result<(), Fault> {
    assert!(&rt; bob_gets_in_again(&rt, rt.alloc(), ONE, 7)?);
    Ok(())
}

#[test]
fn two_users_can_get_in_at_once(rt: HostRuntime) -> Result<(), Fault> {
    assert!(&rt; both_get_in(&rt, rt.alloc())?);
    Ok(())
}
