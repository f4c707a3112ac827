//! Whole logins by the shipped children.

ghost use Rattle.std.specs.Prelude.{◌≤◌};

use outside_memory::{MemFiles, MemPost};
use service_play::{Came, ONE, chain_in, notes, setup_in, told};
use service_rows::log_in;
use std::alloc::Global;
use std::sync::Wait;
use std::test::Fail as Fault;
use std::thread::Threads;

/// What the client is sent.
const TOLD: &[u8] = b"OTP login
otp-sha1 0 test
welcome bob
size 4
old
done
bye
";

pub(super) const LOG: &str = "1 w0 s1 open permit
2 w0 s1 banner permit
3 w0 s1 write 0 0 10 permit
4 w0 s1 read 0 0 512 permit
5 w0 s1 challenge bob 1000 permit 0
6 w0 s1 write 0 0 16 permit
7 w0 s1 reply permit bb9e6ae1979d8ff4
8 w0 s1 export 50 permit 0
9 w0 s1 import permit
10 w0 s1 write 0 0 12 permit
11 w0 s1 grant 1 6e6f746573 permit 1
12 w0 s1 read 1 0 4000 permit
13 w0 s1 close 1 permit
14 w0 s1 write 0 0 11 permit
15 w0 s1 grant 2 6e6f746573 permit 1
16 w0 s1 write 1 0 3 permit
17 w0 s1 close 1 permit
18 w0 s1 write 0 0 5 permit
19 w0 s1 write 0 0 4 permit
20 w0 s1 finish permit
21 w0 s1 end finished permit
";

/// What stands in bob's file after a run.
pub(super) fn holds(posts: &[MemPost], want: &[u8]) -> Result<bool, Fault> {
    let name = notes()?;
    let Some(post) = posts.first() else {
        return Ok(false);
    };
    Ok(post.user_file(1_001, &name) == Some(want))
}

/// Whether the client was told and served as the formats say.
fn is_welcomed(alloc: Global, came: &Came<MemPost>) -> Result<bool, Fault> {
    let told = told(alloc, &came.posts)?;
    let is_new = holds(&came.posts, b"new\n")?;
    Ok(came.status == 0 && told.as_slice() == TOLD && is_new)
}

/// Whether a client who logs in is told and served as the formats say, by a setup that begins with
/// these lines.
fn is_served<R: Threads + Wait + Sync>(
    rt: &R,
    alloc: Global,
    lines: &str,
    piece: usize,
) -> Result<bool, Fault>
    requires { 1 ≤ piece }
{
    is_welcomed(alloc, &log_in(rt, alloc, lines, piece)?.came)
}

/// The sequence and the password of bob's chain in the setup's file.
pub(super) fn left_in(alloc: Global, files: &mut MemFiles) -> Result<(u16, u64), Fault> {
    let setup = setup_in(alloc, files)?;
    chain_in(alloc, &setup)
}

/// Whether the whole login is logged, and bob's password is spent.
fn is_whole(alloc: Global, came: &mut Came<MemPost>) -> Result<bool, Fault> {
    let is_spent = left_in(alloc, &mut came.files)? == (0, 0xBB9E_6AE1_979D_8FF4);
    Ok(came.status == 0 && came.log.held() == LOG.as_bytes() && is_spent)
}

/// The same of a new login.
fn is_one_whole<R: Threads + Wait + Sync>(rt: &R, alloc: Global) -> Result<bool, Fault> {
    is_whole(alloc, &mut log_in(rt, alloc, ONE, 4_096)?.came)
}

#[test]
fn a_whole_login(rt: HostRuntime) -> Result<(), Fault> {
    assert!(&rt; is_one_whole(&rt, rt.alloc())?);
    Ok(())
}

/// A request for each byte that the client sends, and those of the login.
const NARROW: &str = "workers = 1
    requests = 200";

const WIDE: &str = "workers = 1
    frames = \"wide\"
    requests = 200";

#[test]
fn logins_in_narrow_frames(rt: HostRuntime) -> Result<(), Fault> {
    assert!(&rt; is_served(&rt, rt.alloc(), NARROW, 4_096)?);
    assert!(&rt; is_served(&rt, rt.alloc(), NARROW, 7)?);
    Ok(())
}

#[test]
fn logins_in_wide_frames(rt: HostRuntime) -> Result<(), Fault> {
    assert!(&rt; is_served(&rt, rt.alloc(), WIDE, 4_096)?);
    assert!(&rt; is_served(&rt, rt.alloc(), WIDE, 7)?);
    Ok(())
}

#[test]
fn a_login_byte_by_byte(rt: HostRuntime) -> Result<(), Fault> {
    assert!(&rt; is_served(&rt, rt.alloc(), NARROW, 1)?);
    Ok(())
}

#[test]
fn a_login_byte_by_byte_in_wide_frames(rt: HostRuntime) -> Result<(), Fault> {
    assert!(&rt; is_served(&rt, rt.alloc(), WIDE, 1)?);
    Ok(())
}
