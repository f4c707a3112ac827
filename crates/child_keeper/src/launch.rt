//! The arguments that the setup's launcher is given, which it hands on to the program of the child.

ghost use Rattle.std.specs.Prelude.{◌≡◌, ◌≤◌, ◌+◌, ◌++◌, ◌∷◌, drop, length};
ghost use Rattle.std.specs.Fmt.{decimal};
ghost use Rattle.arrayvec.specs.ArrayVec.{array_vec_len};
ghost use Rattle.text_line.specs.Writing.{WritesUpTo};
ghost use Rattle.child_keeper.specs.Launching.{launch_text};

use outside::Role;
use text_line::{LINE_MAX, Line, put, put_number};

/// The first argument for the child before the login.
pub const PRE_MODE: &str = "child-pre";

/// The first argument for a user's child.
pub const USER_MODE: &str = "child-user";

/// Writes the arguments for a child of this role to the front of `out`, which has 80 bytes or more, and
/// gives their length: `child-pre SESSION` or `child-user SESSION UID NAME`, with one space between
/// two of them, and the numbers in decimal digits.
pub fn launch_words(role: &Role, out: &mut [u8]) -> usize
    requires { 80 ≤ length out.old }
    ensures len { result ≡ length (launch_text role.now) }
    ensures within { result ≤ 80 }
    ensures written { out.new ≡ launch_text role.now ++ drop result out.old }
{
    let line = launch_line(role);
    let len = line.len();
    out[..len].copy_from_slice(line.as_slice());
    len
}

/// The arguments for a child of this role as a line.
fn launch_line(role: &Role) -> Line
    ensures text { result.items ≡ launch_text role.now }
    ensures short { length result.items ≤ 80 }
{
    let mut line = Line::new();
    match role {
        Role::Pre { session } => {
            put(&mut line, PRE_MODE.as_bytes());
            put_spaced(&mut line, *session);
        }
        Role::User { session, uid, user } => {
            put(&mut line, USER_MODE.as_bytes());
            put_spaced(&mut line, *session);
            put_spaced(&mut line, *uid);
            put(&mut line, b" ");
            put(&mut line, user.as_slice());
        }
    }
    line
}

/// Appends a space and a number.
fn put_spaced(line: &mut Line, number: u32)
    requires { array_vec_len line.old + 11 ≤ LINE_MAX }
    ensures { WritesUpTo 11 (32 ∷ decimal number) line.old.items line.new.items }
{
    put(line, b" ");
    put_number(line, number);
}
