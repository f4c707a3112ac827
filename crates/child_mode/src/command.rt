//! The command lines of the modes.

ghost use Rattle.std.specs.Prelude.{◌≡◌, ◌∷◌, map, option_map};
ghost use Rattle.child_mode.specs.Commands.{parts_of};
ghost use Rattle.child_mode.specs.Words.{child_command, number_within, pre_parts, user_parts};

use request_catalogue::Name;
use text_line::long_of;

/// The greatest number of a session.
const SESSION_MAX: u32 = 262_144;

/// The greatest number of a user.
const UID_MAX: u32 = 4_294_967_294;

/// Which child is to run, and for which session, from 1 to 262,144.
#[derive(Clone, Copy)]
pub enum ChildCommand {
    /// The child before the login.
    Pre { session: u32 },
    /// The child of the user with this number, from 1 to 4,294,967,294, and name.
    User { session: u32, uid: u32, user: Name },
}

/// Reads a command line: the mode's name, and the arguments after it. `None` exactly where it is
/// neither `child-pre SESSION` nor `child-user SESSION UID NAME`: the numbers are in decimal digits
/// without a leading zero, and the name is one that an account can have.
pub fn read_child_command(mode: &str, further: &[&str]) -> Option<ChildCommand>
    ensures { option_map parts_of result
        ≡ child_command (mode.now ∷ map (λ word. word.now) further.now) }
{
    match further {
        [session] => pre_command(mode, session),
        [session, uid, name] => user_command(mode, session, uid, name),
        _ => None,
    }
}

/// The command of the word `child-pre` and a session.
fn pre_command(mode: &str, session: &str) -> Option<ChildCommand>
    ensures { option_map parts_of result ≡ pre_parts mode.now session.now }
{
    if mode != "child-pre" {
        return None;
    }
    let session = number_within(session, SESSION_MAX)?;
    Some(ChildCommand::Pre { session })
}

/// The command of the word `child-user`, a session, a user's number and a name.
fn user_command(mode: &str, session: &str, uid: &str, name: &str) -> Option<ChildCommand>
    ensures { option_map parts_of result ≡ user_parts mode.now session.now uid.now name.now }
{
    if mode != "child-user" {
        return None;
    }
    let user = Name::of(name.as_bytes())?;
    let session = number_within(session, SESSION_MAX)?;
    let uid = number_within(uid, UID_MAX)?;
    Some(ChildCommand::User { session, uid, user })
}

/// The number from 1 to `max` that a word spells.
fn number_within(word: &str, max: u32) -> Option<u32>
    ensures { result ≡ number_within max word.now }
{
    let number = long_of(word.as_bytes())?;
    if number < 1 || number > u64::from(max) {
        return None;
    }
    Some(number as u32)
}
