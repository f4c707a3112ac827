//! The command line of the mode `renew`, and the line that it sends.

ghost use Rattle.std.specs.Prelude.{◌≡◌, ◌∷◌, ◌++◌, [], IfOk, codes, map, option_map};
ghost use Rattle.std.specs.Fmt.{decimal};
ghost use Rattle.std.specs.String.{string_bytes};
ghost use Rattle.request_catalogue.specs.TextBytes.{name_bytes};
ghost use Rattle.otp_extended.specs.Commands.{command_of, command_parts, renew_command, renewed_line};

use request_catalogue::Name;
use std::alloc::{AllocError, Global};

/// A command `renew SETUP NAME` or `renew SETUP NAME LOG`.
#[derive(Clone, Copy)]
pub struct RenewCommand<'a> {
    /// The name of the setup's file.
    pub setup: &'a str,
    /// The user whose account is renewed.
    pub user: Name,
    /// The name of the file of a durable log, which has to have no record.
    pub log: Option<&'a str>,
}

/// Reads a command line: the mode's name, and the arguments after it. `None` exactly where it is
/// neither `renew SETUP NAME` nor `renew SETUP NAME LOG`, where `NAME` is a user's name.
pub fn read_renew_command<'a>(mode: &str, further: &[&'a str]) -> Option<RenewCommand<'a>>
    ensures { option_map command_parts result
        ≡ renew_command (mode.now ∷ map (λ word. word.now) further.now) }
{
    match further {
        [setup, user] if mode == "renew" => command_of(setup, user, None),
        [setup, user, log] if mode == "renew" => command_of(setup, user, Some(log)),
        _ => None,
    }
}

/// The command of these words.
fn command_of<'a>(setup: &'a str, user: &str, log: Option<&'a str>) -> Option<RenewCommand<'a>>
    ensures { option_map command_parts result
        ≡ command_of setup.now user.now (option_map (λ word. word.now) log.entry) }
{
    match Name::of(user.as_bytes()) {
        None => None,
        Some(user) => Some(RenewCommand { setup, user, log }),
    }
}

/// The line that tells of a renewal, as `renewed alice 99` and a newline.
///
/// # Errors
///
/// There isn't the memory.
pub fn renewed_line(alloc: Global, user: &Name, sequence: u16) -> Result<Vec<u8>, AllocError>
    ensures { IfOk result (λ line. line.items ≡ renewed_line (name_bytes user.now) sequence) }
{
    let mut line = Vec::from_slice(alloc, b"renewed ")?;
    line.extend_from_slice(user.as_slice())?;
    line.extend_from_slice(b" ")?;
    line.extend_from_slice(sequence.to_string(alloc)?.as_bytes())?;
    line.extend_from_slice(b"\n")?;
    Ok(line)
}
