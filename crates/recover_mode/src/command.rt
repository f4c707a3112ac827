//! The command line of the mode.

ghost use Rattle.std.specs.Prelude.{◌≡◌, ◌∷◌, map, option_map};
ghost use Rattle.recover_mode.specs.Commands.{command_parts};
ghost use Rattle.recover_mode.specs.Words.{recover_command};

/// A command `recover SETUP LOG`.
#[derive(Clone, Copy)]
pub struct RecoverCommand<'a> {
    /// The name of the setup's file.
    pub setup: &'a str,
    /// The name of the log's file.
    pub log: &'a str,
}

/// Reads a command line: the mode's name, and the arguments after it. `None` exactly where it isn't
/// `recover SETUP LOG`.
pub fn read_recover_command<'a>(mode: &str, further: &[&'a str]) -> Option<RecoverCommand<'a>>
    ensures { option_map command_parts result
        ≡ recover_command (mode.now ∷ map (λ word. word.now) further.now) }
{
    match further {
        [setup, log] if mode == "recover" => Some(RecoverCommand { setup, log }),
        _ => None,
    }
}
