//! The command line of the mode.

ghost use Rattle.std.specs.Prelude.{◌≡◌, ◌∷◌, map, option_map};
ghost use Rattle.check_mode.specs.Words.{check_command};

/// Reads a command line: the mode's name, and the arguments after it. `None` exactly where it isn't
/// `check SETUP`; else the name of the setup's file.
pub fn read_check_command<'a>(mode: &str, further: &[&'a str]) -> Option<&'a str>
    ensures { option_map (λ name. name.now) result
        ≡ check_command (mode.now ∷ map (λ word. word.now) further.now) }
{
    match further {
        [setup] if mode == "check" => Some(setup),
        _ => None,
    }
}
