//! The command line of the mode.

ghost use Rattle.std.specs.Prelude.{◌≡◌, ◌∷◌, ◌≤◌, IfSome, map};
ghost use Rattle.drill_mode.specs.Words.{drill_command, drill_number};

use text_line::long_of;

/// The greatest number of a drill.
const NUMBER_MAX: u64 = 64;

/// Reads a command line: the mode's name, and the arguments after it. `None` exactly where it isn't
/// `drill N` with a number from 1 to 64 in decimal digits without a leading zero; else that
/// number.
pub fn read_drill_command(mode: &str, further: &[&str]) -> Option<u32>
    ensures value { result ≡ drill_command (mode.now ∷ map (λ word. word.now) further.now) }
    ensures least { IfSome result (λ number. 1 ≤ number) }
    ensures most { IfSome result (λ number. number ≤ 64) }
{
    match further {
        [number] if mode == "drill" => drill_number(number),
        _ => None,
    }
}

/// The number of a drill that a word spells.
fn drill_number(word: &str) -> Option<u32>
    ensures value { result ≡ drill_number word.now }
    ensures least { IfSome result (λ number. 1 ≤ number) }
    ensures most { IfSome result (λ number. number ≤ 64) }
{
    let number = long_of(word.as_bytes())?;
    if number < 1 || number > NUMBER_MAX {
        return None;
    }
    Some(number as u32)
}
