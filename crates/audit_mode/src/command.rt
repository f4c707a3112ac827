//! The command line of the mode.

ghost use Rattle.std.specs.Prelude.{◌≡◌, ◌∷◌, map, option_map};
ghost use Rattle.audit_mode.specs.Commands.{command_parts};
ghost use Rattle.audit_mode.specs.Words.{audit_command};

/// A command `audit SETUP LOG`.
#[derive(Clone, Copy)]
pub struct AuditCommand<'a> {
    /// The name of the setup's file.
    pub setup: &'a str,
    /// The name of the log's file.
    pub log: &'a str,
}

/// Reads a command line: the mode's name, and the arguments after it. `None` exactly where it isn't
/// `audit SETUP LOG`.
pub fn read_audit_command<'a>(mode: &str, further: &[&'a str]) -> Option<AuditCommand<'a>>
    ensures { option_map command_parts result
        ≡ audit_command (mode.now ∷ map (λ word. word.now) further.now) }
{
    match further {
        [setup, log] if mode == "audit" => Some(AuditCommand { setup, log }),
        _ => None,
    }
}
