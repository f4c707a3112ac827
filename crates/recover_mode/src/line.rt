//! The line that tells what was recovered.

ghost use Rattle.std.specs.Prelude.{◌≡◌, IfOk};
ghost use Rattle.std.specs.String.{string_bytes};
ghost use Rattle.recover_mode.specs.Lines.{recovery_line};

use std::alloc::{AllocError, Global};

/// What was recovered of a log.
#[derive(Clone, Copy, PartialEq, Eq)]
pub struct Recovery {
    /// How many lines the log has, at most 1,048,576.
    pub lines: u32,
    /// How many replies they accept.
    pub accepted: u32,
}

/// The line of what was recovered, with the newline at its end.
pub(crate) fn recovery_line(alloc: Global, recovery: Recovery) -> Result<String, AllocError>
    ensures { IfOk result (λ line. string_bytes line ≡ recovery_line recovery) }
{
    let mut line = String::from_str(alloc, "recovered lines ")?;
    line.push_str(recovery.lines.to_string(alloc)?.as_str())?;
    line.push_str(" accepted ")?;
    line.push_str(recovery.accepted.to_string(alloc)?.as_str())?;
    line.push_str("\n")?;
    Ok(line)
}
