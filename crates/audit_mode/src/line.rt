//! The line that tells an answer.

ghost use Rattle.std.specs.Prelude.{◌≡◌, ◌++◌, IfOk, codes};
ghost use Rattle.std.specs.Fmt.{decimal};
ghost use Rattle.std.specs.String.{string_bytes};
ghost use Rattle.audit_mode.specs.Lines.{answer_line, why_word};

use audit_check::{Audit, AuditWhy};
use std::alloc::{AllocError, Global};

/// The line of an answer, with the newline at its end.
pub(crate) fn answer_line(alloc: Global, answer: Audit) -> Result<String, AllocError>
    ensures { IfOk result (λ line. string_bytes line ≡ answer_line answer) }
{
    match answer {
        Audit::Yes { events } => yes_line(alloc, events),
        Audit::No { line, why } => no_line(alloc, line, why),
    }
}

/// The line of a log that is legal.
fn yes_line(alloc: Global, events: u32) -> Result<String, AllocError>
    ensures { IfOk result (λ line. string_bytes line ≡ codes "yes " ++ decimal events ++ codes "\n") }
{
    format!(in alloc; "yes {events}\n")
}

/// The line of a log that is not legal.
fn no_line(alloc: Global, place: u32, why: AuditWhy) -> Result<String, AllocError>
    ensures { IfOk result (λ line. string_bytes line
        ≡ codes "no " ++ decimal place ++ codes " " ++ why_word why ++ codes "\n") }
{
    let mut line = String::from_str(alloc, "no ")?;
    line.push_str(place.to_string(alloc)?.as_str())?;
    line.push_str(" ")?;
    line.push_str(why_word(why))?;
    line.push_str("\n")?;
    Ok(line)
}

/// A fault of a log as it is spelled.
fn why_word(why: AuditWhy) -> &'static str
    ensures { result.now ≡ why_word why }
{
    match why {
        AuditWhy::Text => "text",
        AuditWhy::Count => "count",
        AuditWhy::Event => "event",
    }
}
