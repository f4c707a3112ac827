//! The event that a line says.

ghost use Rattle.std.specs.Prelude.{◌≡◌};
ghost use Rattle.audit_check.specs.Events.{ask_said, event_said};

use decision_log::{Logged, LoggedAsk};
use policy_model::{Ask, Event};

/// What was asked; a reply without readings.
fn ask_said(what: &LoggedAsk) -> Ask
    ensures { result ≡ ask_said what.now }
{
    match *what {
        LoggedAsk::Begin => Ask::Begin,
        LoggedAsk::Banner => Ask::Banner,
        LoggedAsk::Challenge { user, now } => Ask::Challenge { user, now },
        LoggedAsk::Reply => Ask::Reply {
            words: None,
            hex: None,
        },
        LoggedAsk::Abandon => Ask::Abandon,
        LoggedAsk::Export { len } => Ask::Export { len },
        LoggedAsk::Import => Ask::Import,
        LoggedAsk::ReadAt {
            handle,
            offset,
            max,
        } => Ask::ReadAt {
            handle,
            offset,
            max,
        },
        LoggedAsk::WriteAt {
            handle,
            offset,
            len,
        } => Ask::WriteAt {
            handle,
            offset,
            len,
        },
        LoggedAsk::OpenFile { mode, name } => Ask::OpenFile { mode, name },
        LoggedAsk::CloseFile { handle } => Ask::CloseFile { handle },
        LoggedAsk::Info { number } => Ask::Info { number },
        LoggedAsk::Note { text } => Ask::Note { text },
        LoggedAsk::Finish => Ask::Finish,
        LoggedAsk::Bad { rule, detail } => Ask::Bad { rule, detail },
        LoggedAsk::End { why } => Ask::End { why },
    }
}

/// The event that a line was read as.
pub(crate) fn event_said(line: &Logged) -> Event
    ensures { result ≡ event_said line.now }
{
    Event {
        worker: line.worker,
        session: line.session,
        ask: ask_said(&line.what),
        decision: line.decision,
    }
}
