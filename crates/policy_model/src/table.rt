//! The phase table.

ghost use Rattle.std.specs.Prelude.{◌≡◌};
ghost use Rattle.policy_model.specs.Phases.{table_row};

use crate::phase::{Phase, Row};
use request_catalogue::Kind;

/// The phase table: what each phase permits of each kind of request.
pub fn row(phase: Phase, kind: Kind) -> Row
    ensures { result ≡ table_row phase kind }
{
    match kind {
        Kind::ReadAt | Kind::WriteAt | Kind::Note | Kind::Finish => match phase {
            Phase::Over => Row::NONE,
            _ => Row::FREE,
        },
        Kind::Banner => match phase {
            Phase::Pre | Phase::Challenged => Row::ONCE,
            _ => Row::NONE,
        },
        Kind::Challenge => match phase {
            Phase::Pre => Row::FREE,
            _ => Row::NONE,
        },
        Kind::Reply => match phase {
            Phase::Challenged => Row::DECIDING,
            _ => Row::NONE,
        },
        Kind::Abandon => match phase {
            Phase::Challenged => Row::FREE,
            _ => Row::NONE,
        },
        Kind::Export => match phase {
            Phase::Verified => Row::ONCE,
            _ => Row::NONE,
        },
        Kind::Import => match phase {
            Phase::User => Row::ONCE,
            _ => Row::NONE,
        },
        Kind::OpenFile | Kind::CloseFile | Kind::Info => match phase {
            Phase::User => Row::FREE,
            _ => Row::NONE,
        },
    }
}
