//! What is to be done for an event, and what came of it.

ghost use Rattle.std.specs.Prelude.{◌≡◌};
ghost use Rattle.request_catalogue.specs.Widths.{transfer_max};
ghost use Rattle.session_asking.specs.Asking.{FitsPiece};
ghost use Rattle.session_asking.specs.Known.{file_in};
ghost use Rattle.session_asking.specs.Work.{FitsWork, done_operations, work_operations};

use crate::live::{LoggedIn, UserFile, file_of};
use crate::texts::Texts;
use policy_model::{Ask, Decision, Event};

/// What is to be done for an event after its decision.
#[derive(Clone, Copy)]
pub enum Work<'a> {
    Nothing,
    /// To receive up to so many bytes of the client.
    Receive {
        max: u16,
    },
    /// To send the client these bytes.
    Send {
        bytes: &'a [u8],
    },
    /// To read up to so many bytes of a user's file from an offset on.
    ReadFile {
        file: UserFile,
        offset: u64,
        max: u16,
    },
    /// To write these bytes into a user's file from an offset on.
    WriteFile {
        file: UserFile,
        offset: u64,
        bytes: &'a [u8],
    },
}

/// What came of a request: the body of its answer is the front of the piece, or a device failed.
#[derive(Clone, Copy)]
pub enum Outcome {
    Done { len: usize },
    Failed { device: u8 },
}

/// What is to be done for an event, where a WRITE has these bytes to write.
pub(crate) fn work_of<'a, T: Texts>(
    texts: &T,
    user: &Option<LoggedIn>,
    event: &Event,
    bytes: &'a [u8],
) -> Work<'a>
    requires fits { FitsPiece (T.service texts.now).setup.frames event.now.ask }
    ensures operations { work_operations result ≡ done_operations event.now.ask event.now.decision
        (λ handle. file_in (T.service texts.now).setup user.now handle) bytes.now }
    ensures fits { FitsWork (transfer_max (T.service texts.now).setup.frames) result }
{
    let Decision::Permit { .. } = event.decision else {
        return Work::Nothing;
    };
    match event.ask {
        Ask::ReadAt { handle: 0, max, .. } => Work::Receive { max },
        Ask::ReadAt {
            handle,
            offset,
            max,
        } => match file_of(texts, user, handle) {
            Some(file) => Work::ReadFile { file, offset, max },
            None => Work::Nothing,
        },
        Ask::WriteAt { handle: 0, .. } => Work::Send { bytes },
        Ask::WriteAt { handle, offset, .. } => match file_of(texts, user, handle) {
            Some(file) => Work::WriteFile {
                file,
                offset,
                bytes,
            },
            None => Work::Nothing,
        },
        _ => Work::Nothing,
    }
}
