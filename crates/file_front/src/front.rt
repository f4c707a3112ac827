//! The first bytes of a file.

ghost use Rattle.std.specs.Prelude.{◌≡◌, ◌≤◌, ◌∷◌, [], IfOk, IfSome, option_map, take, vec_len};
ghost use Rattle.outside.specs.FilesNow.{OnlyReads, files_now};
ghost use Rattle.outside.specs.Told.{Rose};
ghost use Rattle.file_front.specs.declared.front.FrontError.TheVariants as errors;

use outside::{Failed, Files, Word};
use std::alloc::{AllocError, Global};

/// How many bytes are read by one call at most.
const PIECE: usize = 4_096;

/// Why the front of a file was not read.
#[derive(Clone, Copy, PartialEq, Eq, Debug)]
pub enum FrontError {
    /// A reading failed.
    Failed,
    /// No memory was found for the bytes.
    OutOfMemory,
}

impl From<Failed> for FrontError {
    ghost from_gives = { λ _ e. e ≡ errors.Failed };

    fn from(_: Failed) -> Self {
        FrontError::Failed
    }
}

impl From<AllocError> for FrontError {
    ghost from_gives = { λ _ e. e ≡ errors.OutOfMemory };

    fn from(_: AllocError) -> Self {
        FrontError::OutOfMemory
    }
}

/// The first bytes of a file up to a limit: `limit` of them, or all where it has fewer. They are
/// read by pieces until the limit is reached or a reading gives none. `None`: there is no such
/// file.
pub fn read_front<F: Files>(
    alloc: Global,
    files: &mut F,
    name: &str,
    limit: usize,
) -> Result<Option<Vec<u8>>, FrontError>
    requires { 1 ≤ limit }
    ensures front { IfOk result (λ found. IfSome (F.contents files.new) (λ there.
        option_map (λ bytes. bytes.items) found ≡ option_map (take limit) (there name.now))) }
    ensures within { IfOk result (λ found. IfSome found (λ bytes. vec_len bytes ≤ limit)) }
    ensures failed { result ≡ Err errors.Failed → Rose (F.read_faults files.old)
        (F.read_faults files.new) }
    ensures files { let now = files_now F.contents F.read_faults F.replace_faults F.touched in
        OnlyReads (name.now ∷ []) (now files.old) (now files.new) }
{
    let word = Word::of(alloc, name.as_bytes())?;
    let mut bytes = Vec::new(alloc);
    let mut piece = [0; PIECE];
    while bytes.len() < limit {
        let room = PIECE.min(limit - bytes.len());
        match files.read(&word, bytes.len() as u64, &mut piece[..room])? {
            None => return Ok(None),
            Some(0) => break,
            Some(n) => bytes.extend_from_slice(&piece[..n])?,
        }
    }
    Ok(Some(bytes))
}
