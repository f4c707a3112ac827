//! The seed of a new user's chain, where the words of `enrol` name none.

use outside::Word;
use std::alloc::{AllocError, AllocFailed, Global};
use std::fs::File;
use std::io::Read;

/// Where random bytes come from.
pub(crate) const RANDOM: &str = "/dev/urandom";

/// The bytes of a seed, each of which is two digits of it.
const SEED_BYTES: usize = 4;

/// Why there is no seed.
#[derive(Clone, Copy)]
pub(crate) enum SeedError {
    /// Out of memory.
    OutOfMemory,
    /// The random bytes could not be read.
    ReadFailed,
}

impl SeedError {
    /// The exit status.
    pub(crate) fn status(self) -> u8 {
        match self {
            SeedError::ReadFailed => 3,
            SeedError::OutOfMemory => 9,
        }
    }
}

impl From<AllocError> for SeedError {
    fn from(_: AllocError) -> Self {
        SeedError::OutOfMemory
    }
}

impl<T: Drop> From<AllocFailed<T>> for SeedError {
    fn from(_: AllocFailed<T>) -> Self {
        SeedError::OutOfMemory
    }
}

/// Random bytes of the system.
fn random_bytes(rt: &HostRuntime) -> Result<[u8; SEED_BYTES], SeedError> {
    let mut bytes = [0; SEED_BYTES];
    let Ok(mut file) = File::open(rt, RANDOM) else {
        return Err(SeedError::ReadFailed);
    };
    match file.read_exact(&mut bytes) {
        Ok(()) => Ok(bytes),
        Err(_) => Err(SeedError::ReadFailed),
    }
}

/// A seed as a decoy's: eight characters, each a digit or a letter from `a` to `f`.
fn new_seed(rt: &HostRuntime, alloc: Global) -> Result<Word, SeedError> {
    let digits = hex::encode(alloc, random_bytes(rt)?)?;
    Ok(Word::of(alloc, digits.as_str().as_bytes())?)
}

/// Puts a new seed after the words `enrol NAME UID ALGO N`; all other words stay as they are.
///
/// # Errors
///
/// There isn't the memory, or the random bytes could not be read.
pub(crate) fn add_seed(
    rt: &HostRuntime,
    alloc: Global,
    words: &mut Vec<Word>,
) -> Result<(), SeedError> {
    match words.as_slice() {
        [mode, _, _, _, _] if mode.as_str() == "enrol" => {}
        _ => return Ok(()),
    }
    words.push(new_seed(rt, alloc)?)?;
    Ok(())
}
